// Axle counters (request L1): the two heads of a section, what an event makes of them, and what the section then reads.
#![tactic(auto)]

ghost use Rattle.std.specs.Prelude.{◌≡◌};
ghost use Rattle.axles.specs.Rounds.{around, signed};
ghost use Rattle.axles.specs.Heads.{silent_head, cold_heads, head_after, speaks, speaking, net, number, reading_of, occupies, resets, sum_after, proof_after, told, with_proof, proves, judged, axles_after, known, axles_reading};

use track::codes::{AXLES_IN, AXLES_OUT, FREE, HEAD_SILENT, NONE, OCCUPIED, RESET_AXLES};

// A head: the axles that it told in and out, and for each count a flag, 1 where it has come since the cold start or the head's last silence. No value is
// out of range: a flag that is not 1 says that the count has not come, and the head is silent. Flags and no Option: it stands in the state that C holds.
#[repr(C)]
#[derive(Clone, Copy)]
pub struct Head {
    pub inward: u16,
    pub outward: u16,
    pub hasin: u8,
    pub hasout: u8,
}

// The heads of a section; all in less all out at the last reset, round 65,536; and whether there was a reset and it is proved. 16 bytes, each of them
// of a field. No value is out of range: with a proof that is not PROVED the section reads none.
#[repr(C)]
#[derive(Clone, Copy)]
pub struct Axles {
    pub head0: Head,
    pub head1: Head,
    pub sum: u16,
    pub proof: u16,
}

// What an event says of a section's heads, by the numbers that C gives: its kind, AXLES_IN, AXLES_OUT, HEAD_SILENT or RESET_AXLES; the head, 0 or 1; the
// count.
#[derive(Clone, Copy)]
pub struct Said {
    pub kind: u32,
    pub head: u8,
    pub count: u16,
}

// How far a reset is proved, as numbers in the state that C holds. There was no reset yet; since the last one the number was not in 1 to 255 with neither
// head silent; it was.
pub const NO_RESET: u16 = 0;

pub const UNPROVED: u16 = 1;

pub const PROVED: u16 = 2;

// A head that is silent.
#[tactic(auto, unfolding(crate::specs::Heads::silent_head))]
fn silent_head() -> Head
    ensures { result ≡ silent_head }
{
    Head {
        inward: 0,
        outward: 0,
        hasin: 0,
        hasout: 0,
    }
}

// The heads of a section at the cold start.
#[tactic(auto, unfolding(crate::specs::Heads::cold_heads))]
pub fn cold_heads() -> Axles
    ensures { result ≡ cold_heads }
{
    Axles {
        head0: silent_head(),
        head1: silent_head(),
        sum: 0,
        proof: NO_RESET,
    }
}

// What an event makes of head `which` of its section.
#[tactic(auto, using(laws::proofs::Choice::if_eq, laws::proofs::Choice::if_ne), unfolding(crate::specs::Heads::head_after))]
fn head_after(h: Head, which: u8, e: Said) -> Head
    ensures { result ≡ head_after h which e }
{
    if e.head != which {
        return h;
    }
    match e.kind {
        AXLES_IN => Head {
            inward: e.count,
            hasin: 1,
            ..h
        },
        AXLES_OUT => Head {
            outward: e.count,
            hasout: 1,
            ..h
        },
        HEAD_SILENT => silent_head(),
        _ => h,
    }
}

// The head has told both its counts.
#[tactic(auto, using(laws::proofs::Both::both_asked, laws::proofs::Both::both_left), unfolding(crate::specs::Heads::speaks))]
fn is_speaking(h: Head) -> bool
    ensures { result ≡ speaks h }
{
    h.hasin == 1 && h.hasout == 1
}

// Neither head is silent.
#[tactic(auto, using(laws::proofs::Both::both_asked, laws::proofs::Both::both_left), unfolding(crate::specs::Heads::speaking))]
pub fn are_speaking(x: Axles) -> bool
    ensures { result ≡ speaking x }
{
    is_speaking(x.head0) && is_speaking(x.head1)
}

// All in less all out, round 65,536.
#[tactic(auto, using(crate::proofs::Laws::sum_made))]
fn sum_of(x: Axles) -> u16
    ensures { result ≡ around (net x) }
{
    let inward = x.head0.inward.wrapping_add(x.head1.inward);
    let outward = x.head0.outward.wrapping_add(x.head1.outward);
    inward.wrapping_sub(outward)
}

// A number below 65,536 as a signed one.
#[tactic(auto, using(crate::proofs::Laws::signed_low, crate::proofs::Laws::upper_fits, crate::proofs::Laws::signed_high))]
fn signed_of(n: u16) -> i32
    ensures { result ≡ signed n }
{
    if n < 32768 {
        return n as i32;
    }
    n as i32 - 65536
}

// The section's number: all in less all out, less that sum at the last reset.
#[tactic(auto, using(crate::proofs::Laws::number_made))]
pub fn number_of(x: Axles) -> i32
    ensures { result ≡ number x }
{
    signed_of(sum_of(x).wrapping_sub(x.sum))
}

// What a number says: 0 is free, 1 to 255 occupied, anything else none.
#[tactic(auto, using(crate::proofs::Laws::zero_read, crate::proofs::Laws::minus_read, crate::proofs::Laws::few_read, crate::proofs::Laws::many_read))]
fn reading_of(n: i32) -> u8
    ensures { result ≡ reading_of n }
{
    match n {
        0 => FREE,
        1..=255 => OCCUPIED,
        _ => NONE,
    }
}

// What the section's number says.
#[tactic(auto, using(crate::proofs::Laws::number_read))]
fn number_says(x: Axles) -> u8
    ensures { result ≡ reading_of (number x) }
{
    reading_of(number_of(x))
}

// The number is in 1 to 255 with neither head silent.
#[tactic(auto, using(laws::proofs::Both::both_asked, laws::proofs::Both::both_left), unfolding(crate::specs::Heads::occupies))]
fn is_occupying(x: Axles) -> bool
    ensures { result ≡ occupies x }
{
    are_speaking(x) && number_says(x) == OCCUPIED
}

// The event is a reset that counts.
#[tactic(auto, using(laws::proofs::Both::both_asked, laws::proofs::Both::both_left), unfolding(crate::specs::Heads::resets))]
fn is_reset(x: Axles, e: Said) -> bool
    ensures { result ≡ resets x e }
{
    e.kind == RESET_AXLES && are_speaking(x)
}

// The sum at the last reset, after an event.
#[tactic(auto, using(laws::proofs::Choice::if_yes, laws::proofs::Choice::if_no), unfolding(crate::specs::Heads::sum_after))]
fn sum_after(x: Axles, e: Said) -> u16
    ensures { result ≡ sum_after x e }
{
    if is_reset(x, e) {
        return sum_of(x);
    }
    x.sum
}

// Whether there was a reset and it is proved, after an event and before its number is judged.
#[tactic(auto, using(laws::proofs::Choice::if_yes, laws::proofs::Choice::if_no), unfolding(crate::specs::Heads::proof_after))]
fn proof_after(x: Axles, e: Said) -> u16
    ensures { result ≡ proof_after x e }
{
    if is_reset(x, e) {
        return UNPROVED;
    }
    x.proof
}

// What an event tells: the counts, and at a reset their sum.
#[tactic(auto, unfolding(crate::specs::Heads::told))]
fn told(x: Axles, e: Said) -> Axles
    ensures { result ≡ told x e }
{
    Axles {
        head0: head_after(x.head0, 0, e),
        head1: head_after(x.head1, 1, e),
        sum: sum_after(x, e),
        proof: proof_after(x, e),
    }
}

// A reset that was not proved is, by the number now.
#[tactic(auto, using(laws::proofs::Both::both_asked, laws::proofs::Both::both_left), unfolding(crate::specs::Heads::proves))]
fn is_proving(x: Axles) -> bool
    ensures { result ≡ proves x }
{
    x.proof == UNPROVED && is_occupying(x)
}

// The heads with another proof.
#[tactic(auto, unfolding(crate::specs::Heads::with_proof))]
fn with_proof(x: Axles, proof: u16) -> Axles
    ensures { result ≡ with_proof x proof }
{
    Axles { proof, ..x }
}

// A reset is proved by such a number.
#[tactic(auto, using(laws::proofs::Choice::if_yes, laws::proofs::Choice::if_no), unfolding(crate::specs::Heads::judged))]
fn judged(x: Axles) -> Axles
    ensures { result ≡ judged x }
{
    if is_proving(x) {
        return with_proof(x, PROVED);
    }
    x
}

// What an event makes of the heads of its section.
#[tactic(auto, unfolding(crate::specs::Heads::axles_after))]
pub fn after(x: Axles, e: Said) -> Axles
    ensures { result ≡ axles_after x e }
{
    judged(told(x, e))
}

// Neither head is silent and the last reset is proved.
#[tactic(auto, using(laws::proofs::Both::both_asked, laws::proofs::Both::both_left), unfolding(crate::specs::Heads::known))]
fn is_known(x: Axles) -> bool
    ensures { result ≡ known x }
{
    are_speaking(x) && x.proof == PROVED
}

// What the section reads.
#[tactic(auto, using(laws::proofs::Choice::if_yes, laws::proofs::Choice::if_no), unfolding(crate::specs::Heads::axles_reading))]
pub fn reading(x: Axles) -> u8
    ensures { result ≡ axles_reading x }
{
    if is_known(x) {
        return number_says(x);
    }
    NONE
}
