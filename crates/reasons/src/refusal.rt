// A refusal by any number and detail, those too that the paper gives to no reason (section 3).
ghost use Rattle.std.specs.Prelude.{◌≡◌};
ghost use Rattle.reasons.specs.Refusal.{refused, no_refusal, refused_if};

// A refusal: its number and its detail; number 0 where there is none.
#[derive(Clone, Copy)]
pub struct Refusal {
    pub number: u8,
    pub detail: u32,
}

// No refusal.
#[tactic(auto, unfolding(crate::specs::Refusal::no_refusal, crate::specs::Refusal::refused))]
pub fn no_refusal() -> Refusal
    ensures { result ≡ no_refusal }
{
    Refusal {
        number: 0,
        detail: 0,
    }
}

// A refusal by its number and detail.
#[tactic(auto, unfolding(crate::specs::Refusal::refused))]
pub fn refuse(number: u8, detail: u32) -> Refusal
    ensures { result ≡ refused number detail }
{
    Refusal { number, detail }
}

// Refused where the test holds.
#[tactic(auto, using(crate::proofs::Decided::decided), unfolding(crate::specs::Refusal::refused_if))]
pub fn refused_if(test: bool, number: u8, detail: u32) -> Refusal
    ensures { result ≡ refused_if test number detail }
{
    if test {
        return refuse(number, detail);
    }
    no_refusal()
}
