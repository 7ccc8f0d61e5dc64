// Numbers of the layout file (section 2): groups of seven bits, lowest group first, top bit set on every byte but a number's last.
#![tactic(auto)]

ghost use Rattle.std.specs.Prelude.{◌≡◌, ℕ, ◌≤◌};
ghost use Rattle.numbers.specs.Number.{groups_at, number_at, number_told};
ghost use Rattle.numbers.specs.Given.{number_of, detail_of, given};

use laws::wide;

// The most bytes that a number may take.
const BYTES: usize = 3;

// The largest number.
const LARGEST: u64 = 65535;

// A number that was read, and the place after it.
#[derive(Clone, Copy)]
pub struct Given {
    pub value: u64,
    pub next: usize,
}

// What a file is refused for (section 2), each with the place that it is told of; a broken rule with the rule's number.
#[derive(Clone, Copy)]
pub enum Fault {
    // The file ends early.
    EndsEarly { at: usize },
    // A number is badly formed or too large.
    BadlyFormed { at: usize },
    // A version, count or code is out of its range, or a pair of routes out of order.
    OutOfRange { at: usize },
    // There is no such object.
    NoSuchObject { at: usize },
    // A rule of section 2 is broken.
    RuleBroken { rule: u8 },
    // Bytes are left over at the end.
    LeftOver { at: usize },
}

impl Fault {
    // The fault's number in section 2.
    pub fn number(self) -> u8
        ensures { result ≡ number_of self }
    {
        match self {
            Fault::EndsEarly { at: _ } => 21,
            Fault::BadlyFormed { at: _ } => 22,
            Fault::OutOfRange { at: _ } => 23,
            Fault::NoSuchObject { at: _ } => 24,
            Fault::RuleBroken { rule: _ } => 25,
            Fault::LeftOver { at: _ } => 26,
        }
    }

    // The place that it is told of, or the broken rule's number.
    pub fn detail(self) -> usize
        ensures { result ≡ detail_of self }
    {
        match self {
            Fault::EndsEarly { at } => at,
            Fault::BadlyFormed { at } => at,
            Fault::OutOfRange { at } => at,
            Fault::NoSuchObject { at } => at,
            Fault::RuleBroken { rule } => rule as usize,
            Fault::LeftOver { at } => at,
        }
    }
}

// The number from a place on, in at most `left` bytes; `first` is its first place. A last group of 0 would not be the shortest form.
fn groups(s: &[u8], first: usize, at: usize, left: usize) -> Result<Given, Fault>
    requires { left ≤ 8 }
    ensures { given result ≡ groups_at left s.now first at }
{
    if left == 0 {
        return Err(Fault::BadlyFormed { at: first });
    }
    if s.len() <= at {
        return Err(Fault::EndsEarly { at: first });
    }
    let byte = s[at];
    if byte < 128 {
        return Ok(Given {
            value: wide(byte),
            next: at + 1,
        });
    }
    let rest = groups(s, first, at + 1, left - 1)?;
    if rest.value == 0 {
        return Err(Fault::BadlyFormed { at: first });
    }
    Ok(Given {
        value: wide(byte - 128) + 128 * rest.value,
        next: rest.next,
    })
}

// What stands at a place, however many bytes it takes. A number that is too large is badly formed too.
fn read_groups(s: &[u8], at: usize) -> Result<Given, Fault>
    ensures { given result ≡ number_at s.now at }
{
    let number = groups(s, at, at, BYTES)?;
    if LARGEST < number.value {
        return Err(Fault::BadlyFormed { at });
    }
    Ok(number)
}

// What stands at a place: a number, or fault 21 or 22 at its first place. Nearly every number is one byte, which is answered at once.
#[tactic(auto, using(crate::proofs::Cases::told_short))]
pub fn read(s: &[u8], at: usize) -> Result<Given, Fault>
    ensures { number_told (given result) ≡ number_told (number_at s.now at) }
{
    if at < s.len() {
        let byte = s[at];
        if byte < 128 {
            return Ok(Given {
                value: wide(byte),
                next: at + 1,
            });
        }
    }
    read_groups(s, at)
}
