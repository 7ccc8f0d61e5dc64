// The distants of the layout file (request L2).
ghost use Rattle.std.specs.Prelude.{◌≡◌};
ghost use Rattle.file_objects.specs.Distants.{most_distants_of, no_distants, distants};

use fields::{Cursor, read_code, read_none_or_reference, read_reference};
use track::sizes::{DISTANTS, MOST_DISTANTS};

// The first version that lists distants.
pub const DISTANTS_VERSION: u8 = 2;

// The distants: of each its carrier, 0 if free-standing or the carrying signal plus 1, and the signal that it announces.
#[derive(Clone, Copy)]
pub struct Distants {
    pub cur: Cursor,
    pub count: u8,
    pub carrier: [u8; DISTANTS],
    pub announced: [u8; DISTANTS],
}

// The most distants of a version: version 1 has none.
#[tactic(auto, using(laws::proofs::Choice::choices), unfolding(crate::specs::Distants::most_distants_of))]
pub fn most_distants_of(version: u8) -> u8
    ensures { result ≡ most_distants_of version }
{
    if version < DISTANTS_VERSION {
        return 0;
    }
    MOST_DISTANTS
}

// No distants.
pub fn no_distants() -> [u8; DISTANTS]
    ensures { result ≡ no_distants }
{
    [0; DISTANTS]
}

// Distants 0 to 32, of so many signals; a file of version 1 has none.
#[tactic(auto, using(laws::proofs::Loops::iters, laws::proofs::Choice::choices), unfolding(crate::specs::Distants::distants, crate::specs::Distants::without_distants, crate::specs::Distants::distants_from, crate::specs::Distants::distant_turn))]
pub fn read_distants(s: &[u8], version: u8, signals: u8, c: Cursor) -> Distants
    ensures { result ≡ distants s.now version signals c }
{
    let mut t = Distants {
        cur: c,
        count: 0,
        carrier: no_distants(),
        announced: no_distants(),
    };
    if version < DISTANTS_VERSION {
        return t;
    }
    t.cur = read_code(s, c, 0, MOST_DISTANTS);
    t.count = t.cur.value;
    for i in 0..t.count {
        let carrying = read_none_or_reference(s, t.cur, signals);
        t.cur = read_reference(s, carrying, signals);
        t.carrier[i as usize] = carrying.value;
        t.announced[i as usize] = t.cur.value;
    }
    t
}
