// Lists of at most eight numbers, as lines and routes have them.
ghost use Rattle.std.specs.Prelude.{◌≡◌};
ghost use Rattle.track.specs.Lists.{among, all_differ, between, referring, positions};

use super::codes::{LEFT, RIGHT};
use super::sizes::LISTED;
use laws::at8;

// One of the first n is g.
pub fn is_among(xs: &[u8; LISTED], n: u8, g: u8) -> bool
    ensures { result ≡ among n xs.now g }
{
    (0..n).any(|i| at8(xs, i) == g)
}

// The first n differ, each held against those before it.
fn all_new(xs: &[u8; LISTED], n: u8) -> bool
    ensures { result ≡ all_differ n xs.now }
{
    (0..n).all(|i| !is_among(xs, i, at8(xs, i)))
}

// The first n differ: none is in the set of those before it. A list with a number of 64 or more, which no set can hold, is searched.
pub fn all_differ(xs: &[u8; LISTED], n: u8) -> bool
    ensures { result ≡ all_differ n xs.now }
{
    let mut set: u64 = 0;
    for i in 0..n {
        let x = at8(xs, i);
        if 64 <= x {
            return all_new(xs, n);
        }
        if sets::has(set, x) {
            return false;
        }
        set = sets::with(set, x);
    }
    true
}

// The first n refer to objects that there are.
pub fn all_refer(xs: &[u8; LISTED], n: u8, objects: u8) -> bool
    ensures { result ≡ referring n objects xs.now }
{
    (0..n).all(|i| at8(xs, i) < objects)
}

// From low to high.
#[tactic(auto, using(laws::proofs::Both::both_asked, laws::proofs::Both::both_left), unfolding(crate::specs::Lists::between))]
pub fn is_between(low: u8, high: u8, x: u8) -> bool
    ensures { result ≡ between low high x }
{
    low <= x && x <= high
}

// The first n are positions.
pub fn all_positions(xs: &[u8; LISTED], n: u8) -> bool
    ensures { result ≡ positions n xs.now }
{
    (0..n).all(|i| is_between(LEFT, RIGHT, at8(xs, i)))
}
