// The conflicts read from a place: they are given whole, or the fault met.
ghost use Rattle.fields.specs.declared.Cursor.{Cursor};
ghost use Rattle.fields.specs.Reading.{Stands};
ghost use Rattle.pairs.specs.Pairs.{a_pair, pairs};
ghost use Rattle.pairs.specs.Reading.{PairGiven, PairsRead};

use crate::{Pair, is_in_order, next_count, no_pairs, place_of};
use fields::next_reference;
use numbers::Fault;
use track::sizes::{MOST_TRAIN_ROUTES, PAIRS};

// The pairs: the last one, and 1 at both places of each.
#[derive(Clone, Copy)]
pub struct Pairs {
    pub last: Pair,
    pub conflict: [u8; PAIRS],
}

// One pair, after the last one; its second number is out of range where it is not.
fn read_pair(s: &[u8], at: &mut usize, routes: u8, last: Pair) -> Result<Pair, Fault>
    ensures { (c : Cursor) → Stands c at.old → PairGiven result at.new (a_pair s.now routes c last) }
{
    let first = next_reference(s, at, routes)?;
    let between = *at;
    let second = next_reference(s, at, routes)?;
    let pair = Pair { first, second };
    if is_in_order(last, pair) {
        return Ok(pair);
    }
    *at = between;
    Err(Fault::OutOfRange { at: between })
}

// Conflicts 0 to 1,128, of so many routes; no more than 48, the most that a layout has, may be named.
pub fn next_pairs(s: &[u8], at: &mut usize, routes: u8) -> Result<Pairs, Fault>
    ensures { (c : Cursor) → Stands c at.old → PairsRead result at.new (pairs s.now routes c) }
{
    let count = next_count(s, at)?;
    let few = u8::min(routes, MOST_TRAIN_ROUTES);
    let mut conflict = no_pairs();
    let mut last = Pair {
        first: 0,
        second: 0,
    };
    for i in 0..count {
        let pair = read_pair(s, at, few, last)?;
        let place = place_of(pair.first, pair.second);
        let mirror = place_of(pair.second, pair.first);
        conflict[place] = 1;
        conflict[mirror] = 1;
        last = pair;
    }
    Ok(Pairs { last, conflict })
}
