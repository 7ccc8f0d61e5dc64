// The conflicts of the layout file: pairs of routes, smaller first, strictly ascending, kept as a table of both ways (section 2), read with a cursor that keeps the
// first fault met: they are handed back as far as they were read. A reading from a place (`place`) gives them whole, or the fault met.
#![tactic(auto)]

pub mod place;

ghost use Rattle.std.specs.Prelude.{◌≡◌};
ghost use Rattle.fields.specs.declared.Cursor.{Cursor};
ghost use Rattle.fields.specs.Reading.{Stands};
ghost use Rattle.pairs.specs.Reading.{CountRead};
ghost use Rattle.pairs.specs.Pairs.{place_of, no_pairs, pair_count, in_order, ordered, a_pair, pairs};

use fields::{Cursor, read_reference};
use numbers::Fault;
pub use place::next_pairs;
use track::sizes::{MOST_CONFLICTS, MOST_TRAIN_ROUTES, PAIRS, ROUTES};

// How many pairs there are, up to 1,128.
#[derive(Clone, Copy)]
pub struct Count {
    pub cur: Cursor,
    pub pairs: u64,
}

// A pair of routes, by their numbers.
#[derive(Clone, Copy)]
pub struct Pair {
    pub first: u8,
    pub second: u8,
}

// A pair that was read.
#[derive(Clone, Copy)]
pub struct PairRead {
    pub cur: Cursor,
    pub pair: Pair,
}

// The pairs: the last one, and 1 at both places of each.
#[derive(Clone, Copy)]
pub struct Pairs {
    pub cur: Cursor,
    pub last: Pair,
    pub conflict: [u8; PAIRS],
}

// The place of the pair of routes i and j.
pub fn place_of(i: u8, j: u8) -> usize
    ensures { result ≡ place_of i j }
{
    ROUTES * (i as usize) + (j as usize)
}

// How many pairs there are, up to 1,128.
fn next_count(s: &[u8], at: &mut usize) -> Result<u64, Fault>
    ensures { (c : Cursor) → Stands c at.old → CountRead result at.new (pair_count s.now c) }
{
    let count = numbers::read(s, *at)?;
    if MOST_CONFLICTS < count.value {
        return Err(Fault::OutOfRange { at: *at });
    }
    *at = count.next;
    Ok(count.value)
}

// The number of pairs, unless a fault was met before.
fn pair_count(s: &[u8], c: Cursor) -> Count
    ensures { result ≡ pair_count s.now c }
{
    if c.fault != 0 {
        return Count {
            cur: Cursor { value: 0, ..c },
            pairs: 0,
        };
    }
    let mut at = c.at;
    match next_count(s, &mut at) {
        Ok(pairs) => Count {
            cur: Cursor {
                at,
                fault: 0,
                value: 0,
            },
            pairs,
        },
        Err(met) => Count {
            cur: Cursor {
                at: met.detail(),
                fault: met.number(),
                value: 0,
            },
            pairs: 0,
        },
    }
}

// The pair is smaller first, and comes after the last one.
fn is_in_order(last: Pair, p: Pair) -> bool
    ensures { result ≡ in_order last p }
{
    let after = (last.first < p.first) | ((last.first == p.first) & (last.second < p.second));
    (p.first < p.second) & after
}

// The second number b of a pair, whose first is a: 23 where the pair is out of order.
#[tactic(auto, using(laws::proofs::Choice::chains, laws::proofs::Choice::choices), unfolding(crate::specs::Pairs::ordered, crate::specs::Pairs::pair_of, fields::specs::Fields::failed))]
fn judged_second(last: Pair, a: Cursor, b: Cursor) -> Cursor
    ensures { result ≡ ordered last a b }
{
    if b.fault != 0 {
        return b;
    }
    let pair = Pair {
        first: a.value,
        second: b.value,
    };
    if is_in_order(last, pair) {
        return b;
    }
    Cursor {
        at: a.at,
        fault: 23,
        value: 0,
    }
}

// One pair, after the last one.
#[tactic(auto, unfolding(crate::specs::Pairs::a_pair, crate::specs::Pairs::pair_of))]
fn one_pair(s: &[u8], c: Cursor, routes: u8, last: Pair) -> PairRead
    ensures { result ≡ a_pair s.now routes c last }
{
    let first = read_reference(s, c, routes);
    let second = read_reference(s, first, routes);
    PairRead {
        cur: judged_second(last, first, second),
        pair: Pair {
            first: first.value,
            second: second.value,
        },
    }
}

// No pairs.
pub fn no_pairs() -> [u8; PAIRS]
    ensures { result ≡ no_pairs }
{
    [0; PAIRS]
}

// Conflicts 0 to 1,128, of so many routes; no more than 48, the most that a layout has, may be named.
#[tactic(auto, using(laws::proofs::Loops::iters, crate::proofs::Laws::few_is), unfolding(crate::specs::Pairs::pairs, crate::specs::Pairs::pairs_from, crate::specs::Pairs::pair_turn, crate::specs::Pairs::listed, crate::specs::Pairs::no_pair))]
pub fn read_pairs(s: &[u8], c: Cursor, routes: u8) -> Pairs
    ensures { result ≡ pairs s.now routes c }
{
    let count = pair_count(s, c);
    let few = u8::min(routes, MOST_TRAIN_ROUTES);
    let mut t = Pairs {
        cur: count.cur,
        last: Pair {
            first: 0,
            second: 0,
        },
        conflict: no_pairs(),
    };
    for i in 0..count.pairs {
        let one = one_pair(s, t.cur, few, t.last);
        t.cur = one.cur;
        t.last = one.pair;
        t.conflict[place_of(one.pair.first, one.pair.second)] = 1;
        t.conflict[place_of(one.pair.second, one.pair.first)] = 1;
    }
    t
}
