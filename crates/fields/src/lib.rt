// Reading the layout file number by number, with a cursor that keeps the first fault met: after it each reading changes nothing, and a list is handed back as far
// as it was read. A reading from a place (`place`) gives what it read and moves on, or gives the fault met.
#![tactic(auto)]

pub mod place;

ghost use Rattle.std.specs.Prelude.{◌≡◌, ◌≤◌, set};
ghost use Rattle.numbers.specs.Given.{number_of, detail_of};
ghost use Rattle.fields.specs.Fields.{field, code, reference, none_or_reference};
ghost use Rattle.fields.specs.Lists.{items, points};
ghost use Rattle.fields.specs.Reading.{Stands, NumberRead};
ghost use Rattle.fields.specs.declared.Cursor.{Cursor};

use laws::wide;
use numbers::Fault;
pub use place::{next_code, next_items, next_none_or_reference, next_points, next_reference};
use track::sizes::{LISTED, MOST_LISTED};

// Where a reading stands. With fault 0, `at` is the next number's place and `value` the number read last.
// With a fault, `at` is the place that it is told of, and `value` is 0.
#[derive(Clone, Copy)]
pub struct Cursor {
    pub at: usize,
    pub fault: u8,
    pub value: u8,
}

// A list of at most eight numbers of objects, as far as they could be read.
#[derive(Clone, Copy)]
pub struct Items {
    pub cur: Cursor,
    pub count: u8,
    pub item: [u8; LISTED],
}

// At most eight points with positions, as far as they could be read.
#[derive(Clone, Copy)]
pub struct Points {
    pub cur: Cursor,
    pub count: u8,
    pub point: [u8; LISTED],
    pub position: [u8; LISTED],
}

// The next number at a place, from low to just below limit; outside that the fault given.
fn next(s: &[u8], at: &mut usize, low: u64, limit: u64, outside: Fault) -> Result<u8, Fault>
    requires { (limit ≤ 256) × (detail_of outside ≡ at.old) }
    ensures { (c : Cursor) → Stands c at.old → NumberRead result at.new (field s.now c low limit (number_of outside)) }
{
    let number = numbers::read(s, *at)?;
    if number.value < low {
        return Err(outside);
    }
    if number.value < limit {
        *at = number.next;
        return Ok(number.value as u8);
    }
    Err(outside)
}

// The next number, from low to just below limit, outside that the fault given; unless a fault was met before.
fn field(s: &[u8], c: Cursor, low: u64, limit: u64, outside: Fault) -> Cursor
    requires { (limit ≤ 256) × (detail_of outside ≡ c.at) }
    ensures { result ≡ field s.now c low limit (number_of outside) }
{
    if c.fault != 0 {
        return Cursor { value: 0, ..c };
    }
    let mut at = c.at;
    match next(s, &mut at, low, limit, outside) {
        Ok(value) => Cursor {
            at,
            fault: 0,
            value,
        },
        Err(met) => Cursor {
            at: met.detail(),
            fault: met.number(),
            value: 0,
        },
    }
}

// The next number is a version, a count or a code, low to high.
#[tactic(auto, unfolding(crate::specs::Fields::code))]
pub fn read_code(s: &[u8], c: Cursor, low: u8, high: u8) -> Cursor
    ensures { result ≡ code s.now c low high }
{
    let outside = Fault::OutOfRange { at: c.at };
    field(s, c, wide(low), wide(high) + 1, outside)
}

// The next number refers to one of so many objects.
#[tactic(auto, unfolding(crate::specs::Fields::reference))]
pub fn read_reference(s: &[u8], c: Cursor, objects: u8) -> Cursor
    ensures { result ≡ reference s.now c objects }
{
    let outside = Fault::NoSuchObject { at: c.at };
    field(s, c, 0, wide(objects), outside)
}

// The next number is 0 for none, or refers to one of so many objects, its number plus 1.
#[tactic(auto, unfolding(crate::specs::Fields::reference, crate::specs::Fields::none_or_reference))]
pub fn read_none_or_reference(s: &[u8], c: Cursor, objects: u8) -> Cursor
    ensures { result ≡ none_or_reference s.now c objects }
{
    let outside = Fault::NoSuchObject { at: c.at };
    field(s, c, 0, wide(objects) + 1, outside)
}

// x at i of a list; nothing where i lies past it.
fn put8(xs: &mut [u8; LISTED], i: u8, x: u8)
    ensures { xs.new ≡ set xs.old i x }
{
    if i < MOST_LISTED {
        xs[i as usize] = x;
    }
}

// A count, low to high, and so many numbers of objects.
#[tactic(auto, using(laws::proofs::Loops::iters), unfolding(crate::specs::Lists::items, crate::specs::Lists::item_turn))]
pub fn read_items(s: &[u8], c: Cursor, low: u8, high: u8, objects: u8) -> Items
    ensures { result ≡ items s.now c low high objects }
{
    let cur = read_code(s, c, low, high);
    let mut t = Items {
        cur,
        count: cur.value,
        item: [0; LISTED],
    };
    for i in 0..cur.value {
        t.cur = read_reference(s, t.cur, objects);
        put8(&mut t.item, i, t.cur.value);
    }
    t
}

// Points 0 to 8, each with its position.
#[tactic(auto, using(laws::proofs::Loops::iters), unfolding(crate::specs::Lists::points, crate::specs::Lists::point_turn))]
pub fn read_points(s: &[u8], c: Cursor, objects: u8) -> Points
    ensures { result ≡ points s.now c objects }
{
    let cur = read_code(s, c, 0, MOST_LISTED);
    let mut t = Points {
        cur,
        count: cur.value,
        point: [0; LISTED],
        position: [0; LISTED],
    };
    for i in 0..cur.value {
        let number = read_reference(s, t.cur, objects);
        t.cur = read_code(s, number, 1, 2);
        put8(&mut t.point, i, number.value);
        put8(&mut t.position, i, t.cur.value);
    }
    t
}
