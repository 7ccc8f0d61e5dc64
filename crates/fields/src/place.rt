// Reading from a place: a reading gives what it read and moves on, or gives the fault met.
ghost use Rattle.fields.specs.declared.Cursor.{Cursor};
ghost use Rattle.fields.specs.Fields.{code, reference, none_or_reference};
ghost use Rattle.fields.specs.Lists.{items, points};
ghost use Rattle.fields.specs.Reading.{Stands, NumberRead, ItemsRead, PointsRead};

use crate::{next, put8};
use laws::wide;
use numbers::Fault;
use track::sizes::{LISTED, MOST_LISTED};

// A list of at most eight numbers of objects.
#[derive(Clone, Copy)]
pub struct Items {
    pub count: u8,
    pub item: [u8; LISTED],
}

// At most eight points with positions.
#[derive(Clone, Copy)]
pub struct Points {
    pub count: u8,
    pub point: [u8; LISTED],
    pub position: [u8; LISTED],
}

// The next number is a version, a count or a code, low to high.
pub fn next_code(s: &[u8], at: &mut usize, low: u8, high: u8) -> Result<u8, Fault>
    ensures { (c : Cursor) → Stands c at.old → NumberRead result at.new (code s.now c low high) }
{
    let outside = Fault::OutOfRange { at: *at };
    next(s, at, wide(low), wide(high) + 1, outside)
}

// The next number refers to one of so many objects.
pub fn next_reference(s: &[u8], at: &mut usize, objects: u8) -> Result<u8, Fault>
    ensures { (c : Cursor) → Stands c at.old → NumberRead result at.new (reference s.now c objects) }
{
    let outside = Fault::NoSuchObject { at: *at };
    next(s, at, 0, wide(objects), outside)
}

// The next number is 0 for none, or refers to one of so many objects, its number plus 1.
pub fn next_none_or_reference(s: &[u8], at: &mut usize, objects: u8) -> Result<u8, Fault>
    ensures { (c : Cursor) → Stands c at.old → NumberRead result at.new (none_or_reference s.now c objects) }
{
    let lacking = Fault::NoSuchObject { at: *at };
    next(s, at, 0, wide(objects) + 1, lacking)
}

// A count, low to high, and so many numbers of objects.
pub fn next_items(s: &[u8], at: &mut usize, low: u8, high: u8, objects: u8) -> Result<Items, Fault>
    ensures { (c : Cursor) → Stands c at.old → ItemsRead result at.new (items s.now c low high objects) }
{
    let count = next_code(s, at, low, high)?;
    let mut item = [0; LISTED];
    for i in 0..count {
        let number = next_reference(s, at, objects)?;
        put8(&mut item, i, number);
    }
    Ok(Items { count, item })
}

// Points 0 to 8, each with its position.
pub fn next_points(s: &[u8], at: &mut usize, objects: u8) -> Result<Points, Fault>
    ensures { (c : Cursor) → Stands c at.old → PointsRead result at.new (points s.now c objects) }
{
    let count = next_code(s, at, 0, MOST_LISTED)?;
    let mut point = [0; LISTED];
    let mut position = [0; LISTED];
    for i in 0..count {
        let number = next_reference(s, at, objects)?;
        let way = next_code(s, at, 1, 2)?;
        put8(&mut point, i, number);
        put8(&mut position, i, way);
    }
    Ok(Points {
        count,
        point,
        position,
    })
}
