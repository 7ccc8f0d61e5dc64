// What stands in the way of an order, as a set in one word: sections that do not read free, points that are not read in position, the sections of blocks
// that are held or barred (request L4). It is made in a walk over those that are asked for, and its lowest number is a refusal's detail.
ghost use Rattle.std.specs.Prelude.{◌≡◌};
ghost use Rattle.tables.specs.InTheWay.{with_unfree, unfree_of, unfree_blocks, is_misplaced, misplaced_of, taken_of};

use super::{is_open, point_reads, section_reads};
use laws::at8;
use track::Line;
use track::blocks::detail_section;
use track::codes::FREE;
use track::sizes::{LISTED, MOST_POINTS, PLACES, POINTS, SECTIONS};

// The set with section g in it where it does not read free.
#[tactic(auto, unfolding(crate::specs::InTheWay::with_unfree))]
pub fn with_unfree(sections: &[u8; SECTIONS], set: u64, g: u8) -> u64
    ensures { result ≡ with_unfree sections.now set g }
{
    sets::with_if(set, section_reads(sections, g) != FREE, g)
}

// Of the first n of these sections, those that do not read free.
pub fn unfree_of<'a>(sections: &'a [u8; SECTIONS], n: u8, xs: &'a [u8; LISTED]) -> u64
    ensures { result ≡ unfree_of sections.now n xs.now }
{
    (0..n).fold(0, |set, i| with_unfree(sections, set, at8(xs, i)))
}

// Of the sections of a line's blocks, those that do not read free.
#[tactic(auto, unfolding(crate::specs::InTheWay::unfree_blocks))]
pub fn unfree_blocks(sections: &[u8; SECTIONS], b: Line) -> u64
    ensures { result ≡ unfree_blocks sections.now b }
{
    unfree_of(sections, b.blocks, &b.block)
}

// p is a point's number, and the point is not read in position w. Whoever asks for the lowest point passes over what is none; that it is left out here
// spares code.
#[tactic(auto, using(laws::proofs::Both::both_asked, laws::proofs::Both::both_left), unfolding(crate::specs::InTheWay::is_misplaced))]
fn is_misplaced(points: &[u8; POINTS], p: u8, w: u8) -> bool
    ensures { result ≡ is_misplaced points.now p w }
{
    p < MOST_POINTS && point_reads(points, p) != w
}

// Of the first n of these points, those that are not read in position.
pub fn misplaced_of<'a>(
    points: &'a [u8; POINTS],
    n: u8,
    ps: &'a [u8; LISTED],
    ws: &'a [u8; LISTED],
) -> u64
    ensures { result ≡ misplaced_of points.now n ps.now ws.now }
{
    (0..n).fold(0, |set, j| {
        let p = at8(ps, j);
        sets::with_if(set, is_misplaced(points, p, at8(ws, j)), p)
    })
}

// Of the sections that stand for the blocks of line l, of which the record is b, those whose block the table has held or barred. By a branch and not by
// `with_if`, before which the section would be looked up in any case: the library is 490 bytes smaller so.
pub fn taken_of(table: &[u8; PLACES], b: Line, l: u8) -> u64
    ensures { result ≡ taken_of table.now b l }
{
    (0..b.blocks).fold(0, |set, i| {
        if is_open(table, l, i) {
            set
        } else {
            sets::with(set, detail_section(b, i))
        }
    })
}
