// The searches: the lowest number to which a reason applies, none where it applies to none.
ghost use Rattle.std.specs.Prelude.{◌≡◌, not, eqb};
ghost use Rattle.laws.specs.Tests.{◌and◌};
ghost use Rattle.laws.specs.Tables.{read};
ghost use Rattle.track.specs.Sizes.{most_sections, most_points, most_pairs};
ghost use Rattle.pairs.specs.Pairs.{place_of};
ghost use Rattle.tables.specs.Blocks.{untaken};
ghost use Rattle.track.specs.Codes.{neutral};
ghost use Rattle.track.specs.Lists.{among};
ghost use Rattle.tables.specs.Locks.{direction, locked, locked_exit};
ghost use Rattle.reasons.specs.Searches.{misplaced, conflicts_with, route_locks, line_locks, failing, lowest_found};

use pairs::place_of;
use tables::in_the_way::{misplaced_of, taken_of};
use tables::{direction_of, is_locked, is_locked_exit};
use track::codes::NEUTRAL;
use track::sizes::{
    LINES, LISTED, MOST_LINES, MOST_POINTS, MOST_SECTIONS, MOST_TRAIN_ROUTES, PAIRS, PLACES,
    POINTS, ROUTES, TRAIN_ROUTES,
};
use track::{Line, Route, is_among};

// The section that point p stands in.
#[tactic(auto, using(crate::proofs::Decided::decided))]
pub fn section_of(own: &[u8; POINTS], p: u8) -> u8
    ensures { result ≡ read most_points 0 own.now p }
{
    if p < MOST_POINTS {
        return own[p as usize];
    }
    0
}

// The lowest of the first n points that is not read in its position, by the set of all of these (request L4).
pub fn lowest_misplaced<'a>(
    points: &'a [u8; POINTS],
    n: u8,
    ps: &'a [u8; LISTED],
    ws: &'a [u8; LISTED],
) -> Option<u8>
    ensures { result ≡ lowest_found most_points (misplaced points.now n ps.now ws.now) }
{
    let p = sets::lowest_in(misplaced_of(points, n, ps, ws));
    (p < MOST_POINTS).then_some(p)
}

// The entry of the table of conflicts for the routes r and q, 0 past its end.
#[tactic(auto, using(crate::proofs::Decided::decided))]
fn entry_at(conflict: &[u8; PAIRS], r: u8, q: u8) -> u8
    ensures { result ≡ read most_pairs 0 conflict.now (place_of r q) }
{
    let place = place_of(r, q);
    if place < PAIRS {
        return conflict[place];
    }
    0
}

// Route q is locked and conflicts with r.
#[tactic(auto, using(crate::proofs::Decided::decided), unfolding(crate::specs::Searches::conflicts_with))]
fn conflicts_with<'a>(conflict: &'a [u8; PAIRS], phases: &'a [u8; ROUTES], r: u8, q: u8) -> bool
    ensures { result ≡ conflicts_with conflict.now phases.now r q }
{
    is_locked(phases, q) && entry_at(conflict, r, q) == 1
}

// The lowest of n routes that is locked and conflicts with r.
pub fn lowest_conflicting<'a>(
    conflict: &'a [u8; PAIRS],
    phases: &'a [u8; ROUTES],
    n: u8,
    r: u8,
) -> Option<u8>
    ensures { result ≡ lowest_found n (conflicts_with conflict.now phases.now r) }
{
    for q in 0..n {
        if conflicts_with(conflict, phases, r, q) {
            return Some(q);
        }
    }
    None
}

// Route r, of which the record is a, is locked and lists point p.
#[tactic(auto, using(crate::proofs::Decided::decided))]
fn route_locks<'a>(a: &'a Route, phases: &'a [u8; ROUTES], p: u8, r: u8) -> bool
    ensures { result ≡ locked phases.now r and among a.now.points a.now.point p }
{
    is_locked(phases, r) && is_among(&a.point, a.points, p)
}

// The lowest of n routes that is locked and lists point p.
pub fn lowest_route_locking<'a>(
    rs: &'a [Route; TRAIN_ROUTES],
    phases: &'a [u8; ROUTES],
    n: u8,
    p: u8,
) -> Option<u8>
    ensures { result ≡ lowest_found n (route_locks rs.now phases.now p) }
{
    for r in 0..n {
        if r < MOST_TRAIN_ROUTES && route_locks(&rs[r as usize], phases, p, r) {
            return Some(r);
        }
    }
    None
}

// Line l, of which the record is b, is secured and lists point p.
#[tactic(auto, using(crate::proofs::Decided::decided))]
fn line_locks<'a>(b: &'a Line, directions: &'a [u8; LINES], p: u8, l: u8) -> bool
    ensures { result ≡ not (eqb (direction directions.now l) neutral) and among b.now.points b.now.point p }
{
    direction_of(directions, l) != NEUTRAL && is_among(&b.point, b.points, p)
}

// The lowest of n lines that is secured and lists point p.
pub fn lowest_line_locking<'a>(
    ls: &'a [Line; LINES],
    directions: &'a [u8; LINES],
    n: u8,
    p: u8,
) -> Option<u8>
    ensures { result ≡ lowest_found n (line_locks ls.now directions.now p) }
{
    for l in 0..n {
        if l < MOST_LINES && line_locks(&ls[l as usize], directions, p, l) {
            return Some(l);
        }
    }
    None
}

// The lowest of n routes that is a locked exit route of line l.
pub fn lowest_locked_exit<'a>(
    rs: &'a [Route; TRAIN_ROUTES],
    phases: &'a [u8; ROUTES],
    n: u8,
    l: u8,
) -> Option<u8>
    ensures { result ≡ lowest_found n (locked_exit rs.now phases.now l) }
{
    for r in 0..n {
        if r < MOST_TRAIN_ROUTES && is_locked_exit(phases, rs[r as usize], l, r) {
            return Some(r);
        }
    }
    None
}

// The lowest of the sections that stand for the blocks of line l that the table has held or barred, by the set of all of these (request L4).
pub fn lowest_taken(table: &[u8; PLACES], b: Line, l: u8) -> Option<u8>
    ensures { result ≡ lowest_found most_sections (failing (untaken table.now l) b) }
{
    let g = sets::lowest_in(taken_of(table, b, l));
    (g < MOST_SECTIONS).then_some(g)
}
