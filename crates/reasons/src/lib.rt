// What is refused, one reason at a time, over a layout and the tables of a state that are lent (section 3). The lowest number to which a
// reason applies is the detail.
#![tactic(auto)]

mod answers;
pub mod events;
mod refusal;
pub mod searches;

ghost use Rattle.std.specs.Prelude.{◌≡◌, not, eqb, ltb};
ghost use Rattle.laws.specs.Choice.{when◌then◌else◌};
ghost use Rattle.laws.specs.Tables.{read};
ghost use Rattle.track.specs.Sizes.{most_points, most_sections};
ghost use Rattle.track.specs.Codes.{cancelling, leaving, neutral, occupied};
ghost use Rattle.track.specs.Objects.{line, nearest};
ghost use Rattle.track.specs.Blocks.{block_detail, line_sections};
ghost use Rattle.sets.specs.Sets.{joined, merged_set, set_of};
ghost use Rattle.sets.specs.Lowest.{lowest_in};
ghost use Rattle.tables.specs.Readings.{reading};
ghost use Rattle.tables.specs.Blocks.{is_open, unbarred};
ghost use Rattle.tables.specs.Locks.{direction, phase, locked};
ghost use Rattle.reasons.specs.Refusal.{refused_if};
ghost use Rattle.reasons.specs.Told.{told};
ghost use Rattle.reasons.specs.Reasons.{not_free, not_placed, conflicting, by_route, by_line, exit_locked, block_barred, block_held, arrival_dark};

pub use answers::{Reason, reason_if};
use lamps::reports_none;
use layout::Layout;
use passage::arrival_end;
pub use refusal::{Refusal, no_refusal, refuse, refused_if};
use searches::section_of;
use tables::in_the_way::{unfree_blocks, unfree_of, with_unfree};
use tables::{direction_of, is_locked, is_open, is_unbarred, phase_of, section_reads};
use track::blocks::detail_section;
use track::codes::{CANCELLING, NEUTRAL, OCCUPIED};
use track::sizes::{LAMPS, LINES, LISTED, MOST_SECTIONS, PLACES, POINTS, ROUTES, SECTIONS};
use track::{Line, Route, direction_from, entrance_at, line_at, nearest_block};

// 7, 8, by the set of the sections asked for that do not read free (request L4): 7 where the lowest of them is occupied, 8 where it reads none.
#[tactic(auto, using(crate::proofs::Decided::decided), unfolding(crate::specs::Refusal::refused_if))]
fn not_free(sections: &[u8; SECTIONS], unfree: u64) -> Result<(), Reason>
    ensures { told result ≡ refused_if (ltb (lowest_in unfree) most_sections) (when eqb (reading sections.now (lowest_in unfree)) occupied then 7 else 8) (lowest_in unfree) }
{
    let g = sets::lowest_in(unfree);
    if MOST_SECTIONS <= g {
        return Ok(());
    }
    if section_reads(sections, g) == OCCUPIED {
        return Err(Reason::SectionOccupied(g));
    }
    Err(Reason::SectionReadsNone(g))
}

// 6: one of the first n points is not read in position.
fn not_placed<'a>(
    points: &'a [u8; POINTS],
    n: u8,
    ps: &'a [u8; LISTED],
    ws: &'a [u8; LISTED],
) -> Result<(), Reason>
    ensures { told result ≡ not_placed points.now n ps.now ws.now }
{
    match searches::lowest_misplaced(points, n, ps, ws) {
        Some(p) => Err(Reason::PointNotPlaced(p)),
        None => Ok(()),
    }
}

// 5: a route that conflicts with r is locked.
pub fn conflicting<'a>(plan: &'a Layout, phases: &'a [u8; ROUTES], r: u8) -> Result<(), Reason>
    ensures { told result ≡ conflicting plan.now phases.now r }
{
    match searches::lowest_conflicting(&plan.conflict, phases, plan.routes, r) {
        Some(q) => Err(Reason::RouteConflicts(q)),
        None => Ok(()),
    }
}

// 15: a locked route lists the point.
pub fn by_route<'a>(plan: &'a Layout, phases: &'a [u8; ROUTES], p: u8) -> Result<(), Reason>
    ensures { told result ≡ by_route plan.now phases.now p }
{
    match searches::lowest_route_locking(&plan.route, phases, plan.routes, p) {
        Some(r) => Err(Reason::PointInRoute(r)),
        None => Ok(()),
    }
}

// 16: a secured line lists the point.
pub fn by_line<'a>(plan: &'a Layout, directions: &'a [u8; LINES], p: u8) -> Result<(), Reason>
    ensures { told result ≡ by_line plan.now directions.now p }
{
    match searches::lowest_line_locking(&plan.line, directions, plan.lines, p) {
        Some(l) => Err(Reason::PointInLine(l)),
        None => Ok(()),
    }
}

// 17: an exit route of line l is locked.
pub fn exit_locked<'a>(plan: &'a Layout, phases: &'a [u8; ROUTES], l: u8) -> Result<(), Reason>
    ensures { told result ≡ exit_locked plan.now phases.now l }
{
    match searches::lowest_locked_exit(&plan.route, phases, plan.routes, l) {
        Some(r) => Err(Reason::ExitLocked(r)),
        None => Ok(()),
    }
}

// 11: a block of line l is barred.
pub fn block_barred<'a>(ls: &'a [Line; LINES], bars: &'a [u8; PLACES], l: u8) -> Result<(), Reason>
    ensures { told result ≡ block_barred ls.now bars.now l }
{
    match searches::lowest_taken(bars, line_at(ls, l), l) {
        Some(g) => Err(Reason::BlockBarred(g)),
        None => Ok(()),
    }
}

// 10: a block of line l is held.
pub fn block_held<'a>(ls: &'a [Line; LINES], stages: &'a [u8; PLACES], l: u8) -> Result<(), Reason>
    ensures { told result ≡ block_held ls.now stages.now l }
{
    match searches::lowest_taken(stages, line_at(ls, l), l) {
        Some(g) => Err(Reason::BlockHeld(g)),
        None => Ok(()),
    }
}

// 6: a point of line l is not read in position.
pub fn line_not_placed<'a>(
    ls: &'a [Line; LINES],
    points: &'a [u8; POINTS],
    l: u8,
) -> Result<(), Reason>
    ensures { told result ≡ not_placed points.now (line ls.now l).points (line ls.now l).point (line ls.now l).position }
{
    let b = line_at(ls, l);
    not_placed(points, b.points, &b.point, &b.position)
}

// 6: a point of a route is not read in position.
pub fn route_not_placed(points: &[u8; POINTS], a: Route) -> Result<(), Reason>
    ensures { told result ≡ not_placed points.now a.points a.point a.position }
{
    not_placed(points, a.points, &a.point, &a.position)
}

// 7, 8: a section of a route's path or overlap does not read free.
pub fn route_not_free(sections: &[u8; SECTIONS], a: Route) -> Result<(), Reason>
    ensures { told result ≡ not_free sections.now (merged_set (set_of a.paths a.path) (set_of a.overlaps a.overlap)) }
{
    let way = unfree_of(sections, a.paths, &a.path);
    let beyond = unfree_of(sections, a.overlaps, &a.overlap);
    not_free(sections, sets::merged(way, beyond))
}

// 7, 8: the section of point p does not read free.
pub fn point_not_free<'a>(
    own: &'a [u8; POINTS],
    sections: &'a [u8; SECTIONS],
    p: u8,
) -> Result<(), Reason>
    ensures { told result ≡ not_free sections.now (joined 0 (read most_points 0 own.now p)) }
{
    not_free(sections, with_unfree(sections, 0, section_of(own, p)))
}

// 7, 8: a section of a block of line l does not read free.
pub fn line_not_free<'a>(
    ls: &'a [Line; LINES],
    sections: &'a [u8; SECTIONS],
    l: u8,
) -> Result<(), Reason>
    ensures { told result ≡ not_free sections.now (line_sections (line ls.now l)) }
{
    not_free(sections, unfree_blocks(sections, line_at(ls, l)))
}

// 4: the route is already locked.
pub fn already_locked(phases: &[u8; ROUTES], r: u8) -> Result<(), Reason>
    ensures { told result ≡ refused_if (locked phases.now r) 4 r }
{
    reason_if(is_locked(phases, r), Reason::RouteLocked(r))
}

// 13: the route is not locked.
pub fn not_locked(phases: &[u8; ROUTES], r: u8) -> Result<(), Reason>
    ensures { told result ≡ refused_if (not (locked phases.now r)) 13 r }
{
    reason_if(!is_locked(phases, r), Reason::RouteNotLocked(r))
}

// 14: the route is cancelling already.
pub fn already_cancelling(phases: &[u8; ROUTES], r: u8) -> Result<(), Reason>
    ensures { told result ≡ refused_if (eqb (phase phases.now r) cancelling) 14 r }
{
    let phase = phase_of(phases, r);
    reason_if(phase == CANCELLING, Reason::RouteCancelling(r))
}

// 9: the line is not secured that way.
pub fn not_secured(directions: &[u8; LINES], l: u8, end: u8) -> Result<(), Reason>
    ensures { told result ≡ refused_if (not (eqb (direction directions.now l) (leaving end))) 9 l }
{
    let direction = direction_of(directions, l);
    reason_if(direction != direction_from(end), Reason::LineNotSecured(l))
}

// 12: the line is already secured; the detail is its direction.
pub fn already_secured(directions: &[u8; LINES], l: u8) -> Result<(), Reason>
    ensures { told result ≡ refused_if (not (eqb (direction directions.now l) neutral)) 12 (direction directions.now l) }
{
    let direction = direction_of(directions, l);
    reason_if(direction != NEUTRAL, Reason::LineSecured(direction))
}

// 11: the block that an exit route enters is barred.
pub fn entered_barred<'a>(
    ls: &'a [Line; LINES],
    bars: &'a [u8; PLACES],
    a: Route,
) -> Result<(), Reason>
    ensures { told result ≡ refused_if (not (unbarred bars.now a.line (nearest (line ls.now a.line) a.end))) 11 (block_detail (line ls.now a.line) (nearest (line ls.now a.line) a.end)) }
{
    let b = line_at(ls, a.line);
    let i = nearest_block(b, a.end);
    let free = is_unbarred(bars, a.line, i);
    reason_if(!free, Reason::BlockBarred(detail_section(b, i)))
}

// 10: the block that an exit route enters is held.
pub fn entered_held<'a>(
    ls: &'a [Line; LINES],
    stages: &'a [u8; PLACES],
    a: Route,
) -> Result<(), Reason>
    ensures { told result ≡ refused_if (not (is_open stages.now a.line (nearest (line ls.now a.line) a.end))) 10 (block_detail (line ls.now a.line) (nearest (line ls.now a.line) a.end)) }
{
    let b = line_at(ls, a.line);
    let i = nearest_block(b, a.end);
    let open = is_open(stages, a.line, i);
    reason_if(!open, Reason::BlockHeld(detail_section(b, i)))
}

// 31: the lamp of the entrance signal at the arrival end of line l in direction w reports none.
pub fn arrival_dark<'a>(
    ls: &'a [Line; LINES],
    lamps: &'a [u8; LAMPS],
    l: u8,
    w: u8,
) -> Result<(), Reason>
    ensures { told result ≡ arrival_dark (line ls.now l) lamps.now w }
{
    let x = entrance_at(line_at(ls, l), arrival_end(w));
    reason_if(reports_none(lamps, x), Reason::SignalDark(x))
}
