// Letting a route go: the watched pair, the three steps, the ninety seconds (section 6).
#![tactic(auto)]

ghost use Rattle.std.specs.Prelude.{◌≡◌, ◌-◌, get_or};
ghost use Rattle.release.specs.Release.{watched_section, watched_block, exit_pair, path_pair, watched_pair, steps_after, to_vacate, end_reading, vacated, seconds_after, goes, locking_after, settled};

use laws::at8;
use tables::{Gives, Tables, all_free, block_given, block_reads, given_to, section_reads};
use track::codes::{CANCELLING, ENTRANCE_ROUTE, EXIT_ROUTE, FREE, IDLE, NONE, OCCUPIED};
use track::sizes::{LINES, SECTIONS};
use track::{Line, Route, line_at, nearest_block};

// What the state holds of a route: its phase, the steps done, the seconds counted.
#[derive(Clone, Copy)]
pub struct Locking {
    pub phase: u8,
    pub steps: u8,
    pub seconds: u8,
}

// One of the watched pair, a section or a block: what the event gave it, 0 for nothing, and what it reads after the event.
#[derive(Clone, Copy)]
pub struct Watched {
    pub given: u8,
    pub reads: u8,
}

// The watched pair of a route.
#[derive(Clone, Copy)]
pub struct WatchedPair {
    pub first: Watched,
    pub second: Watched,
}

// What a locked route has after an event: the phase that its signal fell to, or stayed in, and then its phase, steps and seconds.
#[derive(Clone, Copy)]
pub struct Settled {
    pub fallen: u8,
    pub phase: u8,
    pub steps: u8,
    pub seconds: u8,
}

// The k-th path section from the end, 1 the last; the first entry of a path that has fewer.
fn from_end(a: &Route, k: u8) -> u8
    ensures { result ≡ get_or a.now.path (a.now.paths - k) 0 }
{
    at8(&a.path, a.paths.saturating_sub(k))
}

// One of the watched pair that is a section.
#[tactic(auto, unfolding(crate::specs::Release::watched_section))]
fn watched_section(sections: &[u8; SECTIONS], e: Gives, g: u8) -> Watched
    ensures { result ≡ watched_section sections.now e g }
{
    Watched {
        given: given_to(e, g),
        reads: section_reads(sections, g),
    }
}

// One that is block i of a line.
#[tactic(auto, unfolding(crate::specs::Release::watched_block))]
fn watched_block(sections: &[u8; SECTIONS], e: Gives, b: Line, i: u8) -> Watched
    ensures { result ≡ watched_block sections.now e b i }
{
    Watched {
        given: block_given(e, b, i),
        reads: block_reads(sections, b, i),
    }
}

// The watched pair of an exit route.
#[tactic(auto, unfolding(crate::specs::Release::exit_pair))]
fn exit_pair<'a>(
    ls: &'a [Line; LINES],
    sections: &'a [u8; SECTIONS],
    a: &'a Route,
    e: Gives,
) -> WatchedPair
    ensures { result ≡ exit_pair ls.now sections.now a.now e }
{
    let b = line_at(ls, a.line);
    WatchedPair {
        first: watched_section(sections, e, from_end(a, 1)),
        second: watched_block(sections, e, b, nearest_block(b, a.end)),
    }
}

// The watched pair of any other route.
#[tactic(auto, unfolding(crate::specs::Release::path_pair))]
fn path_pair<'a>(sections: &'a [u8; SECTIONS], a: &'a Route, e: Gives) -> WatchedPair
    ensures { result ≡ path_pair sections.now a.now e }
{
    WatchedPair {
        first: watched_section(sections, e, from_end(a, 2)),
        second: watched_section(sections, e, from_end(a, 1)),
    }
}

// The watched pair of a route.
#[tactic(auto, using(laws::proofs::Choice::choices), unfolding(crate::specs::Release::watched_pair))]
fn watched_pair<'a>(
    ls: &'a [Line; LINES],
    sections: &'a [u8; SECTIONS],
    a: &'a Route,
    e: Gives,
) -> WatchedPair
    ensures { result ≡ watched_pair ls.now sections.now a.now e }
{
    if a.kind == EXIT_ROUTE {
        return exit_pair(ls, sections, a, e);
    }
    path_pair(sections, a, e)
}

// The steps done after an event, from those done before it.
fn steps_after(w: WatchedPair, steps: u8) -> u8
    ensures { result ≡ steps_after w steps }
{
    if steps == 3 {
        return 3;
    }
    if w.first.reads == NONE || w.second.reads == NONE {
        return 0;
    }
    if steps == 2 {
        if w.first.given == FREE {
            return 3;
        }
        return 2;
    }
    if steps == 1 && w.first.reads == FREE {
        return 0;
    }
    if steps == 1 {
        if w.second.given == OCCUPIED && w.first.reads == OCCUPIED {
            return 2;
        }
        return 1;
    }
    if w.first.given == OCCUPIED {
        return 1;
    }
    0
}

// How many path sections a train vacates.
#[tactic(auto, using(laws::proofs::Choice::choices), unfolding(crate::specs::Release::to_vacate))]
fn sections_to_vacate(a: &Route) -> u8
    ensures { result ≡ to_vacate a.now }
{
    if a.kind == EXIT_ROUTE {
        return a.paths;
    }
    a.paths.saturating_sub(1)
}

// What the block nearest a route's own end reads.
#[tactic(auto, unfolding(crate::specs::Release::end_reading))]
fn end_reads<'a>(ls: &'a [Line; LINES], sections: &'a [u8; SECTIONS], a: &'a Route) -> u8
    ensures { result ≡ end_reading ls.now sections.now a.now }
{
    let b = line_at(ls, a.line);
    block_reads(sections, b, nearest_block(b, a.end))
}

// The route is vacated.
fn is_vacated<'a>(ls: &'a [Line; LINES], sections: &'a [u8; SECTIONS], a: &'a Route) -> bool
    ensures { result ≡ vacated ls.now sections.now a.now }
{
    let n = sections_to_vacate(a);
    let end = end_reads(ls, sections, a);
    all_free(sections, n, &a.path) && (a.kind != ENTRANCE_ROUTE || end == FREE)
}

// The seconds counted after an event.
fn seconds_after(e: Gives, phase: u8, seconds: u8) -> u8
    ensures { result ≡ seconds_after e phase seconds }
{
    if phase == CANCELLING && e.tick == 1 && seconds < 89 {
        return seconds + 1;
    }
    seconds
}

// The route is released in this event, the steps done being now `steps`.
fn is_released<'a>(
    ls: &'a [Line; LINES],
    sections: &'a [u8; SECTIONS],
    a: &'a Route,
    e: Gives,
    h: Locking,
    steps: u8,
) -> bool
    ensures { result ≡ goes ls.now sections.now a.now e h steps }
{
    let waited = (h.phase == CANCELLING) & (e.tick == 1) & (89 <= h.seconds);
    waited || steps == 3 && is_vacated(ls, sections, a)
}

// What becomes of a locked route in an event.
#[tactic(auto, using(laws::proofs::Choice::choices), unfolding(crate::specs::Release::locking_after))]
pub fn locking_after<'a>(
    ls: &'a [Line; LINES],
    sections: &'a [u8; SECTIONS],
    a: &'a Route,
    e: Gives,
    h: Locking,
) -> Locking
    ensures { result ≡ locking_after ls.now sections.now a.now e h }
{
    let w = watched_pair(ls, sections, a, e);
    let steps = steps_after(w, h.steps);
    let seconds = seconds_after(e, h.phase, h.seconds);
    if is_released(ls, sections, a, e, h, steps) {
        return Locking {
            phase: IDLE,
            steps: 0,
            seconds: 0,
        };
    }
    Locking {
        phase: h.phase,
        steps,
        seconds,
    }
}

// What a locked route has after an event: its signal falls, and then the route is let go or goes on.
#[tactic(auto, unfolding(crate::specs::Release::settled, crate::specs::Release::settled_from))]
pub fn route_settled<'a>(
    ls: &'a [Line; LINES],
    t: Tables<'a>,
    a: &'a Route,
    e: Gives,
    h: Locking,
) -> Settled
    ensures { result ≡ settled ls.now t.entry.section.now t.entry.point.now t.entry.stage.now t.entry.bar.now a.now e h }
{
    let fallen = signals::falls_to(ls, t, a, h.phase);
    let was = Locking { phase: fallen, ..h };
    let x = locking_after(ls, t.section, a, e, was);
    Settled {
        fallen,
        phase: x.phase,
        steps: x.steps,
        seconds: x.seconds,
    }
}
