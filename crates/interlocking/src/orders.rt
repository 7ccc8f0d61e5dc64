// What an accepted event itself does to the state.
ghost use Rattle.std.specs.Prelude.{◌≡◌, ◌≤◌};
ghost use Rattle.laws.specs.Tables.{each};
ghost use Rattle.track.specs.Sizes.{most_lines, most_places};
ghost use Rattle.interlocking.specs.Parts.{core_of, headless, bare};
ghost use Rattle.interlocking.specs.Own.{own_section, own_point, throw_reading, own_throw, own_lock, secure_first, own_cancel, own_secure, open_at, own_manual, own_bar};

use super::Core;
use super::stores::store;
use super::trial::tables_of;
use layout::Layout;
use line_block::own_readings::own_stages;
use tables::{Gives, departs};
use track::codes::{AT_PROCEED, CANCELLING, NEUTRAL, NONE, OPEN};
use track::sizes::{
    BLOCKS, LAMPS, LINES, MOST_BLOCKS, PLACES, POINTS, ROUTES, SECTIONS, TRAIN_ROUTES,
};
use track::{Line, Route, direction_from};

// 1: section g reads v, and the block that it belongs to has its own reading.
pub fn read_section<'a>(s: Core, a: &'a Layout, lamps: &'a [u8; LAMPS], g: u8, v: u8) -> Core
    requires { a.now.lines ≤ most_lines }
    ensures { result ≡ core_of (own_section a.now.signals a.now.line a.now.lines (headless s lamps.now) g v) }
{
    let mut section = s.section;
    store(&mut section, SECTIONS, g as usize, v);
    let e = Gives {
        section: g,
        reading: v,
        tick: 0,
    };
    let stage = own_stages(a.lines, a.signals, &a.line, tables_of(&s, lamps), e);
    Core {
        section,
        stage,
        ..s
    }
}

// 2: point p reads v.
pub fn read_point(s: Core, p: u8, v: u8) -> Core
    ensures { result ≡ core_of (own_point (bare s) p v) }
{
    let mut point = s.point;
    store(&mut point, POINTS, p as usize, v);
    Core { point, ..s }
}

// 4: route r locks, and its signal shows proceed.
pub fn lock(s: Core, r: u8) -> Core
    ensures { result ≡ core_of (own_lock (bare s) r) }
{
    let mut phase = s.phase;
    let mut steps = s.steps;
    let mut seconds = s.seconds;
    store(&mut phase, ROUTES, r as usize, AT_PROCEED);
    store(&mut steps, TRAIN_ROUTES, r as usize, 0);
    store(&mut seconds, TRAIN_ROUTES, r as usize, 0);
    Core {
        phase,
        steps,
        seconds,
        ..s
    }
}

// 5: route r is cancelled, and its seconds begin.
pub fn cancel(s: Core, r: u8) -> Core
    ensures { result ≡ core_of (own_cancel (bare s) r) }
{
    let mut phase = s.phase;
    let mut seconds = s.seconds;
    store(&mut phase, ROUTES, r as usize, CANCELLING);
    store(&mut seconds, TRAIN_ROUTES, r as usize, 0);
    Core {
        phase,
        seconds,
        ..s
    }
}

// 6: line l is secured in direction w.
pub fn secure(s: Core, l: u8, w: u8) -> Core
    ensures { result ≡ core_of (own_secure (bare s) l w) }
{
    let mut direction = s.direction;
    store(&mut direction, LINES, l as usize, w);
    Core { direction, ..s }
}

// 4, before it locks: where a route is an exit route on a neutral line, the line is secured the route's way (request L5).
#[tactic(auto, using(reasons::proofs::Decided::decided), unfolding(crate::specs::Own::secure_first, crate::specs::Parts::core_of))]
pub fn secure_first(s: Core, a: Route) -> Core
    ensures { result ≡ core_of (secure_first (bare s) a) }
{
    if departs(&s.direction, a) {
        return secure(s, a.line, direction_from(a.end));
    }
    s
}

// The stage at place k after line l was released by hand.
#[tactic(auto, using(laws::proofs::Choice::chosen, laws::proofs::Choice::passed_over, crate::proofs::Trying::both_are), unfolding(crate::specs::Own::open_at))]
fn opened_at(ls: &[Line; LINES], l: u8, k: u8, was: u8) -> u8
    ensures { result ≡ open_at ls.now l k was }
{
    let b = track::line_at(ls, l);
    if (k / MOST_BLOCKS == l) & (k % MOST_BLOCKS < b.blocks) {
        return OPEN;
    }
    was
}

// The stages of the first m places after line l was released by hand.
fn opened_stages(stages: [u8; PLACES], m: u8, ls: &[Line; LINES], l: u8) -> [u8; PLACES]
    requires { m ≤ most_places }
    ensures { result ≡ each m (open_at ls.now l) stages }
{
    let mut stage = stages;
    for k in 0..m {
        let was = stage[k as usize];
        stage[k as usize] = opened_at(ls, l, k, was);
    }
    stage
}

// 7: line l is released by hand: every block open, the line neutral.
pub fn release_by_hand(s: Core, a: &Layout, l: u8) -> Core
    requires { a.now.lines ≤ most_lines }
    ensures { result ≡ core_of (own_manual a.now.line a.now.lines (bare s) l) }
{
    let mut direction = s.direction;
    store(&mut direction, LINES, l as usize, NEUTRAL);
    let stages = s.stage;
    let stage = opened_stages(stages, MOST_BLOCKS * a.lines, &a.line, l);
    Core {
        direction,
        stage,
        ..s
    }
}

// 8, 9: a bar is set, 1, or cleared, 0, on block i of line l.
pub fn set_bar(s: Core, l: u8, i: u32, on: u8) -> Core
    ensures { result ≡ core_of (own_bar (bare s) l i on) }
{
    let k = BLOCKS * (l as usize) + (i as usize);
    let mut bar = s.bar;
    store(&mut bar, PLACES, k, on);
    Core { bar, ..s }
}

// The reading of a point that is thrown to w: none, unless it already read that position.
#[tactic(auto, using(reasons::proofs::Decided::decided), unfolding(crate::specs::Own::throw_reading))]
fn thrown_reading(points: &[u8; POINTS], p: u8, w: u8) -> u8
    ensures { result ≡ throw_reading points.now p w }
{
    if tables::point_reads(points, p) == w {
        return w;
    }
    NONE
}

// 3: point p is thrown to w: the order is stored.
pub fn throw(s: Core, p: u8, w: u8) -> Core
    ensures { result ≡ core_of (own_throw (bare s) p w) }
{
    let x = thrown_reading(&s.point, p, w);
    let mut point = s.point;
    let mut order = s.order;
    store(&mut point, POINTS, p as usize, x);
    store(&mut order, POINTS, p as usize, w);
    Core { point, order, ..s }
}
