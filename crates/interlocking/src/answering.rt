// The answer to an event: the event of its kind, and what follows every event (sections 4 to 6).
ghost use Rattle.std.specs.Prelude.{◌≡◌, true, ◌≤◌, replicate};
ghost use Rattle.track.specs.Sizes.{most_lines, most_train_routes};
ghost use Rattle.interlocking.specs.Parts.{bare, core_of, core_step};
ghost use Rattle.interlocking.specs.Settle.{settle};
ghost use Rattle.interlocking.specs.Walk.{IsWalk};

use super::event::event_tried;
use super::parts::heads_then;
use super::trial::{Lent, tables_of, tried_by};
use super::{Core, CoreAnswer};
use axles::Axles;
use layout::Layout;
use line_block::far_sections::far_stages;
use line_block::line_release::directions_after;
use line_block::passing_back::stages_after_arrivals;
use release::{Locking, route_settled};
use tables::{Gives, Tables};
use track::codes::IDLE;
use track::sizes::{LAMPS, ROUTES, TRAIN_ROUTES};

// What the walk over the routes makes: the signal at which each starts, the phases after the signals, and then phase, steps and seconds.
#[derive(Clone, Copy)]
pub struct Walked {
    pub entry: [u8; TRAIN_ROUTES],
    pub fallen: [u8; ROUTES],
    pub phase: [u8; ROUTES],
    pub steps: [u8; TRAIN_ROUTES],
    pub seconds: [u8; TRAIN_ROUTES],
}

// The walk over a layout's routes: signals fall and routes are let go in one turn, since far sections move no route.
fn walk_routes(l: &Layout, s: Core, lamps: &[u8; LAMPS], e: Gives) -> Walked
    requires { l.now.routes ≤ most_train_routes }
    ensures { IsWalk l.now (bare s) e (replicate most_train_routes 0) result }
{
    let t = tables_of(&s, lamps);
    let mut entry = [0; TRAIN_ROUTES];
    let mut fallen = s.phase;
    let mut phase = s.phase;
    let mut steps = s.steps;
    let mut seconds = s.seconds;
    for r in 0..l.routes {
        let k = r as usize;
        let a = &l.route[k];
        entry[k] = a.entry;
        if s.phase[k] == IDLE {
            continue;
        }
        let h = Locking {
            phase: s.phase[k],
            steps: s.steps[k],
            seconds: s.seconds[k],
        };
        let x = route_settled(&l.line, t, a, e, h);
        fallen[k] = x.fallen;
        phase[k] = x.phase;
        steps[k] = x.steps;
        seconds[k] = x.seconds;
    }
    Walked {
        entry,
        fallen,
        phase,
        steps,
        seconds,
    }
}

// What follows an event that made the state s of the one before: the walk over the routes, far sections, blocks that wait, where one does, for an
// entrance route that was released, and the line release.
fn followed(l: &Layout, before: Core, s: Core, lamps: &[u8; LAMPS], e: Gives) -> Core
    requires { (l.now.lines ≤ most_lines) × (l.now.routes ≤ most_train_routes) }
    ensures { result ≡ core_of (settle l.now (bare before) (bare s) e) }
{
    let w = walk_routes(l, s, lamps, e);
    let old = tables_of(&before, lamps);
    let now = Tables {
        phase: &w.fallen,
        ..tables_of(&s, lamps)
    };
    let far = far_stages(l, &w.entry, old, now);
    let then = Tables {
        phase: &w.phase,
        stage: &far,
        ..now
    };
    let stage = stages_after_arrivals(l, old, then);
    let last = Tables {
        stage: &stage,
        ..then
    };
    let direction = directions_after(l, old, last);
    Core {
        phase: w.phase,
        steps: w.steps,
        seconds: w.seconds,
        direction,
        stage,
        ..s
    }
}

// The answer to an event of a state, with the heads of the section that it names and what is lent to it.
pub fn answered(
    before: Core,
    heads: Axles,
    a: Lent,
    kind: u32,
    first: u32,
    second: u32,
) -> CoreAnswer
    requires { a.sound ≡ true → (a.layout.now.lines ≤ most_lines) × (a.layout.now.routes ≤ most_train_routes) }
    ensures { result ≡ core_step a.entry.sound a.entry.layout.now before heads a.entry.lamps.now kind first second }
{
    let then = heads_then(heads, kind, first, second);
    let t = tried_by(
        before,
        event_tried(before, heads, then, a, kind, first, second),
    );
    if t.number != 0 {
        return CoreAnswer {
            number: t.number,
            detail: t.detail,
            next: before,
            heads,
        };
    }
    let next = followed(a.layout, before, t.next, a.lamps, t.gives);
    CoreAnswer {
        number: 0,
        detail: 0,
        next,
        heads: then,
    }
}
