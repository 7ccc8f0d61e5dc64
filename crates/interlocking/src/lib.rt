// The state of the box and what an event makes of it (sections 1, 3 to 6).
#![tactic(auto)]

mod answering;
mod event;
mod heads;
mod orders;
pub mod parts;
mod range;
mod stores;
mod trial;

ghost use Rattle.std.specs.Prelude.{◌≡◌, true, ◌≤◌};
ghost use Rattle.laws.specs.Tests.{◌and◌};
ghost use Rattle.track.specs.Codes.{axles_in, axles_out, head_silent, reset_axles};
ghost use Rattle.track.specs.Sizes.{most_sections, most_lines, most_train_routes};
ghost use Rattle.layout.specs.Sound.{sound};
ghost use Rattle.interlocking.specs.State.{cold, in_range};
ghost use Rattle.interlocking.specs.Rows.{section_row, point_row, throw_row, set_row, cancel_row, secure_row, manual_row, bar_row, second_row, count_row, silent_row, reset_row, lamp_row};
ghost use Rattle.interlocking.specs.Own.{heads_of, heads_by};
ghost use Rattle.interlocking.specs.Step.{answered_by, step_where, step};

use answering::answered;
use axles::{Axles, cold_heads};
use layout::Layout;
use parts::{core_of, head_place, lamps_then, whole};
use tables::Gives;
use track::codes::{
    AXLES_IN, AXLES_OUT, BAR, CANCEL_ROUTE, HEAD_SILENT, IDLE, LAMP_NONE, NEUTRAL, NONE,
    READ_POINT, READ_SECTION, RELEASE_LINE, REPORT_LAMP, RESET_AXLES, SECOND, SECURE_LINE,
    SET_ROUTE, STAGE_0, THROW, UNBAR,
};
use track::sizes::{LAMPS, LINES, PLACES, POINTS, ROUTES, SECTIONS, TRAIN_ROUTES};
use trial::Lent;

// A code for each section, point, route, line and block, as `track::codes` has them: what sections and points read, the order of a point (0 none,
// 1, 2), the phase, the steps done and the seconds counted of a route, the direction of a line, the stage and the bar of a block, at 8 * line + block.
// These nine tables are a state but for its heads and its lamps.
#[derive(Clone, Copy)]
pub struct Core {
    pub section: [u8; SECTIONS],
    pub point: [u8; POINTS],
    pub order: [u8; POINTS],
    pub phase: [u8; ROUTES],
    pub steps: [u8; TRAIN_ROUTES],
    pub seconds: [u8; TRAIN_ROUTES],
    pub direction: [u8; LINES],
    pub stage: [u8; PLACES],
    pub bar: [u8; PLACES],
}

// A state: the nine tables, the heads of each section (request L1), and what the lamp of each signal reports, at the signal's number (request L3).
#[repr(C)]
#[derive(Clone, Copy)]
pub struct State {
    pub section: [u8; SECTIONS],
    pub point: [u8; POINTS],
    pub order: [u8; POINTS],
    pub phase: [u8; ROUTES],
    pub steps: [u8; TRAIN_ROUTES],
    pub seconds: [u8; TRAIN_ROUTES],
    pub direction: [u8; LINES],
    pub stage: [u8; PLACES],
    pub bar: [u8; PLACES],
    pub axles: [Axles; SECTIONS],
    pub lamp: [u8; LAMPS],
}

// The answer to an event: 0 and 0 with the next state, or a refusal's number and detail with the state as it was. The number stays beside the state: so
// the C interface has it, and `answered_by` and the theorems of `step_facts`, `safety` and `way_out` speak of these fields.
#[derive(Clone, Copy)]
pub struct Answer {
    pub number: u8,
    pub detail: u32,
    pub next: State,
}

// The same of the nine tables and of the heads of the section that the event names, for the same reason (`core_step`, `together`).
#[derive(Clone, Copy)]
pub struct CoreAnswer {
    pub number: u8,
    pub detail: u32,
    pub next: Core,
    pub heads: Axles,
}

// An event tried, before signals, far sections, routes and lines follow: 0 and 0 with the tables that it makes itself and what it gives, or a
// refusal's number and detail with the tables as they were. It is made of what the event answered (`trial::tried_by`), since `tried` and `followed` speak
// of its fields.
#[derive(Clone, Copy)]
pub struct Tried {
    pub next: Core,
    pub gives: Gives,
    pub number: u8,
    pub detail: u32,
}

#[tactic(auto, using(crate::proofs::ByKind::kinds))]
impl State {
    // The cold start: everything reads none, no order, no route, no line secured, every block held in stage 0, no bar,
    // every head silent, every lamp at none.
    #[tactic(auto, unfolding(crate::specs::State::cold))]
    pub fn cold() -> State
        ensures { result ≡ cold }
    {
        let heads = cold_heads();
        State {
            section: [NONE; SECTIONS],
            point: [NONE; POINTS],
            order: [0; POINTS],
            phase: [IDLE; ROUTES],
            steps: [0; TRAIN_ROUTES],
            seconds: [0; TRAIN_ROUTES],
            direction: [NEUTRAL; LINES],
            stage: [STAGE_0; PLACES],
            bar: [0; PLACES],
            axles: [heads; SECTIONS],
            lamp: [LAMP_NONE; LAMPS],
        }
    }

    // No code is outside its range.
    pub fn in_range(&self) -> bool
        ensures { result ≡ in_range self.now }
    {
        range::in_range(self)
    }

    // Layout and state are sound: what 18 asks.
    #[tactic(auto, using(laws::proofs::Both::both_asked, laws::proofs::Both::both_left))]
    fn is_sound(&self, layout: &Layout) -> bool
        ensures { result ≡ (sound layout.now and in_range self.now) }
    {
        layout.sound() && self.in_range()
    }

    // The answer to an event, where soundness was asked: the step of its parts, put together.
    fn answer(&self, layout: &Layout, asked: bool, kind: u32, first: u32, second: u32) -> Answer
        requires { asked ≡ true → (layout.now.lines ≤ most_lines) × (layout.now.routes ≤ most_train_routes) × (layout.now.sections ≤ most_sections) }
        ensures { result ≡ step_where asked layout.now self.now kind first second }
    {
        let place = head_place(kind, first);
        let mut axles = self.axles;
        let mut lamp = self.lamp;
        let heads = axles[place];
        let lent = Lent {
            layout,
            lamps: &lamp,
            sound: asked,
        };
        let r = answered(core_of(self), heads, lent, kind, first, second);
        let then = r.heads;
        let core = r.next;
        axles[place] = then;
        lamps_then(&mut lamp, r.number, kind, first, second);
        let next = whole(core, axles, lamp);
        Answer {
            number: r.number,
            detail: r.detail,
            next,
        }
    }

    // One step: any kind of event with its two numbers.
    pub fn step(&self, layout: &Layout, kind: u32, first: u32, second: u32) -> Answer
        ensures { result ≡ step layout.now self.now kind first second }
    {
        let asked = self.is_sound(layout);
        self.answer(layout, asked, kind, first, second)
    }

    // 1: a section reading.
    pub fn read_section(&self, layout: &Layout, section: u32, code: u32) -> Answer
        ensures { result ≡ answered_by (sound layout.now and in_range self.now) layout.now self.now section (section_row layout.now self.now section code) }
    {
        self.step(layout, READ_SECTION, section, code)
    }

    // 2: a point reading.
    pub fn read_point(&self, layout: &Layout, point: u32, code: u32) -> Answer
        ensures { result ≡ answered_by (sound layout.now and in_range self.now) layout.now self.now point (point_row layout.now self.now point code) }
    {
        self.step(layout, READ_POINT, point, code)
    }

    // 3: throw a point, to 1 left or 2 right.
    pub fn throw_point(&self, layout: &Layout, point: u32, position: u32) -> Answer
        ensures { result ≡ answered_by (sound layout.now and in_range self.now) layout.now self.now point (throw_row layout.now self.now point position) }
    {
        self.step(layout, THROW, point, position)
    }

    // 4: set a route; an exit route on a neutral line secures it first (request L5).
    pub fn set_route(&self, layout: &Layout, route: u32) -> Answer
        ensures { result ≡ answered_by (sound layout.now and in_range self.now) layout.now self.now route (set_row layout.now self.now route 0) }
    {
        self.step(layout, SET_ROUTE, route, 0)
    }

    // 5: cancel a route.
    pub fn cancel_route(&self, layout: &Layout, route: u32) -> Answer
        ensures { result ≡ answered_by (sound layout.now and in_range self.now) layout.now self.now route (cancel_row layout.now self.now route 0) }
    {
        self.step(layout, CANCEL_ROUTE, route, 0)
    }

    // 6: secure a line, 1 from A to B or 2 from B to A.
    pub fn secure_line(&self, layout: &Layout, line: u32, direction: u32) -> Answer
        ensures { result ≡ answered_by (sound layout.now and in_range self.now) layout.now self.now line (secure_row layout.now self.now line direction) }
    {
        self.step(layout, SECURE_LINE, line, direction)
    }

    // 7: release a line by hand, on ground 1 not left, 2 in siding, 3 returned.
    pub fn release_line(&self, layout: &Layout, line: u32, ground: u32) -> Answer
        ensures { result ≡ answered_by (sound layout.now and in_range self.now) layout.now self.now line (manual_row layout.now self.now line ground) }
    {
        self.step(layout, RELEASE_LINE, line, ground)
    }

    // 8: bar a block, counted from 0.
    pub fn bar_block(&self, layout: &Layout, line: u32, block: u32) -> Answer
        ensures { result ≡ answered_by (sound layout.now and in_range self.now) layout.now self.now line (bar_row 1 layout.now self.now line block) }
    {
        self.step(layout, BAR, line, block)
    }

    // 9: unbar a block.
    pub fn unbar_block(&self, layout: &Layout, line: u32, block: u32) -> Answer
        ensures { result ≡ answered_by (sound layout.now and in_range self.now) layout.now self.now line (bar_row 0 layout.now self.now line block) }
    {
        self.step(layout, UNBAR, line, block)
    }

    // 10: one second has passed.
    pub fn second_passed(&self, layout: &Layout) -> Answer
        ensures { result ≡ answered_by (sound layout.now and in_range self.now) layout.now self.now 0 (second_row self.now 0 0) }
    {
        self.step(layout, SECOND, 0, 0)
    }

    // 11: a head, twice the section plus 0 or 1, has counted so many axles in.
    pub fn axles_in(&self, layout: &Layout, head: u32, count: u32) -> Answer
        ensures { result ≡ answered_by (sound layout.now and in_range self.now) layout.now self.now head (count_row layout.now self.now (heads_by (heads_of self.now axles_in head) axles_in head count) head count) }
    {
        self.step(layout, AXLES_IN, head, count)
    }

    // 12: so many axles out.
    pub fn axles_out(&self, layout: &Layout, head: u32, count: u32) -> Answer
        ensures { result ≡ answered_by (sound layout.now and in_range self.now) layout.now self.now head (count_row layout.now self.now (heads_by (heads_of self.now axles_out head) axles_out head count) head count) }
    {
        self.step(layout, AXLES_OUT, head, count)
    }

    // 13: a head is silent.
    pub fn head_silent(&self, layout: &Layout, head: u32) -> Answer
        ensures { result ≡ answered_by (sound layout.now and in_range self.now) layout.now self.now head (silent_row layout.now self.now (heads_by (heads_of self.now head_silent head) head_silent head 0) head 0) }
    {
        self.step(layout, HEAD_SILENT, head, 0)
    }

    // 14: a section's heads are reset.
    pub fn reset_axles(&self, layout: &Layout, section: u32) -> Answer
        ensures { result ≡ answered_by (sound layout.now and in_range self.now) layout.now self.now section (reset_row layout.now self.now (heads_of self.now reset_axles section) (heads_by (heads_of self.now reset_axles section) reset_axles section 0) section 0) }
    {
        self.step(layout, RESET_AXLES, section, 0)
    }

    // 15: the lamp of a main or block signal, by its number, reports 1 stop or 2 another light.
    pub fn report_lamp(&self, layout: &Layout, signal: u32, code: u32) -> Answer
        ensures { result ≡ answered_by (sound layout.now and in_range self.now) layout.now self.now signal (lamp_row layout.now self.now signal code) }
    {
        self.step(layout, REPORT_LAMP, signal, code)
    }
}
