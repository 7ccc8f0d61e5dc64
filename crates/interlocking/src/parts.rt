// A state in parts: the nine tables, of the heads those of the section that an event names (request L1), and the lamps, which are lent (request L3). So a
// step copies no table of heads and none of lamps.
ghost use Rattle.std.specs.Prelude.{◌≡◌};
ghost use Rattle.interlocking.specs.Own.{head_section};
ghost use Rattle.interlocking.specs.Parts.{core_of, whole, is_of_heads, heads_then, head_place, lamps_then, core_step_in_run};

use super::answering::answered;
use super::stores::store;
use super::trial::Lent;
use super::{Core, CoreAnswer, State};
use axles::{Axles, Said};
use layout::Layout;
use tables::reading_for;
use track::codes::{AXLES_IN, REPORT_LAMP, RESET_AXLES};
use track::sizes::{LAMPS, MOST_LINES, MOST_SECTIONS, MOST_TRAIN_ROUTES, SECTIONS};

// The nine tables of a state.
#[tactic(auto, unfolding(crate::specs::Parts::core_of))]
pub fn core_of(s: &State) -> Core
    ensures { result ≡ core_of s.now }
{
    let State {
        section,
        point,
        order,
        phase,
        steps,
        seconds,
        direction,
        stage,
        bar,
        ..
    } = *s;
    Core {
        section,
        point,
        order,
        phase,
        steps,
        seconds,
        direction,
        stage,
        bar,
    }
}

// The state of nine tables, of heads and of lamps.
pub fn whole(c: Core, axles: [Axles; SECTIONS], lamp: [u8; LAMPS]) -> State
    ensures { result ≡ whole c axles lamp }
{
    let Core {
        section,
        point,
        order,
        phase,
        steps,
        seconds,
        direction,
        stage,
        bar,
    } = c;
    State {
        section,
        point,
        order,
        phase,
        steps,
        seconds,
        direction,
        stage,
        bar,
        axles,
        lamp,
    }
}

// The event is one of heads.
#[tactic(auto, using(crate::proofs::Trying::both_are), unfolding(crate::specs::Parts::is_of_heads, track::specs::Lists::between))]
pub(super) fn is_of_heads(kind: u32) -> bool
    ensures { result ≡ is_of_heads kind }
{
    (AXLES_IN <= kind) & (kind <= RESET_AXLES)
}

// The section that an event of heads names.
#[tactic(auto, using(reasons::proofs::Decided::decided), unfolding(crate::specs::Own::head_section))]
pub(super) fn head_section(kind: u32, first: u32) -> u32
    ensures { result ≡ head_section kind first }
{
    if kind == RESET_AXLES {
        return first;
    }
    first / 2
}

// The place of that section's heads in the table; 0 for an event that names none.
#[tactic(auto, using(reasons::proofs::Decided::decided, crate::proofs::Trying::both_are), unfolding(crate::specs::Parts::head_place))]
pub fn head_place(kind: u32, first: u32) -> usize
    ensures { result ≡ head_place kind first }
{
    let g = head_section(kind, first) as usize;
    let of = is_of_heads(kind);
    if of & (g < SECTIONS) {
        return g;
    }
    0
}

// What an event makes of the heads of the section that it names.
#[tactic(auto, using(reasons::proofs::Decided::decided), unfolding(crate::specs::Parts::heads_then, crate::specs::Own::heads_by))]
pub fn heads_then(x: Axles, kind: u32, first: u32, second: u32) -> Axles
    ensures { result ≡ heads_then x kind first second }
{
    if !is_of_heads(kind) {
        return x;
    }
    let e = Said {
        kind,
        head: (first % 2) as u8,
        count: (second % 65536) as u16,
    };
    axles::after(x, e)
}

// The lamps after an event that was answered by a number: where it was accepted and reports a lamp, that report is stored.
#[tactic(auto, using(reasons::proofs::Decided::decided, crate::proofs::Trying::both_are), unfolding(crate::specs::Parts::lamps_then))]
pub fn lamps_then(lamps: &mut [u8; LAMPS], number: u8, kind: u32, first: u32, second: u32)
    ensures { lamps.new ≡ lamps_then lamps.old number kind first second }
{
    if (number == 0) & (kind == REPORT_LAMP) {
        let code = reading_for(second);
        store(lamps, LAMPS, first as usize, code);
    }
}

impl Core {
    // One step of a run that asked `Layout::sound` and `State::in_range` before its first event, where it is the same as `State::step` on the parts.
    pub fn step_in_run(
        self,
        heads: Axles,
        lamps: &[u8; LAMPS],
        layout: &Layout,
        kind: u32,
        first: u32,
        second: u32,
    ) -> CoreAnswer
        ensures { result ≡ core_step_in_run layout.now self heads lamps.now kind first second }
    {
        let lines = layout.lines <= MOST_LINES;
        let routes = layout.routes <= MOST_TRAIN_ROUTES;
        let sections = (1 <= layout.sections) & (layout.sections <= MOST_SECTIONS);
        let asked = lines & (routes & (sections & (layout.lacking == 0)));
        let lent = Lent {
            layout,
            lamps,
            sound: asked,
        };
        answered(self, heads, lent, kind, first, second)
    }
}
