// An event tried: what it is tried with, and what it does where nothing is refused of it.
ghost use Rattle.std.specs.Prelude.{◌≡◌};
ghost use Rattle.tables.specs.Lent.{tables_of as lent_tables};
ghost use Rattle.interlocking.specs.Rows.{nothing};
ghost use Rattle.interlocking.specs.State.{tables_of};
ghost use Rattle.interlocking.specs.Parts.{headless};
ghost use Rattle.interlocking.specs.Tried.{tried_by};

use super::{Core, Tried};
use layout::Layout;
use reasons::Reason;
use tables::{Gives, Tables};
use track::sizes::{LAMPS, MOST_SECTIONS};

// What is lent to an event besides the nine tables: the layout, what the lamps report, and whether layout and state are sound, which 18 asks.
#[derive(Clone, Copy)]
pub struct Lent<'a> {
    pub layout: &'a Layout,
    pub lamps: &'a [u8; LAMPS],
    pub sound: bool,
}

// An event done: the tables that it makes itself, and what it gives.
#[derive(Clone, Copy)]
pub struct Done {
    pub next: Core,
    pub gives: Gives,
}

// The tables of a state that its refusals look at.
pub fn tables_of<'a>(s: &'a Core, lamps: &'a [u8; LAMPS]) -> Tables<'a>
    ensures { lent_tables result ≡ tables_of (headless s.now lamps.now) }
{
    Tables {
        section: &s.section,
        point: &s.point,
        phase: &s.phase,
        direction: &s.direction,
        stage: &s.stage,
        bar: &s.bar,
        lamp: lamps,
    }
}

// Nothing is given; a number past the last section is no section.
#[tactic(auto, unfolding(crate::specs::Rows::nothing))]
pub fn gives_nothing() -> Gives
    ensures { result ≡ nothing }
{
    Gives {
        section: MOST_SECTIONS,
        reading: 0,
        tick: 0,
    }
}

// What the event made of the state s, with its answer: 0 and 0 where it is done, else the number and the detail of the reason, with the state as it was.
#[tactic(auto, unfolding(crate::specs::Parts::moves, crate::specs::Parts::stays, reasons::specs::Refusal::refused))]
pub fn tried_by(s: Core, r: Result<Done, Reason>) -> Tried
    ensures { result ≡ tried_by s r }
{
    match r {
        Ok(done) => Tried {
            next: done.next,
            gives: done.gives,
            number: 0,
            detail: 0,
        },
        Err(reason) => Tried {
            next: s,
            gives: gives_nothing(),
            number: reason.number(),
            detail: reason.detail(),
        },
    }
}
