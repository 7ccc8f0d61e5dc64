// Events one after another in a file, and what is printed of a run over them (section 8).
#![tactic(auto)]

mod frame;
mod lines;
mod pieces;

ghost use Rattle.std.specs.Prelude.{◌≡◌};
ghost use Rattle.event_file.specs.Next.{found};
ghost use Rattle.event_file.specs.Read.{event_at, next_told};

pub use frame::{FileKind, fault_line, opening_line};
use numbers::Fault;
pub use pieces::{End, Piece, bring_rest, run_piece};

// An event of a file, and the place after it.
#[derive(Clone, Copy)]
pub struct Event {
    pub kind: u32,
    pub first: u32,
    pub second: u32,
    pub next: usize,
}

// What stands at a place of an event file: an event, none where the file ended before it, or fault 21, it ends inside one, or 22, a bad number.
pub fn next_event(file: &[u8], at: usize) -> Result<Option<Event>, Fault>
    ensures { next_told (found result) ≡ next_told (event_at file.now at) }
{
    if file.len() <= at {
        return Ok(None);
    }
    let kind = numbers::read(file, at)?;
    let first = numbers::read(file, kind.next)?;
    let second = numbers::read(file, first.next)?;
    Ok(Some(Event {
        kind: kind.value as u32,
        first: first.value as u32,
        second: second.value as u32,
        next: second.next,
    }))
}
