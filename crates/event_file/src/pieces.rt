// A run over an event file, a piece of the file at a time.
ghost use Rattle.std.specs.Prelude.{◌≡◌, length};
ghost use Rattle.interlocking.specs.Parts.{whole};
ghost use Rattle.step_facts.specs.Run.{box_in_run};
ghost use Rattle.event_file.specs.Lines.{next_count, shown_in_run, most_line};
ghost use Rattle.numerals.specs.Writes.{Put};
ghost use Rattle.event_file.specs.Writes.{rest};
ghost use Rattle.event_file.specs.Run.{Piece as Reached, place_of, stop_given, in_numbers, no_event, piece_of, halted, halted_by, Went};

use crate::{Event, lines, next_event};
use axles::Axles;
use interlocking::parts::{core_of, head_place, lamps_then, whole};
use interlocking::{Core, State};
use layout::Layout;
use numbers::Fault;
use track::codes::AXLES_IN;
use track::sizes::{LAMPS, SECTIONS};

// Why a run stopped, and the place that it came to.
#[derive(Clone, Copy)]
pub enum End {
    // It made all turns of a call; the next event's place.
    Turned { at: usize },
    // There is no room for another line.
    Full { at: usize },
    // The next event lies past the piece's end.
    Later { at: usize },
    // The file's end.
    AtEnd { at: usize },
    // A fault of the event file.
    Bad { fault: Fault },
}

// How far a run came: the state, how many events there were, how many bytes were written, and where and why it stopped.
#[derive(Clone, Copy)]
pub struct Piece {
    pub state: State,
    pub count: u64,
    pub written: usize,
    pub end: End,
}

// The event's number.
fn next_count(n: u64) -> u64
    ensures { result ≡ next_count n }
{
    n.saturating_add(1)
}

// The most bytes of a line.
pub fn most_line(panel: bool) -> usize
    ensures { result ≡ most_line panel }
{
    if panel { 2113 } else { 63 }
}

// How a run ends at a place where no event stands but a fault, or nothing. An event that a piece cuts off is read again with what follows the piece.
fn end_by(at: usize, fault: Option<Fault>, last: bool) -> End
    ensures { (p : Reached) → p.at ≡ at → halted p (place_of result) (stop_given result) ≡ halted_by last p (no_event fault) }
{
    match fault {
        Some(fault) if fault.number() == 21 && !last => End::Later { at },
        Some(fault) => End::Bad { fault },
        None if last => End::AtEnd { at },
        None => End::Later { at },
    }
}

// How far a run came that holds its state in three parts.
fn came(
    core: Core,
    axles: [Axles; SECTIONS],
    lamps: [u8; LAMPS],
    count: u64,
    written: usize,
    end: End,
) -> Piece
    ensures { result ≡ record { state = whole core axles lamps; count = count; written = written; end = end } }
{
    let state = whole(core, axles, lamps);
    Piece {
        state,
        count,
        written,
        end,
    }
}

// A run over a piece of the file from a place on, from a state that was asked for soundness with its layout before the file's first event.
// The nine tables, the heads and the lamps go apart, so that an event copies only the heads that it names, and stores them only from the first kind of
// heads on (request L1): below it nothing changes them. The lamps are lent, and an accepted report is stored in them (request L3).
// Its parameters stay apart: from call to call all but two of them are others, so a struct of them would be built anew for each.
pub fn run_piece(
    panel: bool,
    layout: &Layout,
    state: State,
    mut count: u64,
    bytes: &[u8],
    mut at: usize,
    last: bool,
    out: &mut [u8],
) -> Piece
    ensures { Went out.old 0 (length out.old) out.new (in_numbers result) (piece_of (box_in_run layout.now) panel (shown_in_run layout.now) last bytes.now (length out.old) state count at) }
{
    let mut core = core_of(&state);
    let mut axles = state.axles;
    let mut lamps = state.lamp;
    let mut written: usize = 0;
    for _ in 0u32..65536 {
        if out.len() - written < most_line(panel) {
            return came(core, axles, lamps, count, written, End::Full { at });
        }
        let Event {
            kind,
            first,
            second,
            next,
        } = match next_event(bytes, at) {
            Ok(Some(event)) => event,
            Ok(None) => {
                let end = end_by(at, None, last);
                return came(core, axles, lamps, count, written, end);
            }
            Err(fault) => {
                let end = end_by(at, Some(fault), last);
                return came(core, axles, lamps, count, written, end);
            }
        };
        let place = head_place(kind, first);
        let heads = axles[place];
        let a = core.step_in_run(heads, &lamps, layout, kind, first, second);
        core = a.next;
        if AXLES_IN <= kind {
            let then = a.heads;
            axles[place] = then;
        }
        lamps_then(&mut lamps, a.number, kind, first, second);
        count = next_count(count);
        at = next;
        written = if panel {
            lines::put_panel_line(layout, core, count, a.number, a.detail, out, written)
        } else {
            lines::put_line(count, a.number, a.detail, out, written)
        };
    }
    came(core, axles, lamps, count, written, End::Turned { at })
}

// The bytes of a buffer from one place to another are brought to its front; how many they are.
pub fn bring_rest(buf: &mut [u8], from: usize, till: usize) -> usize
    ensures { Put buf.old 0 (rest from till buf.old) (length buf.old) buf.new result }
{
    let mut n = 0;
    for at in from..till.min(buf.len()) {
        buf[n] = buf[at];
        n += 1;
    }
    n
}
