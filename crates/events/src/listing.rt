// The list of an event file: its events are run one after another, and a line of each is printed.
use crate::files::{Held, Source};
use crate::{print_first, tell};
use console::Reported;
use event_file::{End, FileKind, Piece};
use interlocking::State;
use layout::Layout;

// What is listed: the events on a layout, each with the panel after it or without.
#[derive(Clone, Copy)]
pub struct Listing {
    pub layout: Layout,
    pub panel: bool,
}

// Where a run stands: the state, how many events there were, the next one's place in the buffer, how many bytes the buffer holds, how many
// the file had before them, and whether the file has ended.
#[derive(Clone, Copy)]
struct Walk {
    state: State,
    count: u64,
    at: usize,
    have: usize,
    before: usize,
    last: bool,
}

// Ends the list with a fault of the event file.
fn end_list(
    rt: &HostRuntime,
    path: &[u8],
    number: u8,
    place: usize,
    out: &mut [u8],
) -> Result<(), Reported> {
    let n = event_file::fault_line(FileKind::Events, number as u64, place as u64, out);
    print_first(rt, out, n)?;
    tell(rt, path, b": the event file ends in a fault\n");
    Ok(())
}

// What is left of the buffer from a place on is brought to the front and the file is read on behind it. Where it cannot be read, the list ends there.
fn with_more(
    rt: &HostRuntime,
    source: &mut Source,
    w: Walk,
    p: Piece,
    at: usize,
    buf: &mut [u8],
) -> Result<Walk, Reported> {
    let rest = event_file::bring_rest(buf, at, w.have);
    let held = source.read_on(rt, buf, rest)?;
    Ok(Walk {
        state: p.state,
        count: p.count,
        at: 0,
        have: held.have,
        before: w.before.saturating_add(at),
        last: held.last,
    })
}

// The events of the buffer for which there is room to write, and then on in the same bytes, or with more of the file, or to the end.
fn walk_on(
    rt: &HostRuntime,
    source: &mut Source,
    listing: Listing,
    w: Walk,
    buf: &mut [u8],
    out: &mut [u8],
) -> Result<Option<Walk>, Reported> {
    let have = w.have.min(buf.len());
    let p = event_file::run_piece(
        listing.panel,
        &listing.layout,
        w.state,
        w.count,
        &buf[..have],
        w.at,
        w.last,
        out,
    );
    print_first(rt, out, p.written)?;
    match p.end {
        End::Turned { at } | End::Full { at } => Ok(Some(Walk {
            state: p.state,
            count: p.count,
            at,
            ..w
        })),
        End::Later { at } => Ok(Some(with_more(rt, source, w, p, at, buf)?)),
        End::AtEnd { .. } => Ok(None),
        End::Bad { fault } => {
            let place = w.before.saturating_add(fault.detail());
            end_list(rt, source.path, fault.number(), place, out)?;
            Ok(None)
        }
    }
}

// All events. A loop that is proved has to end, so this one counts its turns up to a number that no file uses up.
pub fn walk_all(
    rt: &HostRuntime,
    source: &mut Source,
    listing: Listing,
    held: Held,
    buf: &mut [u8],
    out: &mut [u8],
) -> Result<(), Reported> {
    let mut w = Walk {
        state: State::cold(),
        count: 0,
        at: 0,
        have: held.have,
        before: 0,
        last: held.last,
    };
    for _ in 0..u64::MAX {
        match walk_on(rt, source, listing, w, buf, out)? {
            Some(next) => w = next,
            None => return Ok(()),
        }
    }
    Ok(())
}
