// The event program (section 8): events LAYOUT [EVENTS [panel] [fitted FILE]]
// Runs the event file on the layout from the cold start and prints event number, answer and detail of each event, with `panel` also the
// panel after it. FILE has the fitted sections (request L1), none where it is not named. Event file and FILE may be of any length: they are read a piece
// at a time.
// Without an event file it only loads the layout, and prints `layout`, the answer and its detail.
// Where the list is not whole, standard error says why, in one line: `./run` goes by it.
#![tactic(auto)]

mod files;
mod heads;
mod listing;

use console::Reported;
use event_file::FileKind;
use files::{Held, Source};
use layout::Layout;
use listing::Listing;

// What the arguments ask for: the events of a file on the layout of another, with the panels or without, and the file of fitted sections, if one is named.
#[derive(Clone, Copy)]
struct Request<'l, 'e, 'f> {
    layout: &'l [u8],
    events: &'e [u8],
    panel: bool,
    fitted: Option<&'f [u8]>,
}

// Says on standard error what is wrong with a file.
fn tell(rt: &HostRuntime, path: &[u8], what: &[u8]) {
    console::tell(rt, path);
    console::tell(rt, what);
}

// Writes the first n bytes, as far as there are so many.
fn print_first(rt: &HostRuntime, out: &[u8], n: usize) -> Result<(), Reported> {
    console::print(rt, &out[..n.min(out.len())])
}

// Prints what loading answers.
fn print_loaded(
    rt: &HostRuntime,
    path: &[u8],
    number: u8,
    detail: usize,
    out: &mut [u8],
) -> Result<(), Reported> {
    let end = event_file::fault_line(FileKind::Layout, number as u64, detail as u64, out);
    print_first(rt, out, end)?;
    if number != 0 {
        tell(rt, path, b": the layout is refused\n");
    }
    Ok(())
}

// Prints the line of a fault in the file of fitted sections, in place of a list.
fn print_fault(
    rt: &HostRuntime,
    path: &[u8],
    broken: heads::Broken,
    out: &mut [u8],
) -> Result<(), Reported> {
    let end = event_file::fault_line(
        FileKind::Fitted,
        broken.number as u64,
        broken.place as u64,
        out,
    );
    print_first(rt, out, end)?;
    tell(rt, path, b": the file of fitted sections ends in a fault\n");
    Ok(())
}

// The open event file, of which the first bytes were read, is run on a layout.
fn list(
    rt: &HostRuntime,
    events: &mut Source,
    listing: Listing,
    held: Held,
    buf: &mut [u8],
    out: &mut [u8],
) -> Result<(), Reported> {
    let end = event_file::opening_line(listing.panel, &listing.layout, out);
    print_first(rt, out, end)?;
    listing::walk_all(rt, events, listing, held, buf, out)
}

// The layout is equipped with the sections of the file of fitted sections, if there is one, and the events are run on it. Its room is no part of the stack of a
// call whose layout is refused.
#[inline(never)]
fn run_on(
    rt: &HostRuntime,
    layout: &Layout,
    panel: bool,
    heads: &mut Option<Source>,
    events: &mut Source,
    held: Held,
    buf: &mut [u8],
) -> Result<(), Reported> {
    let mut out = [0u8; 65536];
    let mut listing = Listing {
        layout: *layout,
        panel,
    };
    if let Some(source) = heads {
        match heads::tell_all(rt, source, layout.sections, &mut out)? {
            Ok(told) => listing.layout = fitted::equip(layout, told),
            Err(broken) => return print_fault(rt, source.path, broken, &mut out),
        }
    }
    list(rt, events, listing, held, buf, &mut out)
}

// The file of fitted sections is opened, if one is named, the layout file is loaded, and the events are run on its layout.
fn run(
    rt: &HostRuntime,
    request: Request,
    file: &[u8],
    events: &mut Source,
    held: Held,
    buf: &mut [u8],
) -> Result<(), Reported> {
    let mut heads = match request.fitted {
        Some(path) => Some(Source::open(rt, path)?),
        None => None,
    };
    match layout::load(file) {
        Ok(layout) => run_on(rt, &layout, request.panel, &mut heads, events, held, buf),
        Err(fault) => {
            let mut out = [0u8; 4096];
            print_loaded(rt, request.layout, fault.number(), fault.detail(), &mut out)
        }
    }
}

// The layout file is read. Its first 65,536 bytes answer for a longer one.
fn read_layout<'a>(
    rt: &HostRuntime,
    path: &[u8],
    room: &'a mut [u8],
) -> Result<&'a [u8], Reported> {
    let n = Source::open(rt, path)?.fill(rt, room)?;
    Ok(&room[..n.min(room.len())])
}

// The layout is only loaded, and its answer printed. Its room is no part of a run's stack.
#[inline(never)]
fn load_alone(rt: &HostRuntime, path: &[u8]) -> Result<(), Reported> {
    let mut room = [0u8; 65536];
    let file = read_layout(rt, path, &mut room)?;
    let mut out = [0u8; 4096];
    match layout::load(file) {
        Ok(_) => print_loaded(rt, path, 0, 0, &mut out),
        Err(fault) => print_loaded(rt, path, fault.number(), fault.detail(), &mut out),
    }
}

// The layout file is read, and the event file opened, of which the first bytes are read before anything is printed.
fn answer(rt: &HostRuntime, request: Request) -> Result<(), Reported> {
    let mut room = [0u8; 65536];
    let file = read_layout(rt, request.layout, &mut room)?;
    let mut events = Source::open(rt, request.events)?;
    let mut buf = [0u8; 65536];
    let held = events.read_on(rt, &mut buf, 0)?;
    run(rt, request, file, &mut events, held, &mut buf)
}

// How the program is called.
fn usage(rt: &HostRuntime) -> Result<(), Reported> {
    console::tell(rt, b"usage: events LAYOUT [EVENTS [panel] [fitted FILE]]\n");
    Ok(())
}

// Whether an argument is a word.
fn argument_is(rt: &HostRuntime, i: usize, word: &[u8]) -> bool {
    let mut room = [0u8; 4096];
    console::argument(rt, i, &mut room) == Some(word)
}

// The event file, the word `panel`, and the word `fitted` with its file, by the arguments after the layout.
#[inline(never)]
fn with_events(rt: &HostRuntime, layout: &[u8]) -> Result<(), Reported> {
    let mut events = [0u8; 4096];
    let mut fitted = [0u8; 4096];
    let Some(events) = console::argument(rt, 2, &mut events) else {
        return usage(rt);
    };
    let panel = argument_is(rt, 3, b"panel");
    let next = if panel { 4 } else { 3 };
    let request = Request {
        layout,
        events,
        panel,
        fitted: None,
    };
    if console::argument_count(rt) == next {
        return answer(rt, request);
    }
    if let Some(file) = console::argument(rt, next + 1, &mut fitted) {
        if argument_is(rt, next, b"fitted") && console::argument_count(rt) == next + 2 {
            let fitted = Some(file);
            return answer(rt, Request { fitted, ..request });
        }
    }
    usage(rt)
}

// The layout, and whether there is more than it.
fn start(rt: &HostRuntime) -> Result<(), Reported> {
    let mut layout = [0u8; 4096];
    match console::argument(rt, 1, &mut layout) {
        Some(layout) if console::argument_count(rt) == 2 => load_alone(rt, layout),
        Some(layout) => with_events(rt, layout),
        None => usage(rt),
    }
}

// The exit status tells nothing: where something failed, standard error has said so.
fn main(rt: HostRuntime) {
    let _ = start(&rt);
}
