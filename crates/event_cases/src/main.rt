// Plays every event file of an archive on its layout, and prints what section 8 says of each: event_cases ARCHIVE
// The archive is entries: a byte, 3 for a file of fitted sections, 2 for a layout file, 1 for an event file of which the panels are to be printed and 0
// for one without; the file's length in two bytes, lowest first; and the file. An event file is played on the layout before it, with the sections that
// are told as fitted between; a refused layout prints its line, and so does a bad file of fitted sections, which leaves the layout as it was.
#![tactic(auto)]

use console::Reported;
use event_file::{End, FileKind};
use interlocking::State;
use layout::Layout;

// An entry of the archive: what it is, and its file.
#[derive(Clone, Copy)]
struct Entry<'a> {
    kind: u8,
    file: &'a [u8],
}

// The first entry of so much of the archive, and what follows it; none where it is not there whole.
fn next_entry(archive: &[u8]) -> Option<(Entry<'_>, &[u8])> {
    let (head, rest) = archive.split_at_checked(3)?;
    let size = usize::from(u16::from_le_bytes([head[1], head[2]]));
    let (file, rest) = rest.split_at_checked(size)?;
    Some((
        Entry {
            kind: head[0],
            file,
        },
        rest,
    ))
}

// The first n bytes of a buffer are printed, as far as there are so many.
fn print_first(rt: &HostRuntime, out: &[u8], n: usize) -> Result<(), Reported> {
    console::print(rt, &out[..n.min(out.len())])
}

// The list of a file, all of whose lines have room in the buffer.
fn play(rt: &HostRuntime, panel: bool, layout: Layout, file: &[u8]) -> Result<(), Reported> {
    let mut out = [0u8; 65536];
    let opened = event_file::opening_line(panel, &layout, &mut out);
    print_first(rt, &out, opened)?;
    let p = event_file::run_piece(panel, &layout, State::cold(), 0, file, 0, true, &mut out);
    print_first(rt, &out, p.written)?;
    if let End::Bad { fault } = p.end {
        let number = fault.number() as u64;
        let closed = event_file::fault_line(
            FileKind::Events,
            number,
            fault.detail() as u64,
            &mut out,
        );
        print_first(rt, &out, closed)?;
    }
    Ok(())
}

// The line of a layout file that was refused.
fn refuse(rt: &HostRuntime, number: u8, detail: usize) -> Result<(), Reported> {
    let mut out = [0u8; 4096];
    let end = event_file::fault_line(FileKind::Layout, number as u64, detail as u64, &mut out);
    print_first(rt, &out, end)
}

// The layout of a file, and the line of one that is refused. What it needs is no part of a run's stack, here and below.
#[inline(never)]
fn layout_of(rt: &HostRuntime, file: &[u8]) -> Result<Layout, Reported> {
    let loaded = layout::load(file);
    if let Err(fault) = loaded {
        refuse(rt, fault.number(), fault.detail())?;
    }
    Ok(layout::layout_given(loaded))
}

// The line of a file of fitted sections that is no numbers.
fn refuse_fitted(rt: &HostRuntime, number: u8, detail: usize) -> Result<(), Reported> {
    let mut out = [0u8; 4096];
    let end = event_file::fault_line(FileKind::Fitted, number as u64, detail as u64, &mut out);
    print_first(rt, &out, end)
}

// The layout with the fitted sections of a file.
#[inline(never)]
fn equipped(rt: &HostRuntime, layout: Layout, file: &[u8]) -> Result<Layout, Reported> {
    match fitted::fit(&layout, file) {
        Ok(fitted) => Ok(fitted),
        Err(fault) => {
            refuse_fitted(rt, fault.number(), fault.detail())?;
            Ok(layout)
        }
    }
}

// All entries; before the first layout file there is no layout. What they need is no part of the stack of a call that names no archive.
#[inline(never)]
fn play_all(rt: &HostRuntime, archive: &[u8]) -> Result<(), Reported> {
    let mut layout = layout::no_layout();
    let mut rest = archive;
    for _ in 0..archive.len() {
        let Some((entry, next)) = next_entry(rest) else {
            return Ok(());
        };
        match entry.kind {
            2 => layout = layout_of(rt, entry.file)?,
            3 => layout = equipped(rt, layout, entry.file)?,
            0 | 1 => play(rt, entry.kind == 1, layout, entry.file)?,
            _ => {}
        }
        rest = next;
    }
    Ok(())
}

// The archive that the first argument names is read into the room lent; nothing is, where none is named.
#[inline(never)]
fn read_archive<'a>(rt: &HostRuntime, room: &'a mut [u8]) -> Result<&'a [u8], Reported> {
    let mut word = [0u8; 4096];
    let Some(path) = console::argument(rt, 1, &mut word) else {
        console::tell(rt, b"usage: event_cases ARCHIVE\n");
        return Ok(&room[..0]);
    };
    let mut archive = console::open(rt, path)?;
    let size = console::fill(rt, &mut archive, path, room)?;
    Ok(&room[..size.min(room.len())])
}

// Every event file of the archive.
fn play_named(rt: &HostRuntime) -> Result<(), Reported> {
    let mut room = [0u8; 65536];
    play_all(rt, read_archive(rt, &mut room)?)
}

// The exit status tells nothing: where something failed, standard error has said so.
fn main(rt: HostRuntime) {
    let _ = play_named(&rt);
}
