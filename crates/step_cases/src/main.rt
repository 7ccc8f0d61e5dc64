// Plays each run of the archive `runs`. For each it writes a line with what loading the layout answers and, where sections are told as fitted, the
// answer to that; then a line for every sixteen events: answer and detail of each, and the state after the last of them but for its heads and lamps; the
// first line has those that are left over; at the end a line with the heads, where a section has some, and one with what the lamps report.
// In the archive a run is the length of its layout file and the file; the same of the file that tells the fitted sections; the number of its changes by
// hand, and six bytes for each; the number of its events, and three words of four bytes for each. Lengths and numbers take two bytes. All stand lowest
// byte first.
#![tactic(auto)]

mod by_hand;
mod heads;
mod states;
mod text;
mod tracks;

use by_hand::{Change, Records};
use console::Reported;
use interlocking::State;
use layout::Layout;
use std::fs::File;
use text::Line;

// An event: its kind and its two numbers.
#[derive(Clone, Copy)]
struct Event {
    kind: u32,
    first: u32,
    second: u32,
}

// Reads from the archive until the room lent is full or the archive ends; how many bytes there are.
fn read_full(rt: &HostRuntime, archive: &mut File, room: &mut [u8]) -> Result<usize, Reported> {
    console::fill(rt, archive, b"runs", room)
}

// The next number of two bytes, 0 where the archive has ended.
fn next_number(rt: &HostRuntime, archive: &mut File) -> Result<usize, Reported> {
    let mut b = [0u8; 2];
    read_full(rt, archive, &mut b)?;
    Ok(u16::from_le_bytes(b) as usize)
}

// The next change by hand.
fn next_change(rt: &HostRuntime, archive: &mut File) -> Result<Change, Reported> {
    let mut b = [0u8; 6];
    read_full(rt, archive, &mut b)?;
    Ok(Change {
        record: b[0],
        number: b[1],
        field: b[2],
        place: u16::from_le_bytes([b[3], b[4]]) as usize,
        byte: b[5],
    })
}

// The next event.
fn next_event(rt: &HostRuntime, archive: &mut File) -> Result<Event, Reported> {
    let mut b = [0u8; 12];
    read_full(rt, archive, &mut b)?;
    Ok(Event {
        kind: u32::from_le_bytes([b[0], b[1], b[2], b[3]]),
        first: u32::from_le_bytes([b[4], b[5], b[6], b[7]]),
        second: u32::from_le_bytes([b[8], b[9], b[10], b[11]]),
    })
}

// Plays the next event of the archive on a state, and puts answer and detail, and a mark where a refusal has changed the state.
fn play_next(
    rt: &HostRuntime,
    archive: &mut File,
    plan: &Layout,
    state: &mut State,
    line: &mut Line,
) -> Result<(), Reported> {
    let e = next_event(rt, archive)?;
    let r = state.step(plan, e.kind, e.first, e.second);
    line.put_number(r.number as u32);
    line.put(b':');
    line.put_number(r.detail);
    if r.number != 0 && !states::same_states(state, &r.next) {
        line.put(b'!');
    }
    line.put(b' ');
    *state = r.next;
    Ok(())
}

// Plays n events and writes them in a line, with the state at its end.
fn play_line(
    rt: &HostRuntime,
    archive: &mut File,
    records: &mut Records,
    n: usize,
) -> Result<(), Reported> {
    let mut line = Line::new();
    for _ in 0..n {
        play_next(rt, archive, &records.plan, &mut records.state, &mut line)?;
    }
    line.put(b'|');
    line.put(b' ');
    states::put_state(&mut line, &records.plan, &records.state);
    line.write(rt)
}

// Writes a line with the heads, where a section has some.
fn end_heads(rt: &HostRuntime, records: &Records) -> Result<(), Reported> {
    let mut line = Line::new();
    heads::put_heads(&mut line, &records.plan, &records.state);
    if line.is_empty() {
        return Ok(());
    }
    line.write(rt)
}

// Writes a line with what the lamps report.
fn end_lamps(rt: &HostRuntime, records: &Records) -> Result<(), Reported> {
    let mut line = Line::new();
    states::put_lamps(&mut line, &records.plan, &records.state);
    line.write(rt)
}

// Plays the events of a run.
fn play(rt: &HostRuntime, archive: &mut File, records: &mut Records) -> Result<(), Reported> {
    let n = next_number(rt, archive)?;
    play_line(rt, archive, records, n % 16)?;
    for _ in 0..n / 16 {
        play_line(rt, archive, records, 16)?;
    }
    end_heads(rt, records)?;
    end_lamps(rt, records)
}

// The records of a run with its changes by hand.
fn change_all(rt: &HostRuntime, archive: &mut File, records: &mut Records) -> Result<(), Reported> {
    for _ in 0..next_number(rt, archive)? {
        let c = next_change(rt, archive)?;
        by_hand::change_record(records, c);
    }
    Ok(())
}

// Writes an answer with its detail.
fn write_answer(rt: &HostRuntime, number: u8, detail: usize) -> Result<(), Reported> {
    console::print_value(rt, format_args!("{number} {detail}"))
}

// The layout with the sections that the next file of the archive tells as fitted, where it has bytes, with the answer written.
fn equip(rt: &HostRuntime, archive: &mut File, plan: Layout) -> Result<Layout, Reported> {
    let n = next_number(rt, archive)?;
    let mut room = [0u8; 4096];
    if n == 0 || room.len() < n {
        return Ok(plan);
    }
    read_full(rt, archive, &mut room[..n])?;
    console::print(rt, b" ")?;
    match fitted::fit(&plan, &room[..n]) {
        Ok(equipped) => {
            write_answer(rt, 0, 0)?;
            Ok(equipped)
        }
        Err(fault) => {
            write_answer(rt, fault.number(), fault.detail())?;
            Ok(plan)
        }
    }
}

// Plays a run on a layout file.
fn play_on(rt: &HostRuntime, archive: &mut File, file: &[u8]) -> Result<(), Reported> {
    let loaded = layout::load(file);
    match loaded {
        Ok(_) => write_answer(rt, 0, 0)?,
        Err(fault) => write_answer(rt, fault.number(), fault.detail())?,
    }
    let plan = equip(rt, archive, layout::layout_given(loaded))?;
    console::print(rt, b"\n")?;
    let mut records = Records {
        plan,
        state: State::cold(),
    };
    change_all(rt, archive, &mut records)?;
    play(rt, archive, &mut records)
}

// Plays the next run of the archive, and answers whether there was one, with its layout file whole.
fn next_run(rt: &HostRuntime, archive: &mut File) -> Result<bool, Reported> {
    let mut head = [0u8; 2];
    if read_full(rt, archive, &mut head)? < 2 {
        return Ok(false);
    }
    let n = u16::from_le_bytes(head) as usize;
    let mut room = [0u8; 65536];
    if read_full(rt, archive, &mut room[..n])? < n {
        return Ok(false);
    }
    play_on(rt, archive, &room[..n])?;
    Ok(true)
}

// A loop that is proved has to end, so this one counts its turns up to a number that no archive uses up.
fn play_all(rt: &HostRuntime, archive: &mut File) -> Result<(), Reported> {
    for _ in 0..u64::MAX {
        if !next_run(rt, archive)? {
            return Ok(());
        }
    }
    Ok(())
}

// Opens the archive `runs` and plays it.
fn start(rt: &HostRuntime) -> Result<(), Reported> {
    let mut archive = console::open(rt, b"runs")?;
    play_all(rt, &mut archive)
}

// Every run of the archive `runs`. The exit status tells nothing: where something failed, standard error has said so.
fn main(rt: HostRuntime) {
    let _ = start(&rt);
}
