// Plays events on a layout, so that they can be timed, and prints a sum over all answers and over the state that they lead to:
//   step_bench LAYOUT FITTED PREFIX EVENTS TURNS step|run
// loads a layout file with the sections that FITTED tells and plays, from the cold state, the events of PREFIX once and those of EVENTS so many times.
// By `step` each event asks soundness; by `run` it is asked once before the first. Both go through the one step that the event program has: the nine
// tables, the heads and the lamps apart, so that an event copies only the heads that it names (request L1), and of lamps none (request L3). With a second call
// the compiler would not fold the step into the loop, and a run would take longer here than there. An event is three words of four bytes, lowest byte first.
// Of a file the first 65,536 bytes are read.
#![tactic(auto)]

use axles::Axles;
use console::Reported;
use interlocking::parts::{core_of, head_place, lamps_then, whole};
use interlocking::{Core, State};
use layout::Layout;
use track::sizes::{LAMPS, SECTIONS};

// A state and the sum over the answers that led to it.
#[derive(Clone, Copy)]
struct Played {
    state: State,
    sum: u64,
}

// An event: its kind and its two numbers.
#[derive(Clone, Copy)]
struct Event {
    kind: u32,
    first: u32,
    second: u32,
}

// The sum with one more number.
fn mixed(sum: u64, x: u32) -> u64 {
    31 * (sum % 1000000007) + x as u64
}

// The event that twelve bytes are; of fewer none.
fn event_of(e: &[u8]) -> Event {
    if e.len() < 12 {
        return Event {
            kind: 0,
            first: 0,
            second: 0,
        };
    }
    Event {
        kind: u32::from_le_bytes([e[0], e[1], e[2], e[3]]),
        first: u32::from_le_bytes([e[4], e[5], e[6], e[7]]),
        second: u32::from_le_bytes([e[8], e[9], e[10], e[11]]),
    }
}

// Layout and state are sound, as `State::step` asks it.
fn is_sound(plan: &Layout, core: Core, axles: [Axles; SECTIONS], lamp: [u8; LAMPS]) -> bool {
    let s = whole(core, axles, lamp);
    plan.sound() & s.in_range()
}

// Plays the events of a file so many times, each with soundness asked or not. It ends where that fails.
#[tactic(auto, using(interlocking::proofs::Lifted::place_below))]
fn play(plan: &Layout, asking: bool, events: &[u8], turns: u64, given: Played) -> Played {
    let s = given.state;
    let mut core = core_of(&s);
    let mut axles = s.axles;
    let mut lamp = s.lamp;
    let mut sum = given.sum;
    for _ in 0..turns {
        let mut at = 0;
        // The place moves by an event's twelve bytes; a rest of fewer ends the run, which a loop over chunks would have to ask too.
        while at < events.len() {
            if events.len() - at < 12 {
                return Played {
                    state: whole(core, axles, lamp),
                    sum,
                };
            }
            let e = event_of(&events[at..]);
            at += 12;
            if asking && !is_sound(plan, core, axles, lamp) {
                return Played {
                    state: whole(core, axles, lamp),
                    sum,
                };
            }
            let place = head_place(e.kind, e.first);
            let heads = axles[place];
            let r = core.step_in_run(heads, &lamp, plan, e.kind, e.first, e.second);
            core = r.next;
            let then = r.heads;
            axles[place] = then;
            lamps_then(&mut lamp, r.number, e.kind, e.first, e.second);
            sum = mixed(mixed(sum, r.number as u32), r.detail);
        }
    }
    let state = whole(core, axles, lamp);
    Played { state, sum }
}

// Reads the file that an argument names into the room lent, and answers what it has of it: nothing, where it cannot be opened. What it needs is no part of the
// stack of what follows, here and below.
#[inline(never)]
fn read_named<'a>(
    rt: &HostRuntime,
    argument: usize,
    room: &'a mut [u8],
) -> Result<&'a [u8], Reported> {
    let mut word = [0u8; 4096];
    let path = console::argument(rt, argument, &mut word).unwrap_or(b"");
    let n = match console::open(rt, path) {
        Ok(mut file) => console::fill(rt, &mut file, path, room)?,
        Err(_) => 0,
    };
    Ok(&room[..n.min(room.len())])
}

// Plays the whole events of the file that an argument names so many times.
fn play_named(
    rt: &HostRuntime,
    plan: &Layout,
    asking: bool,
    argument: usize,
    turns: u64,
    given: Played,
) -> Result<Played, Reported> {
    let mut room = [0u8; 65536];
    let file = read_named(rt, argument, &mut room)?;
    Ok(play(
        plan,
        asking,
        &file[..file.len() - file.len() % 12],
        turns,
        given,
    ))
}

// The layout of a file.
#[inline(never)]
fn layout_of(file: &[u8]) -> Layout {
    layout::layout_given(layout::load(file))
}

// The layout in the file that an argument names. Its room is no part of the stack of a call in another way.
#[inline(never)]
fn layout_named(rt: &HostRuntime, argument: usize) -> Result<Layout, Reported> {
    let mut room = [0u8; 65536];
    Ok(layout_of(read_named(rt, argument, &mut room)?))
}

// The layout with the sections that the file that an argument names tells as fitted; its room in the same way.
#[inline(never)]
fn equipped_named(rt: &HostRuntime, plan: &Layout, argument: usize) -> Result<Layout, Reported> {
    let mut room = [0u8; 65536];
    match fitted::fit(plan, read_named(rt, argument, &mut room)?) {
        Ok(equipped) => Ok(equipped),
        Err(_) => Ok(*plan),
    }
}

// The number that is written in digits, of which the last ten count; other bytes than digits leave it as it was.
fn number_of(text: &[u8]) -> u64 {
    let mut n: u64 = 0;
    for byte in text {
        if let b'0'..=b'9' = *byte {
            n = 10 * (n % 1000000000) + (*byte - b'0') as u64;
        }
    }
    n
}

// The number that an argument is, 0 where it has more than twenty bytes.
fn number_named(rt: &HostRuntime, argument: usize) -> u64 {
    let mut text = [0u8; 20];
    console::argument(rt, argument, &mut text).map_or(0, |digits| number_of(digits))
}

// Whether an argument begins with the letter.
fn begins_with(rt: &HostRuntime, argument: usize, letter: u8) -> bool {
    let mut text = [0u8; 4096];
    match console::argument(rt, argument, &mut text) {
        Some(word) => word.first() == Some(&letter),
        None => false,
    }
}

// The sum with the codes of a table.
fn mixed_codes(sum: u64, codes: &[u8]) -> u64 {
    let mut all = sum;
    for code in codes {
        all = mixed(all, u32::from(*code));
    }
    all
}

// The sum with all the codes of a state but for its heads and lamps.
fn mixed_state(sum: u64, s: &State) -> u64 {
    let mut all = sum;
    all = mixed_codes(all, &s.section);
    all = mixed_codes(all, &s.point);
    all = mixed_codes(all, &s.order);
    all = mixed_codes(all, &s.phase);
    all = mixed_codes(all, &s.steps);
    all = mixed_codes(all, &s.seconds);
    all = mixed_codes(all, &s.direction);
    all = mixed_codes(all, &s.stage);
    mixed_codes(all, &s.bar)
}

// Plays what the arguments name, from a state on.
fn play_arguments(rt: &HostRuntime, plan: &Layout, state: State) -> Result<(), Reported> {
    let asking = begins_with(rt, 6, b's');
    let turns = number_named(rt, 5);
    let first = play_named(rt, plan, asking, 3, 1, Played { state, sum: 0 })?;
    let played = play_named(rt, plan, asking, 4, turns, first)?;
    console::print_value(rt, mixed_state(played.sum, &played.state))?;
    console::print(rt, b"\n")
}

// The layout is equipped with the sections that the second argument's file tells. Events on one that is not sound are not timed.
#[inline(never)]
fn play_on(rt: &HostRuntime, bare: &Layout) -> Result<(), Reported> {
    let plan = equipped_named(rt, bare, 2)?;
    let state = State::cold();
    if !(plan.sound() & state.in_range()) {
        console::tell(rt, b"the layout is not sound\n");
        return Ok(());
    }
    play_arguments(rt, &plan, state)
}

// The layout first, then what is played on it.
fn start(rt: &HostRuntime) -> Result<(), Reported> {
    if console::argument_count(rt) != 7 {
        console::tell(
            rt,
            b"usage: step_bench LAYOUT FITTED PREFIX EVENTS TURNS step|run\n",
        );
        return Ok(());
    }
    let bare = layout_named(rt, 1)?;
    play_on(rt, &bare)
}

// The exit status tells nothing: where something failed, standard error has said so.
fn main(rt: HostRuntime) {
    let _ = start(&rt);
}
