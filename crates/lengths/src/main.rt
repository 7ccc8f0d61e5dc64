// How long two blocks one after the other may be (request L13): lengths [HEADWAY SPEED]
// For a headway in seconds and a speed in km/h it prints both tables' lengths in metres with millimetres; without numbers both tables, a row for
// each minute of headway. A refusal is said on standard error, in words and with its number, in one line: `./lengths` goes by it.
#![tactic(auto)]

use console::Reported;

// Writes the first n bytes, as far as there are so many.
fn print(rt: &HostRuntime, out: &[u8], n: usize) -> Result<(), Reported> {
    console::print(rt, &out[..n.min(out.len())])
}

// Says the first n bytes on standard error, as far as there are so many.
fn tell(rt: &HostRuntime, out: &[u8], n: usize) {
    console::tell(rt, &out[..n.min(out.len())]);
}

// How the program is called.
fn usage(rt: &HostRuntime) {
    console::tell(
        rt,
        b"usage: lengths [HEADWAY SPEED], in whole seconds and km/h\n",
    );
}

// A number that is read; one above 65,535 is neither a headway nor a speed, and stays so.
fn small(n: u64) -> u32 {
    n.min(65536) as u32
}

// Both lengths, or the refusal.
fn answer(rt: &HostRuntime, headway: u32, speed: u32) -> Result<(), Reported> {
    let mut out = [0u8; 4096];
    let n = lengths_text::put_answer(headway, speed, &mut out);
    if block_lengths::lengths(headway, speed).is_ok() {
        return print(rt, &out, n);
    }
    tell(rt, &out, n);
    Ok(())
}

// Both tables.
fn sheet(rt: &HostRuntime) -> Result<(), Reported> {
    let mut out = [0u8; 4096];
    let n = lengths_text::put_sheet(&mut out);
    print(rt, &out, n)
}

// The headway and the speed, by the two arguments.
fn with_arguments(rt: &HostRuntime, first: &[u8], second: &[u8]) -> Result<(), Reported> {
    if let (Some(headway), Some(speed)) = (
        number_text::read_word(first),
        number_text::read_word(second),
    ) {
        return answer(rt, small(headway), small(speed));
    }
    usage(rt);
    Ok(())
}

// With two arguments or with none.
fn run(rt: &HostRuntime) -> Result<(), Reported> {
    match console::argument_count(rt) {
        1 => return sheet(rt),
        3 => {
            let mut headway = [0u8; 4096];
            let mut speed = [0u8; 4096];
            if let (Some(headway), Some(speed)) = (
                console::argument(rt, 1, &mut headway),
                console::argument(rt, 2, &mut speed),
            ) {
                return with_arguments(rt, headway, speed);
            }
        }
        _ => {}
    }
    usage(rt);
    Ok(())
}

// What failed was said on standard error, by which `./lengths` goes: the exit status stays 0.
fn main(rt: HostRuntime) {
    let _ = run(&rt);
}
