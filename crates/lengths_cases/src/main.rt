// Asks for the lengths of every headway of 119 to 601 s with the six speeds and another, and of odd numbers. A line for each pair: headway and speed asked
// for, answer, headway and speed of the record, and of each table the bits of its length and the length in metres with millimetres.
#![tactic(auto)]

use console::Reported;

// The bits of a length; 0 where it is no number below a million.
fn bits(x: f64) -> u64 {
    if x < 1000000.0 {
        return f64::to_bits(x);
    }
    0
}

// A number, after a space.
fn put(rt: &HostRuntime, n: u32) -> Result<(), Reported> {
    console::print_value(rt, format_args!(" {n}"))
}

// A length: its bits, metres and millimetres.
fn put_length(rt: &HostRuntime, x: f64) -> Result<(), Reported> {
    let bits = bits(x);
    let mm = block_lengths::millimetres(x);
    let metres = mm / 1000;
    let rest = mm % 1000;
    console::print_value(rt, format_args!(" {bits:016x} {metres}.{rest:03}"))
}

// A line.
fn line(rt: &HostRuntime, headway: u32, speed: u32) -> Result<(), Reported> {
    let a = block_lengths::hiruketawha_lengths(headway, speed);
    console::print_value(rt, headway)?;
    put(rt, speed)?;
    put(rt, u32::from(a.number))?;
    put(rt, a.lengths.headway)?;
    put(rt, a.lengths.speed)?;
    put_length(rt, a.lengths.plain)?;
    put_length(rt, a.lengths.stopping)?;
    console::print(rt, b"\n")
}

// The six speeds, and one that is none of them.
fn lines(rt: &HostRuntime, headway: u32) -> Result<(), Reported> {
    for speed in [70, 90, 100, 130, 160, 200, 201] {
        line(rt, headway, speed)?;
    }
    Ok(())
}

// Headways and speeds far out of the tables.
fn odd_lines(rt: &HostRuntime) -> Result<(), Reported> {
    lines(rt, 0)?;
    lines(rt, 65536)?;
    lines(rt, 4294967295)?;
    line(rt, 120, 0)?;
    line(rt, 120, 69)?;
    line(rt, 600, 326)?;
    line(rt, 600, 65606)?;
    line(rt, 600, 4294967295)?;
    line(rt, 4294967295, 4294967295)
}

// All lines.
fn run(rt: &HostRuntime) -> Result<(), Reported> {
    for headway in 119u32..=601 {
        lines(rt, headway)?;
    }
    odd_lines(rt)
}

// What failed was said on standard error: the exit status stays 0.
fn main(rt: HostRuntime) {
    let _ = run(&rt);
}
