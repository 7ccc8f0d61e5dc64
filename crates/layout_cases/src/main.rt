// Loads each file of the archive `layouts`, where two bytes, lowest first, say how long the next file is, and writes answer and detail.
#![tactic(auto)]

use console::Reported;
use std::fs::File;

// The archive's name.
const ARCHIVE: &[u8] = b"layouts";

// Writes what loading a file answers.
fn show(rt: &HostRuntime, file: &[u8]) -> Result<(), Reported> {
    let (number, detail) = match layout::load(file) {
        Ok(_) => (0, 0),
        Err(fault) => (fault.number(), fault.detail()),
    };
    console::print_value(rt, format_args!("{number} {detail}\n"))
}

// Shows the next file of the archive, and answers whether there was one that is whole.
fn show_next(rt: &HostRuntime, archive: &mut File) -> Result<bool, Reported> {
    let mut head = [0u8; 2];
    if console::fill(rt, archive, ARCHIVE, &mut head)? < 2 {
        return Ok(false);
    }
    let n = u16::from_le_bytes(head) as usize;
    let mut room = [0u8; 65536];
    if console::fill(rt, archive, ARCHIVE, &mut room[..n])? < n {
        return Ok(false);
    }
    show(rt, &room[..n])?;
    Ok(true)
}

// A loop that is proved has to end, so this one has more turns than any archive uses up.
fn show_all(rt: &HostRuntime, archive: &mut File) -> Result<(), Reported> {
    for _ in 0..u64::MAX {
        if !show_next(rt, archive)? {
            break;
        }
    }
    Ok(())
}

// Every file of the archive `layouts`.
fn run(rt: &HostRuntime) -> Result<(), Reported> {
    let mut archive = console::open(rt, ARCHIVE)?;
    show_all(rt, &mut archive)
}

// What failed was said on standard error: the exit status stays 0.
fn main(rt: HostRuntime) {
    let _ = run(&rt);
}
