// Numbers that a person writes, in the number form of section 2 and back:
//   packed pack TEXT             the bytes of the numbers of a text: decimal, spaces, commas and line ends between, `#` to the line's end
//   packed unpack FILE [COUNT]   the numbers of a file as text, so many in a line, one where that is not said
// The file is read twice, first only to see that it can be read to its end: where it cannot, nothing is printed. It may be of any length.
#![tactic(auto)]

mod packing;
mod unpacking;

use console::Reported;

// How the program is called.
fn usage(rt: &HostRuntime) {
    console::tell(
        rt,
        b"usage: packed pack TEXT\n       packed unpack FILE [COUNT]\n",
    );
}

// Writes the first n bytes, as far as there are so many, where that is asked for.
fn written(rt: &HostRuntime, out: &[u8], n: usize, writes: bool) -> Result<(), Reported> {
    if !writes {
        return Ok(());
    }
    console::print(rt, &out[..n.min(out.len())])
}

// A text in the number form, once it is seen that each of its words is a number.
fn pack(rt: &HostRuntime, path: &[u8]) -> Result<(), Reported> {
    packing::pack_file(rt, path, false)?;
    packing::pack_file(rt, path, true)
}

// A file as text, so many numbers in a line, once it is seen that it holds nothing but whole numbers.
fn unpack(rt: &HostRuntime, path: &[u8], per: u64) -> Result<(), Reported> {
    unpacking::unpack_file(rt, path, per, false)?;
    unpacking::unpack_file(rt, path, per, true)
}

// How many numbers a line has: one where no word says it, and none told where the word is no number from 1 on.
fn per_line(word: &[u8]) -> Option<u64> {
    if word.is_empty() {
        return Some(1);
    }
    let mut out = [0u8; 4096];
    let reader = number_text::pack_piece(number_text::start(), word, &mut out).reader;
    if reader.doing == 1 && (1..=65535).contains(&reader.value) {
        return Some(reader.value);
    }
    None
}

// The command with its file.
fn run(rt: &HostRuntime, command: &[u8], path: &[u8], count: &[u8]) -> Result<(), Reported> {
    match (command, per_line(count)) {
        (b"unpack", Some(per)) => unpack(rt, path, per),
        (b"pack", _) if count.is_empty() => pack(rt, path),
        _ => {
            usage(rt);
            Ok(())
        }
    }
}

// The command, the file and the count, by the arguments.
fn with_arguments(rt: &HostRuntime) -> Result<(), Reported> {
    let mut command = [0u8; 4096];
    let mut path = [0u8; 4096];
    let mut count = [0u8; 4096];
    if let (Some(command), Some(path)) = (
        console::argument(rt, 1, &mut command),
        console::argument(rt, 2, &mut path),
    ) {
        let count = console::argument(rt, 3, &mut count).unwrap_or(b"");
        return run(rt, command, path, count);
    }
    usage(rt);
    Ok(())
}

// What failed was said on standard error, by which `./packed` goes: the exit status stays 0.
fn main(rt: HostRuntime) {
    let _ = with_arguments(&rt);
}
