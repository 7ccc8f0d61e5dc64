// A text into the number form.
use crate::written;
use console::Reported;
use number_text::Reader;
use std::fs::File;
use std::io;
use std::io::ErrorKind;

// Says so many bytes of a word on standard error; a word that has no more room may go on.
fn show(rt: &HostRuntime, word: &[u8], size: usize) {
    console::tell(rt, &word[..size.min(word.len())]);
    if word.len() <= size {
        console::tell(rt, b"..");
    }
}

// Says which word of the file is no number.
fn tell(rt: &HostRuntime, path: &[u8], reader: Reader) -> Reported {
    console::tell(rt, path);
    console::tell(rt, b": line ");
    console::tell_value(rt, reader.line);
    console::tell(rt, b": ");
    show(rt, &reader.word, reader.size as usize);
    console::tell(
        rt,
        // Why a reading stopped stays a number, as `Reader` says.
        if reader.doing == 5 {
            b" is above 65535\n"
        } else {
            b" is no number\n"
        },
    );
    Reported
}

// A piece of the text, of which the buffer has room for all numbers, and how the reading stands after it.
fn walk_piece(
    rt: &HostRuntime,
    path: &[u8],
    before: Reader,
    bytes: &[u8],
    writes: bool,
) -> Result<Reader, Reported> {
    let mut out = [0u8; 65536];
    let p = number_text::pack_piece(before, bytes, &mut out);
    if p.reader.doing > 3 {
        return Err(tell(rt, path, p.reader));
    }
    written(rt, &out, p.written, writes)?;
    Ok(p.reader)
}

// The next piece of the file, with how the reading stands after it; or its end, which ends a word as a line's end does.
fn walk_on(
    rt: &HostRuntime,
    file: &mut File,
    path: &[u8],
    reader: Reader,
    writes: bool,
) -> Result<Option<Reader>, Reported> {
    let mut buf = [0u8; 4096];
    let n = console::read(rt, file, path, &mut buf)?;
    if n == 0 {
        walk_piece(rt, path, reader, b"\n", writes)?;
        return Ok(None);
    }
    Ok(Some(walk_piece(rt, path, reader, &buf[..n], writes)?))
}

// The whole file. A loop that is proved has to end, so this one has more turns than any file uses up.
fn walk_all(rt: &HostRuntime, file: &mut File, path: &[u8], writes: bool) -> Result<(), Reported> {
    let mut reader = number_text::start();
    for _ in 0..u64::MAX {
        match walk_on(rt, file, path, reader, writes)? {
            Some(next) => reader = next,
            None => return Ok(()),
        }
    }
    Err(console::fail(rt, path, &io::Error::from(ErrorKind::FileTooLarge)))
}

// Reads a text to its end, printing its numbers in the number form where that is asked for.
pub fn pack_file(rt: &HostRuntime, path: &[u8], writes: bool) -> Result<(), Reported> {
    let mut file = console::open(rt, path)?;
    walk_all(rt, &mut file, path, writes)
}
