// What the programs need of the system: the arguments as bytes, files to read, the standard output and the standard error.
//
// A call that fails says on standard error what failed and why, in a line `WHAT: REASON`, and answers `Err(Reported)`. So a program only hands that on, to
// `main`, which ends. That a line could not be said on standard error is said nowhere.
#![tactic(auto)]

ghost use Rattle.std.specs.Prelude.{◌≡◌, ◌<◌, ◌≤◌, length, take, Ok, IfOk, OnErr, IsErr, IfSome};
ghost use Rattle.std.specs.Io.{ReadsAtMost};
ghost use Rattle.std.specs.Io.KnownBytes.{Consumes, IsAtEnd, ReadConsumes};

use std::env::{Env, FillError};
use std::fmt::Display;
use std::fs::File;
use std::io;
use std::io::{ErrorKind, Read};

// Something failed, which was said on standard error.
#[derive(Clone, Copy, Debug, PartialEq, Eq)]
pub struct Reported;

// Says bytes on standard error.
pub fn tell(rt: &HostRuntime, bytes: &[u8]) {
    let _ = rt.stderr().write_all(bytes);
}

// Says a value on standard error as `{}` writes it, a number in decimal.
pub fn tell_value<D: Display + Drop>(rt: &HostRuntime, value: D) {
    let _ = rt.eprint(value);
}

// Says what failed and why, in a line on standard error. The reason is in the system's words, without the number that it has for it.
pub fn fail(rt: &HostRuntime, what: &[u8], error: &io::Error) -> Reported {
    tell(rt, what);
    tell(rt, b": ");
    match format!(in rt.alloc(); "{error}") {
        Ok(text) => {
            let reason = text.split(" (os error ").next().unwrap_or("");
            tell(rt, reason.as_bytes());
        }
        Err(_) => tell(rt, b"Cannot allocate memory"),
    }
    tell(rt, b"\n");
    Reported
}

// What a call answered; where it failed, that is said.
fn or_told<T: Drop>(rt: &HostRuntime, what: &[u8], answer: io::Result<T>) -> Result<T, Reported>
    ensures ok { IfOk answer (λ value. result ≡ Ok value) }
    ensures err { OnErr answer (IsErr result) }
{
    match answer {
        Ok(value) => Ok(value),
        Err(error) => Err(fail(rt, what, &error)),
    }
}

// Writes bytes to standard output.
pub fn print(rt: &HostRuntime, bytes: &[u8]) -> Result<(), Reported> {
    or_told(rt, b"standard output", rt.write_all(bytes))
}

// Writes a value to standard output as `{}` does, a number in decimal.
pub fn print_value<D: Display + Drop>(rt: &HostRuntime, value: D) -> Result<(), Reported> {
    or_told(rt, b"standard output", rt.print(value))
}

// Puts argument `i`, where 0 is the program's own name, at the start of `room` and answers its bytes there; none where it is missing, or longer than `room`.
pub fn argument<'a>(rt: &HostRuntime, i: usize, room: &'a mut [u8]) -> Option<&'a [u8]>
    ensures { IfSome result (λ word. length word.now ≤ length room.old) }
{
    match rt.arg(i, room) {
        Ok(n) => Some(&room[..n]),
        Err(_) => None,
    }
}

// How many arguments there are, the program's own name among them.
pub fn argument_count(rt: &HostRuntime) -> usize {
    for i in 0..usize::MAX {
        if let Err(FillError::NotPresent) = rt.arg(i, &mut []) {
            return i;
        }
    }
    usize::MAX
}

// Opens a file to read. A name that is not UTF-8 has no file.
pub fn open(rt: &HostRuntime, path: &[u8]) -> Result<File, Reported> {
    let opened = match std::str::from_utf8(path) {
        Ok(name) => File::open(rt, name),
        Err(_) => Err(io::Error::new(ErrorKind::InvalidFilename, "the name is not UTF-8")),
    };
    or_told(rt, path, opened)
}

// One read to the start of `buf`; 0 is the file's end. Of a reader whose bytes are known they are the next ones.
pub fn read<R: Read>(
    rt: &HostRuntime,
    file: &mut R,
    path: &[u8],
    buf: &mut [u8],
) -> Result<usize, Reported>
    ensures bound { ReadsAtMost result buf.new }
    ensures bytes { ReadConsumes (R.remaining file.old) (R.remaining file.new) result buf.new }
{
    or_told(rt, path, file.read(buf))
}

// Reads until `buf` is full or the file ends; how many bytes it put at the start of `buf`.
pub fn fill<R: Read>(
    rt: &HostRuntime,
    file: &mut R,
    path: &[u8],
    buf: &mut [u8],
) -> Result<usize, Reported>
    ensures bound { ReadsAtMost result buf.new }
    ensures bytes { IfOk result (λ n. Consumes (R.remaining file.old) (R.remaining file.new) (take n buf.new)) }
    ensures end { IfOk result (λ n. n < length buf.new → IsAtEnd (R.remaining file.new)) }
{
    let mut done = 0;
    // The place moves by as many bytes as a read gave, so no `for` counts it.
    while done < buf.len() {
        let n = read(rt, file, path, &mut buf[done..])?;
        if n == 0 {
            return Ok(done);
        }
        done += n;
    }
    Ok(done)
}

#[cfg(test)]
mod tests {
    use super::*;

    // Gives a byte a read, so many, and then fails.
    #[derive(Drop)]
    struct Failing(u8);

    impl Read for Failing {
        fn read(&mut self, buf: &mut [u8]) -> io::Result<usize> {
            if self.0 == 0 || buf.is_empty() {
                return Err(io::Error::from(ErrorKind::NotFound));
            }
            self.0 -= 1;
            buf[0] = b'x';
            Ok(1)
        }
    }

    #[test]
    fn fill_goes_on_to_the_end(rt: HostRuntime) {
        let mut text: &[u8] = b"abcde";
        let mut buf = [0u8; 3];
        assert_eq!(rt; fill(&rt, &mut text, b"text", &mut buf), Ok(3));
        assert_eq!(rt; buf, *b"abc");
        assert_eq!(rt; fill(&rt, &mut text, b"text", &mut buf), Ok(2));
        assert_eq!(rt; buf, *b"dec");
        assert_eq!(rt; fill(&rt, &mut text, b"text", &mut buf), Ok(0));
    }

    #[test]
    fn fill_answers_a_read_that_fails(rt: HostRuntime) {
        let mut buf = [0u8; 3];
        assert_eq!(rt; fill(&rt, &mut Failing(3), b"text", &mut buf), Ok(3));
        assert_eq!(rt;
            fill(&rt, &mut Failing(2), b"text", &mut buf),
            Err(Reported)
        );
    }

    #[test]
    fn a_file_that_is_missing_is_said(rt: HostRuntime) {
        assert!(rt; open(&rt, b"no-such-file").is_err());
        assert!(rt; open(&rt, b"no-such-file-\xff").is_err());
    }
}
