// A file in the number form into text.
use crate::written;
use console::Reported;
use std::fs::File;
use std::io;
use std::io::ErrorKind;

// Where the walk over a file stands: how many numbers stand in the last line, how many of the buffer's bytes are read, how many it holds, and how
// many the file had before them.
#[derive(Clone, Copy)]
struct Walk {
    column: u64,
    at: usize,
    have: usize,
    before: usize,
}

// Says what is wrong at a byte of the file.
fn tell(rt: &HostRuntime, path: &[u8], number: u8, place: usize) -> Reported {
    console::tell(rt, path);
    console::tell(rt, b": byte ");
    console::tell_value(rt, place);
    if number == 21 {
        console::tell(rt, b": 21, the file ends inside a number\n");
    } else {
        console::tell(rt, b": 22, a number badly formed or above 65535\n");
    }
    Reported
}

// The bytes from a place to another are brought to the front, as far as there are so many.
fn bring_rest(buf: &mut [u8], at: usize, end: usize) {
    for from in at..end.min(buf.len()) {
        buf[from - at] = buf[from];
    }
}

// The file ended: the last line is ended, or a number was cut.
fn last_line(rt: &HostRuntime, path: &[u8], w: Walk, writes: bool) -> Result<(), Reported> {
    if w.at < w.have {
        return Err(tell(rt, path, 21, w.before.saturating_add(w.at)));
    }
    if w.column == 0 {
        return Ok(());
    }
    written(rt, b"\n", 1, writes)
}

// More of the file is read behind what is left of the piece, or the file ended.
fn read_on(
    rt: &HostRuntime,
    file: &mut File,
    path: &[u8],
    w: Walk,
    buf: &mut [u8],
    writes: bool,
) -> Result<Option<Walk>, Reported> {
    let rest = w.have.saturating_sub(w.at).min(buf.len());
    bring_rest(buf, w.at, w.have);
    let more = console::read(rt, file, path, &mut buf[rest..])?;
    if more == 0 {
        last_line(rt, path, w, writes)?;
        return Ok(None);
    }
    Ok(Some(Walk {
        column: w.column,
        at: 0,
        have: rest.saturating_add(more),
        before: w.before.saturating_add(w.at),
    }))
}

// The numbers of the buffer for which there is room to write, and then more of the file.
fn walk_on(
    rt: &HostRuntime,
    file: &mut File,
    path: &[u8],
    per: u64,
    w: Walk,
    buf: &mut [u8],
    writes: bool,
) -> Result<Option<Walk>, Reported> {
    let mut out = [0u8; 65536];
    let have = w.have.min(buf.len());
    let p = number_text::unpack_piece(per, w.column, &buf[..have], w.at, &mut out);
    written(rt, &out, p.written, writes)?;
    let column = p.column;
    match p.next {
        Ok(at) => Ok(Some(Walk {
            column,
            at,
            have,
            ..w
        })),
        Err(fault) if fault.number() == 21 => {
            let next = Walk {
                column,
                at: fault.detail(),
                have,
                ..w
            };
            read_on(rt, file, path, next, buf, writes)
        }
        Err(fault) => {
            let place = w.before.saturating_add(fault.detail());
            Err(tell(rt, path, fault.number(), place))
        }
    }
}

// The whole file. A loop that is proved has to end, so this one has more turns than any file uses up.
fn walk_all(
    rt: &HostRuntime,
    file: &mut File,
    path: &[u8],
    per: u64,
    writes: bool,
) -> Result<(), Reported> {
    let mut buf = [0u8; 65536];
    let mut w = Walk {
        column: 0,
        at: 0,
        have: 0,
        before: 0,
    };
    for _ in 0..u64::MAX {
        match walk_on(rt, file, path, per, w, &mut buf, writes)? {
            Some(next) => w = next,
            None => return Ok(()),
        }
    }
    Err(console::fail(rt, path, &io::Error::from(ErrorKind::FileTooLarge)))
}

// Reads a file to its end, printing its numbers where that is asked for.
pub fn unpack_file(rt: &HostRuntime, path: &[u8], per: u64, writes: bool) -> Result<(), Reported> {
    let mut file = console::open(rt, path)?;
    walk_all(rt, &mut file, path, per, writes)
}
