// The file of fitted sections (request L1): its numbers are told one after another, a piece of the file at a time.
use crate::files::Source;
use console::Reported;
use fitted::{End, Told};

// Where a file is broken: the fault's number, 21 or 22, and its place.
#[derive(Clone, Copy)]
pub struct Broken {
    pub number: u8,
    pub place: usize,
}

// All numbers of the file, or where it is broken. A loop that is proved has to end, so this one counts its turns up to a number that no file uses up.
pub fn tell_all(
    rt: &HostRuntime,
    source: &mut Source,
    sections: u8,
    buf: &mut [u8],
) -> Result<Result<Told, Broken>, Reported> {
    let mut told = fitted::none_told();
    let mut left = 0;
    let mut before: usize = 0;
    for _ in 0..u64::MAX {
        let held = source.read_on(rt, buf, left)?;
        let have = held.have.min(buf.len());
        let p = fitted::tell_piece(sections, told, &buf[..have], 0, held.last);
        told = p.told;
        match p.end {
            End::Later { at } => {
                left = event_file::bring_rest(buf, at, have);
                before = before.saturating_add(at);
            }
            End::AtEnd { at: _ } => return Ok(Ok(told)),
            End::Bad { fault } => {
                return Ok(Err(Broken {
                    number: fault.number(),
                    place: before.saturating_add(fault.detail()),
                }));
            }
        }
    }
    Ok(Ok(told))
}
