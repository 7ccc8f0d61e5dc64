// Files, read a piece at a time.
use console::Reported;
use std::fs::File;

// An open file with its name, by which standard error tells of it.
#[derive(Drop)]
pub struct Source<'a> {
    pub path: &'a [u8],
    file: File,
}

// What a buffer holds after a read: how many bytes, and whether the file has ended.
#[derive(Clone, Copy)]
pub struct Held {
    pub have: usize,
    pub last: bool,
}

impl<'a> Source<'a> {
    // A file is opened.
    pub fn open(rt: &HostRuntime, path: &'a [u8]) -> Result<Source<'a>, Reported> {
        let file = console::open(rt, path)?;
        Ok(Source { path, file })
    }

    // One read behind the first n bytes of the buffer. A read that fails is said on standard error; one that gives nothing is the file's end.
    pub fn read_on(
        &mut self,
        rt: &HostRuntime,
        buf: &mut [u8],
        n: usize,
    ) -> Result<Held, Reported> {
        let kept = n.min(buf.len());
        let more = console::read(rt, &mut self.file, self.path, &mut buf[kept..])?;
        Ok(Held {
            have: kept.saturating_add(more),
            last: more == 0,
        })
    }

    // Reads until the buffer is full or the file ends; how many bytes there are.
    pub fn fill(&mut self, rt: &HostRuntime, buf: &mut [u8]) -> Result<usize, Reported> {
        console::fill(rt, &mut self.file, self.path, buf)
    }
}
