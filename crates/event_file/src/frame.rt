// What stands before the lines of the events and after them: the header or the cold start's line, and the line of a file's fault.
ghost use Rattle.std.specs.Prelude.{◌≡◌, true, ◌≤◌, length};
ghost use Rattle.interlocking.specs.State.{cold};
ghost use Rattle.event_file.specs.Lines.{shown, line_of, most_line};
ghost use Rattle.event_file.specs.List.{header, fault_line, most_fault, fault_in, opening_in};
ghost use Rattle.event_file.specs.Files.{word_of};
ghost use Rattle.numerals.specs.Writes.{Put};

use crate::{lines, pieces};
use interlocking::State;
use layout::Layout;

// The files that the program reads, each with a word that begins the line of its fault.
#[derive(Clone, Copy, Debug, PartialEq, Eq)]
pub enum FileKind {
    // A layout file.
    Layout,
    // A file of fitted sections (request L1).
    Fitted,
    // An event file.
    Events,
}

// The header.
fn put_header(out: &mut [u8]) -> usize
    requires { 20 ≤ length out.old }
    ensures { Put out.old 0 header 20 out.new result }
{
    numerals::put_word(b"event answer detail\n", out, 0)
}

// The line of the cold start with its panel.
fn put_cold(layout: &Layout, out: &mut [u8]) -> usize
    requires { most_line true ≤ length out.old }
    ensures { Put out.old 0 (line_of true (shown layout.now cold) 0 0 0) (most_line true) out.new result }
{
    let state = State::cold();
    let mut image = [0u8; 512];
    let drawn = panel::panel(&state, layout, &mut image);
    lines::put_image_line(&image, drawn.length, 0, 0, 0, out, 0)
}

// What stands before the first event, where the buffer has room for a line.
pub fn opening_line(panel: bool, layout: &Layout, out: &mut [u8]) -> usize
    ensures { Put out.old 0 (opening_in (length out.old) panel layout.now) (most_line panel) out.new result }
{
    if out.len() < pieces::most_line(panel) {
        return 0;
    }
    if panel {
        put_cold(layout, out)
    } else {
        put_header(out)
    }
}

// A word of seven bytes with an answer and its detail.
fn put_fault(word: &[u8], number: u64, detail: u64, out: &mut [u8]) -> usize
    requires { (length word.now ≡ 7) × (most_fault ≤ length out.old) }
    ensures { Put out.old 0 (fault_line word.now number detail) most_fault out.new result }
{
    let after = numerals::put_word(word, out, 0);
    let end = lines::put_two(number, detail, out, after);
    out[end] = 10;
    end + 1
}

// The line of a file's fault, where the buffer has room for it.
pub fn fault_line(kind: FileKind, number: u64, detail: u64, out: &mut [u8]) -> usize
    ensures { Put out.old 0 (fault_in (length out.old) (word_of kind) number detail) most_fault out.new result }
{
    if out.len() < 49 {
        return 0;
    }
    match kind {
        FileKind::Layout => put_fault(b"layout ", number, detail, out),
        FileKind::Fitted => put_fault(b"fitted ", number, detail, out),
        FileKind::Events => put_fault(b"events ", number, detail, out),
    }
}
