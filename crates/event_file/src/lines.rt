// Lines of text into a lent buffer.
ghost use Rattle.std.specs.Prelude.{true, [], ◌∷◌, ◌++◌, ◌+◌, ◌*◌, ◌≤◌, length};
ghost use Rattle.interlocking.specs.Parts.{bare};
ghost use Rattle.event_file.specs.Lines.{space, line_end, stroke, two_numbers, three_numbers, after_space, spaced, shown_in_run, line_of, most_line};
ghost use Rattle.event_file.specs.Writes.{image_line};
ghost use Rattle.numerals.specs.Digits.{decimal_digits};
ghost use Rattle.numerals.specs.Writes.{Put};

use interlocking::Core;
use layout::Layout;

// A number in decimal, where the buffer has room for so many places.
fn put_digits(places: u8, n: u64, out: &mut [u8], at: usize) -> usize
    requires { at + places ≤ length out.old }
    ensures { Put out.old at (decimal_digits places n) places out.new result }
{
    numerals::put_digits(places, n, out, at)
}

// put_two and put_three stay two: three numbers are one and two (`three_numbers`), and a loop over a slice of them would be no shorter.
// Two numbers with a space between.
pub fn put_two(a: u64, b: u64, out: &mut [u8], at: usize) -> usize
    requires { at + 41 ≤ length out.old }
    ensures { Put out.old at (two_numbers a b) 41 out.new result }
{
    let between = put_digits(20, a, out, at);
    out[between] = 32;
    put_digits(20, b, out, between + 1)
}

// Three numbers with a space between.
pub fn put_three(a: u64, b: u64, c: u64, out: &mut [u8], at: usize) -> usize
    requires { at + 62 ≤ length out.old }
    ensures { Put out.old at (three_numbers a b c) 62 out.new result }
{
    let between = put_digits(20, a, out, at);
    out[between] = 32;
    put_two(b, c, out, between + 1)
}

// A byte after a space.
fn put_spaced(byte: u8, out: &mut [u8], at: usize) -> usize
    requires { at + 4 ≤ length out.old }
    ensures { Put out.old at (after_space byte) 4 out.new result }
{
    out[at] = 32;
    put_digits(3, byte as u64, out, at + 1)
}

// The first n bytes of a panel, each after a space.
fn put_bytes(bytes: &[u8], n: usize, out: &mut [u8], at: usize) -> usize
    requires { (n ≤ length bytes.now) × (at + 4 * n ≤ length out.old) }
    ensures { Put out.old at (spaced n bytes.now) (4 * n) out.new result }
{
    let mut next = at;
    for i in 0..n {
        next = put_spaced(bytes[i], out, next);
    }
    next
}

// The first n bytes of a panel image, after a space and a stroke.
fn put_image(image: &[u8; 512], n: usize, out: &mut [u8], at: usize) -> usize
    requires { (n ≤ 512) × (at + 2050 ≤ length out.old) }
    ensures { Put out.old at ((space ∷ stroke ∷ []) ++ spaced n image.now) 2050 out.new result }
{
    out[at] = 32;
    out[at + 1] = 124;
    put_bytes(image, n, out, at + 2)
}

// A line without the panel: event number, answer and detail.
pub fn put_line(n: u64, answer: u8, detail: u32, out: &mut [u8], at: usize) -> usize
    requires { at + 63 ≤ length out.old }
    ensures { Put out.old at (three_numbers n answer detail ++ (line_end ∷ [])) 63 out.new result }
{
    let end = put_three(n, answer as u64, detail as u64, out, at);
    out[end] = 10;
    end + 1
}

// A line with the first k bytes of a panel image.
pub fn put_image_line(
    image: &[u8; 512],
    k: usize,
    n: u64,
    answer: u8,
    detail: u32,
    out: &mut [u8],
    at: usize,
) -> usize
    requires { (k ≤ 512) × (at + most_line true ≤ length out.old) }
    ensures { Put out.old at (image_line k image.now n answer detail) (most_line true) out.new result }
{
    let before = put_three(n, answer as u64, detail as u64, out, at);
    let end = put_image(image, k, out, before);
    out[end] = 10;
    end + 1
}

// A line with the panel of the tables then, in a run that asked soundness before its first event.
pub fn put_panel_line(
    layout: &Layout,
    core: Core,
    n: u64,
    answer: u8,
    detail: u32,
    out: &mut [u8],
    at: usize,
) -> usize
    requires { at + most_line true ≤ length out.old }
    ensures { Put out.old at (line_of true (shown_in_run layout.now (bare core)) n answer detail) (most_line true) out.new result }
{
    let mut image = [0u8; 512];
    let drawn = panel::panel_in_run(&core, layout, &mut image);
    put_image_line(&image, drawn.length, n, answer, detail, out, at)
}
