// The bytes of blocks, line by line.
ghost use Rattle.std.specs.Prelude.{◌≡◌, ◌+◌, ◌*◌, ◌≤◌, length};
ghost use Rattle.laws.specs.Tables.{join};
ghost use Rattle.panel.specs.Panel.{blocks, line_bytes};
ghost use Rattle.panel.specs.Writes.{Wrote, block_by, line_by};

use signals::{Secured, block_shown};
use tables::{Tables, direction_of, held_at, line_placed};
use track::codes::{A_TO_B, B_TO_A};
use track::sizes::LINES;
use track::{Line, line_at};

// The three bytes of block i of line l, which is secured so: its stage, its signal for A to B, its signal for B to A.
fn put_block(t: Tables, s: Secured, l: u8, i: u8, buffer: &mut [u8], at: usize) -> usize
    requires { at + 3 ≤ length buffer.old }
    ensures { Wrote buffer.old at (block_by t.entry.stage.now t.entry.bar.now s.blocks s.way s.placed l i) buffer.new result }
{
    let stage = held_at(t.stage, l, i);
    let ab = block_shown(t, s, l, i, A_TO_B);
    let ba = block_shown(t, s, l, i, B_TO_A);
    buffer[at] = stage;
    buffer[at + 1] = ab;
    buffer[at + 2] = ba;
    at + 3
}

// The bytes of the blocks of line l, which is secured so.
fn put_blocks(t: Tables, s: Secured, l: u8, buffer: &mut [u8], at: usize) -> usize
    requires { at + 3 * s.blocks ≤ length buffer.old }
    ensures { Wrote buffer.old at (join s.blocks (block_by t.entry.stage.now t.entry.bar.now s.blocks s.way s.placed l)) buffer.new result }
{
    let mut next = at;
    for i in 0..s.blocks {
        next = put_block(t, s, l, i, buffer, next);
    }
    next
}

// The bytes of line l, which is b.
fn put_line(b: Line, t: Tables, l: u8, buffer: &mut [u8], at: usize) -> usize
    requires { at + 3 * b.blocks ≤ length buffer.old }
    ensures { Wrote buffer.old at (line_by b t.entry.direction.now t.entry.point.now t.entry.stage.now t.entry.bar.now l) buffer.new result }
{
    let s = Secured {
        blocks: b.blocks,
        way: direction_of(t.direction, l),
        placed: line_placed(t.point, b),
    };
    put_blocks(t, s, l, buffer, at)
}

// The bytes of the blocks of n lines, line by line.
pub fn put_lines<'a>(
    n: u8,
    ls: &'a [Line; LINES],
    t: Tables<'a>,
    buffer: &mut [u8],
    at: usize,
) -> usize
    requires { at + 3 * blocks n ls.now ≤ length buffer.old }
    ensures { Wrote buffer.old at (join n (line_bytes ls.now t.entry.direction.now t.entry.point.now t.entry.stage.now t.entry.bar.now)) buffer.new result }
{
    let mut next = at;
    for l in 0..n {
        next = put_line(line_at(ls, l), t, l, buffer, next);
    }
    next
}

// How many blocks n lines have.
pub fn count_blocks(n: u8, ls: &[Line; LINES]) -> usize
    ensures { (result ≡ blocks n ls.now) × (result ≤ 255 * n) }
{
    let mut count: usize = 0;
    for l in 0..n {
        count += line_at(ls, l).blocks as usize;
    }
    count
}
