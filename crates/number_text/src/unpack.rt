// The number form into text.
ghost use Rattle.std.specs.Prelude.{◌≡◌, ◌+◌, ◌/◌, ◌≤◌, length};
ghost use Rattle.numerals.specs.Writes.{Put};
ghost use Rattle.numbers.specs.Given.{given};
ghost use Rattle.number_text.specs.Lines.{next_column, before, behind, number_text, onward, turn_of, unpacked};
ghost use Rattle.number_text.specs.Pieces.{in_numbers, held, Went};

use numbers::{Fault, Given};

// A piece of a file was read: how many numbers stand in the last line, how many bytes of text were written, and the next number's place, or the fault
// there: the piece ends, or a bad number.
#[derive(Clone, Copy)]
pub struct Unpacked {
    pub column: u64,
    pub written: usize,
    pub next: Result<usize, Fault>,
}

// How many numbers stand in the line after one more.
#[tactic(auto, using(crate::proofs::Decided::decided), unfolding(crate::specs::Lines::next_column))]
fn next_column(per: u64, column: u64) -> u64
    ensures { result ≡ next_column per column }
{
    let next = column.saturating_add(1);
    if next < per { next } else { 0 }
}

// put_before and put_behind stay two: each is a definition of its own, and one function of a test and a byte would say neither.
// The space before a number.
fn put_before(column: u64, out: &mut [u8], at: usize) -> usize
    requires { at + 1 ≤ length out.old }
    ensures { Put out.old at (before column) 1 out.new result }
{
    if column == 0 {
        return at;
    }
    out[at] = 32;
    at + 1
}

// The line's end after a number.
fn put_behind(column: u64, out: &mut [u8], at: usize) -> usize
    requires { at + 1 ≤ length out.old }
    ensures { Put out.old at (behind column) 1 out.new result }
{
    if column != 0 {
        return at;
    }
    out[at] = 10;
    at + 1
}

// A number.
fn put_number(per: u64, column: u64, n: u64, out: &mut [u8], at: usize) -> usize
    requires { at + 7 ≤ length out.old }
    ensures { Put out.old at (number_text per column n) 7 out.new result }
{
    let from = put_before(column, out, at);
    let end = numerals::put_digits(5, n, out, from);
    put_behind(next_column(per, column), out, end)
}

// What stands at the next place.
fn go_on(per: u64, p: Unpacked, n: Result<Given, Fault>, out: &mut [u8]) -> Unpacked
    requires { p.written + 7 ≤ length out.old }
    ensures { Went out.old p.written 7 out.new (in_numbers result) (onward per (held (in_numbers p)) (given n)) }
{
    match n {
        Ok(number) => {
            let written = put_number(per, p.column, number.value, out, p.written);
            Unpacked {
                column: next_column(per, p.column),
                written,
                next: Ok(number.next),
            }
        }
        Err(fault) => Unpacked {
            next: Err(fault),
            ..p
        },
    }
}

// One number, where there was no fault before.
fn turn(per: u64, p: Unpacked, bytes: &[u8], out: &mut [u8]) -> Unpacked
    requires { p.written + 7 ≤ length out.old }
    ensures { Went out.old p.written 7 out.new (in_numbers result) (turn_of per bytes.now (held (in_numbers p))) }
{
    match p.next {
        Ok(at) => {
            let n = numbers::read(bytes, at);
            go_on(per, p, n, out)
        }
        Err(_) => p,
    }
}

// As many numbers of a piece as there is room for the text of, seven bytes for each, with so many numbers in a line.
pub fn unpack_piece(per: u64, column: u64, bytes: &[u8], at: usize, out: &mut [u8]) -> Unpacked
    ensures { Went out.old 0 (length out.old) out.new (in_numbers result) (unpacked (length out.old / 7) per bytes.now column at) }
{
    let mut p = Unpacked {
        column,
        written: 0,
        next: Ok(at),
    };
    for _ in 0..out.len() / 7 {
        p = turn(per, p, bytes, out);
    }
    p
}
