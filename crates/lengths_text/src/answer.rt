// What is printed for a headway and a speed.
ghost use Rattle.std.specs.Prelude.{◌+◌, ◌≤◌, length};
ghost use Rattle.numerals.specs.Writes.{Put};
ghost use Rattle.block_lengths.specs.Told.{refusal_number};
ghost use Rattle.lengths_text.specs.Answer.{named, measured, lengths_text, refusal_text, most_answer, answer_in};

use crate::places;
use block_lengths::{BlockLengths, Refusal};

// A word, and a number behind it.
fn put_named(word: &[u8], n: u32, out: &mut [u8], at: usize) -> usize
    requires { at + (length word.now + 10) ≤ length out.old }
    ensures { Put out.old at (named word.now n) (length word.now + 10) out.new result }
{
    let end = places::write_word(word, out, at);
    numerals::put_digits(10, n as u64, out, end)
}

// A length in metres and millimetres, and a word behind it.
fn put_length(metres: f64, word: &[u8], out: &mut [u8], at: usize) -> usize
    requires { at + (12 + length word.now) ≤ length out.old }
    ensures { Put out.old at (measured metres word.now) (12 + length word.now) out.new result }
{
    let mm = block_lengths::millimetres(metres);
    let point = places::put_filled(32, 7, mm / 1000, out, at);
    let rest = places::write_word(b".", out, point);
    let end = places::put_filled(48, 2, mm % 1000, out, rest);
    places::write_word(word, out, end)
}

// The lengths, each with its table.
fn put_lengths(b: BlockLengths, out: &mut [u8]) -> usize
    requires { most_answer ≤ length out.old }
    ensures { Put out.old 0 (lengths_text b) most_answer out.new result }
{
    let speed = put_named(b"headway ", b.headway, out, 0);
    let rest = put_named(b" s, speed ", b.speed, out, speed);
    let plain = places::write_word(
        b" km/h: two blocks one after the other may be as long as\n",
        out,
        rest,
    );
    let stopping = put_length(
        b.plain,
        b" m where there is no stopping place (table 7.1)\n",
        out,
        plain,
    );
    put_length(
        b.stopping,
        b" m next to a stopping place and past it (table 7.2)\n",
        out,
        stopping,
    )
}

// A refusal in words, with its number.
fn put_refusal(refusal: Refusal, out: &mut [u8]) -> usize
    requires { most_answer ≤ length out.old }
    ensures { Put out.old 0 (refusal_text (refusal_number refusal)) most_answer out.new result }
{
    match refusal {
        Refusal::BadHeadway => places::write_word(
            b"28: the headway is not one of 120 to 600 seconds\n",
            out,
            0,
        ),
        Refusal::BadSpeed => places::write_word(
            b"29: the speed is none of 70, 90, 100, 130, 160 and 200 km/h\n",
            out,
            0,
        ),
    }
}

// Both lengths, or the refusal, where the buffer has room for them.
pub fn put_answer(headway: u32, speed: u32, out: &mut [u8]) -> usize
    ensures { Put out.old 0 (answer_in (length out.old) headway speed) most_answer out.new result }
{
    if out.len() < 256 {
        return 0;
    }
    match block_lengths::lengths(headway, speed) {
        Ok(lengths) => put_lengths(lengths, out),
        Err(refusal) => put_refusal(refusal, out),
    }
}
