// Text written into a lent buffer: numbers in decimal, and words.
#![tactic(auto)]

ghost use Rattle.std.specs.Prelude.{◌+◌, ◌≤◌, length};
ghost use Rattle.numerals.specs.Digits.{decimal_digits, fitting};
ghost use Rattle.numerals.specs.Writes.{Put};

// A number in decimal, in so many places at most, from a place on; the place after it.
fn write_digits(places: u8, n: u64, out: &mut [u8], at: usize) -> usize
    requires { at + places ≤ length out.old }
    ensures { Put out.old at (decimal_digits places n) places out.new result }
{
    if places == 0 {
        return at;
    }
    if n < 10 {
        out[at] = b'0' + n as u8;
        return at + 1;
    }
    let last = write_digits(places - 1, n / 10, out, at);
    out[last] = b'0' + (n % 10) as u8;
    last + 1
}

// The same where the buffer has room for so many places, and nothing where it has not.
pub fn put_digits(places: u8, n: u64, out: &mut [u8], at: usize) -> usize
    ensures { Put out.old at (fitting (length out.old) at places (decimal_digits places n)) places out.new result }
{
    if out.len() < at {
        return at;
    }
    if out.len() - at < places as usize {
        return at;
    }
    write_digits(places, n, out, at)
}

// The bytes of a word, from a place on; the place after them.
#[tactic(auto, using(crate::proofs::Words::word_put))]
fn write_word(word: &[u8], out: &mut [u8], at: usize) -> usize
    requires { at + length word.now ≤ length out.old }
    ensures { Put out.old at word.now (length word.now) out.new result }
{
    let end = at + word.len();
    out[at..end].copy_from_slice(word);
    end
}

// The same where the buffer has room for the word, and nothing where it has not.
pub fn put_word(word: &[u8], out: &mut [u8], at: usize) -> usize
    ensures { Put out.old at (fitting (length out.old) at (length word.now) word.now) (length word.now) out.new result }
{
    if out.len() < at {
        return at;
    }
    if out.len() - at < word.len() {
        return at;
    }
    write_word(word, out, at)
}
