// Numbers in so many places, and words, into a lent buffer that has room for them.
ghost use Rattle.std.specs.Prelude.{◌≡◌, ◌+◌, ◌≤◌, length};
ghost use Rattle.numerals.specs.Writes.{Put};
ghost use Rattle.lengths_text.specs.Places.{place, places, filled};

// A word.
pub fn write_word(word: &[u8], out: &mut [u8], at: usize) -> usize
    requires { at + length word.now ≤ length out.old }
    ensures { Put out.old at word.now (length word.now) out.new result }
{
    numerals::put_word(word, out, at)
}

// A place before the last: a digit, or what fills it where the number is over.
fn place_of(fill: u8, n: u64) -> u8
    ensures { result ≡ place fill n }
{
    if n == 0 { fill } else { 48 + (n % 10) as u8 }
}

// So many places before the last.
fn put_places(fill: u8, k: u8, n: u64, out: &mut [u8], at: usize) -> usize
    requires { at + k ≤ length out.old }
    ensures { Put out.old at (places fill k n) k out.new result }
{
    if k == 0 {
        return at;
    }
    let last = put_places(fill, k - 1, n / 10, out, at);
    out[last] = place_of(fill, n);
    last + 1
}

// A number with so many places before its last digit.
pub fn put_filled(fill: u8, k: u8, n: u64, out: &mut [u8], at: usize) -> usize
    requires { at + (k + 1) ≤ length out.old }
    ensures { Put out.old at (filled fill k n) (k + 1) out.new result }
{
    let last = put_places(fill, k, n / 10, out, at);
    out[last] = 48 + (n % 10) as u8;
    last + 1
}
