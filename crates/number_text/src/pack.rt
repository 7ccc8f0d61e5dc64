// Text into the number form.
ghost use Rattle.std.specs.Prelude.{◌≡◌, ◌+◌, ◌≤◌, length, set};
ghost use Rattle.numbers.specs.Form.{encode_in};
ghost use Rattle.numerals.specs.Writes.{Put};
ghost use Rattle.number_text.specs.Text.{next_line, ends_word, is_digit, standing, first, next_value, next_size, in_word, refused, after_end, after_word, next, given};
ghost use Rattle.number_text.specs.Pieces.{PackedPiece};

// The largest number of the form.
const LARGEST: u64 = 65535;

// Where the reading of a text stands: the line, from 1 on; what is being read; the number so far; and the word so far, its first 32 bytes.
// 0 between words; 1 in a number; 2 in a word that is no number; 3 in a comment; and it stopped at 4 a word that is no number, 5 a number
// above the largest. `doing` stays a number: pack_piece answers for every Reader, also one of a greater number, and an enum would refuse it.
#[derive(Clone, Copy)]
pub struct Reader {
    pub line: u64,
    pub doing: u8,
    pub value: u64,
    pub size: u8,
    pub word: [u8; 32],
}

// A piece of a text was read: where the reading stands, how many bytes of the piece it took, how many bytes of numbers were written.
#[derive(Clone, Copy)]
pub struct Packed {
    pub reader: Reader,
    pub read: usize,
    pub written: usize,
}

// The line after a line.
#[tactic(auto, using(crate::proofs::Decided::decided), unfolding(crate::specs::Text::next_line))]
fn next_line(line: u64) -> u64
    ensures { result ≡ next_line line }
{
    line.saturating_add(1)
}

// A byte that no word holds: space, tab, carriage return, line end, comma, and `#`, which starts a comment.
#[tactic(auto, using(crate::proofs::Decided::decided), unfolding(crate::specs::Text::ends_word))]
fn is_end(byte: u8) -> bool
    ensures { result ≡ ends_word byte }
{
    matches!(byte, b' ' | b'\t' | b'\r' | b'\n' | b',' | b'#')
}

// A decimal digit.
#[tactic(auto, using(crate::proofs::Decided::decided), unfolding(crate::specs::Text::is_digit))]
pub fn is_digit(byte: u8) -> bool
    ensures { result ≡ is_digit byte }
{
    byte.is_ascii_digit()
}

// Nothing of a word is read.
#[tactic(auto, unfolding(crate::specs::Text::standing))]
fn stand(line: u64, doing: u8) -> Reader
    ensures { result ≡ standing line doing }
{
    Reader {
        line,
        doing,
        value: 0,
        size: 0,
        word: [0u8; 32],
    }
}

// Before the first byte of a text.
#[tactic(auto, unfolding(crate::specs::Text::first))]
pub fn start() -> Reader
    ensures { result ≡ first }
{
    stand(1, 0)
}

// The start of the next line.
fn start_line(line: u64) -> Reader
    ensures { result ≡ standing (next_line line) 0 }
{
    stand(next_line(line), 0)
}

// The number with one more digit, as far as it is not too large already.
#[tactic(auto, using(crate::proofs::Decided::decided), unfolding(crate::specs::Text::next_value))]
pub fn next_value(value: u64, byte: u8) -> u64
    requires { 48 ≤ byte }
    ensures { result ≡ next_value value byte }
{
    if LARGEST < value {
        return value;
    }
    value * 10 + (byte - 48) as u64
}

// How many bytes of the word are kept.
#[tactic(auto, using(crate::proofs::Decided::decided), unfolding(crate::specs::Text::next_size))]
fn next_size(size: u8) -> u8
    ensures { result ≡ next_size size }
{
    if size < 32 {
        return size + 1;
    }
    size
}

// The word with one more byte, where there is room for it.
fn keep(mut word: [u8; 32], size: u8, byte: u8) -> [u8; 32]
    ensures { result ≡ set word size byte }
{
    if size < 32 {
        word[size as usize] = byte;
    }
    word
}

// A byte of a word.
#[tactic(auto, using(crate::proofs::Cases::words), unfolding(crate::specs::Text::in_word))]
fn take_in(s: Reader, byte: u8) -> Reader
    ensures { result ≡ in_word s byte }
{
    let size = next_size(s.size);
    let word = keep(s.word, s.size, byte);
    if s.doing < 2 && is_digit(byte) {
        return Reader {
            doing: 1,
            value: next_value(s.value, byte),
            size,
            word,
            ..s
        };
    }
    Reader {
        doing: 2,
        size,
        word,
        ..s
    }
}

// The reading stops at the word that it read.
#[tactic(auto, unfolding(crate::specs::Text::refused))]
fn refuse(s: Reader, why: u8) -> Reader
    ensures { result ≡ refused s why }
{
    Reader { doing: why, ..s }
}

// After a byte that no word holds.
#[tactic(auto, using(crate::proofs::Decided::decided), unfolding(crate::specs::Text::after_end))]
fn after_end(line: u64, byte: u8) -> Reader
    ensures { result ≡ after_end line byte }
{
    match byte {
        b'\n' => start_line(line),
        b'#' => stand(line, 3),
        _ => stand(line, 0),
    }
}

// A byte that ends the word, if there is one.
#[tactic(auto, using(crate::proofs::Decided::decided), unfolding(crate::specs::Text::after_word))]
fn end_word(s: Reader, byte: u8) -> Reader
    ensures { result ≡ after_word s byte }
{
    if s.doing == 2 {
        return refuse(s, 4);
    }
    if LARGEST < s.value {
        return refuse(s, 5);
    }
    after_end(s.line, byte)
}

// One more byte.
#[tactic(auto, using(crate::proofs::Decided::decided), unfolding(crate::specs::Text::next))]
fn take(s: Reader, byte: u8) -> Reader
    ensures { result ≡ next s byte }
{
    if 3 < s.doing {
        return s;
    }
    if s.doing == 3 {
        return if byte == b'\n' { start_line(s.line) } else { s };
    }
    if is_end(byte) {
        return end_word(s, byte);
    }
    take_in(s, byte)
}

// A number in groups of seven bits, in so many at most, from a place on; the place after it.
fn put_groups(left: u8, n: u64, out: &mut [u8], at: usize) -> usize
    requires { at + left ≤ length out.old }
    ensures { Put out.old at (encode_in left n) left out.new result }
{
    if left == 0 {
        return at;
    }
    if n < 128 {
        out[at] = n as u8;
        return at + 1;
    }
    out[at] = 128 + (n % 128) as u8;
    put_groups(left - 1, n / 128, out, at + 1)
}

// The number that a byte ends, in the number form.
fn put_given(s: Reader, byte: u8, out: &mut [u8], at: usize) -> usize
    requires { at + 3 ≤ length out.old }
    ensures { Put out.old at (given s byte) 3 out.new result }
{
    if s.doing == 1 && s.value <= LARGEST && is_end(byte) {
        return put_groups(3, s.value, out, at);
    }
    at
}

// As many bytes of a text as there is room for the numbers of, three bytes for each.
pub fn pack_piece(s: Reader, bytes: &[u8], out: &mut [u8]) -> Packed
    ensures { PackedPiece out.old s bytes.now out.new result }
{
    let read = bytes.len().min(out.len() / 3);
    let mut reader = s;
    let mut written = 0;
    for byte in &bytes[..read] {
        written = put_given(reader, *byte, out, written);
        reader = take(reader, *byte);
    }
    Packed {
        reader,
        read,
        written,
    }
}
