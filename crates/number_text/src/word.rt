// A word that a person writes for one number: digits, one at least.
ghost use Rattle.std.specs.Prelude.{◌≡◌, true, length, get_or};
ghost use Rattle.laws.specs.Tests.{all_below};
ghost use Rattle.number_text.specs.Text.{is_digit};
ghost use Rattle.number_text.specs.Word.{is_number, number_of, word_of, number_in};

use crate::pack;

// Whether all of a word are digits.
fn all_digits(word: &[u8]) -> bool
    ensures { result ≡ all_below (length word.now) (λ i. is_digit (get_or word.now i 0)) }
{
    for byte in word {
        if !pack::is_digit(*byte) {
            return false;
        }
    }
    true
}

// Whether a word is a number.
#[tactic(auto, using(crate::proofs::Decided::decided), unfolding(crate::specs::Word::is_number))]
fn is_number(word: &[u8]) -> bool
    ensures { result ≡ is_number word.now }
{
    !word.is_empty() && all_digits(word)
}

// The number of a word of digits.
fn number_of(word: &[u8]) -> u64
    requires { is_number word.now ≡ true }
    ensures { result ≡ number_of word.now }
{
    let mut value = 0;
    for byte in word {
        value = pack::next_value(value, *byte);
    }
    value
}

// The number that a word is, if it is one.
#[tactic(auto, using(crate::proofs::Decided::decided), unfolding(crate::specs::Word::word_of, crate::specs::Word::number_in))]
pub fn read_word(word: &[u8]) -> Option<u64>
    ensures { result ≡ number_in (word_of word.now) }
{
    if is_number(word) {
        return Some(number_of(word));
    }
    None
}
