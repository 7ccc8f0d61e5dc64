// The static library of the block lengths: the entry that a C program links (request L13). It is block_lengths' own, under its C name.
#![tactic(auto)]

ghost use Rattle.std.specs.Prelude.{◌≡◌};
ghost use Rattle.block_lengths.specs.Lengths.{answer};

use block_lengths::LengthsAnswer;

// The lengths for one headway in seconds and one speed in km/h, or the refusal's number with a record of zeros.
#[unsafe(no_mangle)]
pub extern "C" fn hiruketawha_lengths(headway: u32, speed: u32) -> LengthsAnswer
    ensures { result ≡ answer headway speed }
{
    block_lengths::hiruketawha_lengths(headway, speed)
}
