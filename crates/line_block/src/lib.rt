// The line block (section 5) over the tables of a state: own readings, far sections, blocks that wait (request L3), and the release of a line.
#![tactic(auto)]

pub mod far_sections;
pub mod line_release;
pub mod own_readings;
pub mod passing_back;

ghost use Rattle.std.specs.Prelude.{◌≡◌};
ghost use Rattle.line_block.specs.Entries.{few_lines};

use track::sizes::MOST_LINES;

// So many lines, but no more than the tables hold.
#[tactic(auto, using(laws::proofs::Choice::choices), unfolding(crate::specs::Entries::few_lines))]
fn few_lines(m: u8) -> u8
    ensures { result ≡ few_lines m }
{
    u8::min(m, MOST_LINES)
}

// A table that is lent, copied. A function of its own, since of what it returns the length is known.
fn copied<const N: usize>(table: &[u8; N]) -> [u8; N]
    ensures { result ≡ table.now }
{
    *table
}
