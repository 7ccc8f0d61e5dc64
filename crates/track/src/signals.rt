// The signals of a layout by their numbers (request L2): main signals first, then block signals.
ghost use Rattle.std.specs.Prelude.{◌≡◌, ◌+◌, ◌*◌, ◌≤◌};
ghost use Rattle.track.specs.Ranges.{distant_fits};
ghost use Rattle.track.specs.Signal.{into};
ghost use Rattle.track.specs.SignalNumbers.{signal_count, number_of, between_blocks};

use super::codes::A_TO_B;
use super::sizes::LINES;
use super::{Line, line_at};
use laws::wide;

// The block signals of a line: one each way between each two blocks.
#[tactic(auto, unfolding(crate::specs::SignalNumbers::between_blocks))]
pub fn between_blocks(b: Line) -> u64
    ensures { result ≡ between_blocks b }
{
    2 * wide(b.blocks.saturating_sub(1))
}

// How many signals there are, m main signals and the block signals of n lines: no more than 508 for a line.
fn signals_counted(m: u8, n: u8, ls: &[Line; LINES]) -> u64
    ensures counted { result ≡ signal_count m n ls.now }
    ensures at_most { result ≤ 255 + 508 * n }
{
    let mut count = wide(m);
    for l in 0..n {
        count += between_blocks(line_at(ls, l));
    }
    count
}

// How many signals there are: m main signals, and the block signals of n lines.
pub fn signal_count(m: u8, n: u8, ls: &[Line; LINES]) -> u64
    ensures { result ≡ signal_count m n ls.now }
{
    signals_counted(m, n, ls)
}

// The number of the block signal into block i of line l for direction w, where there are m main signals.
#[tactic(auto, using(crate::proofs::SignalNumbers::number_up, crate::proofs::SignalNumbers::number_down))]
pub fn number_into(m: u8, ls: &[Line; LINES], l: u8, i: u8, w: u8) -> u64
    ensures { result ≡ number_of m ls.now (into l i w) }
{
    let before = signals_counted(m, l, ls);
    if w == A_TO_B {
        return before + wide(i.saturating_sub(1));
    }
    let b = line_at(ls, l);
    before + wide(b.blocks.saturating_sub(1)) + wide(i)
}

// The numbers of a distant are in their range, of so many signals: its carrier, 0 or a signal's number plus 1, and the signal that it announces.
#[tactic(auto, using(laws::proofs::Both::both_asked, laws::proofs::Both::both_left), unfolding(crate::specs::Ranges::distant_fits))]
pub fn distant_fits(signals: u64, carrier: u8, announced: u8) -> bool
    ensures { result ≡ distant_fits signals carrier announced }
{
    wide(carrier) <= signals && wide(announced) < signals
}
