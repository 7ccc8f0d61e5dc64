// What the signal of a number shows (request L2).
ghost use Rattle.std.specs.Prelude.{◌≡◌, ◌<◌};
ghost use Rattle.laws.specs.Tables.{read};
ghost use Rattle.track.specs.Sizes.{most_signals};
ghost use Rattle.track.specs.SignalNumbers.{between_blocks};
ghost use Rattle.signals.specs.Aspects.{dark};
ghost use Rattle.signals.specs.Shows.{line_signal_shown, number_shown_by};

use crate::aspects::DARK;
use crate::block_signals::{Secured, block_shown};
use laws::wide;
use tables::{Tables, direction_of, line_placed};
use track::codes::{A_TO_B, B_TO_A};
use track::signals::between_blocks;
use track::sizes::{LINES, MOST_SIGNALS, SIGNALS};
use track::{Line, line_at};

// What signals show by their numbers: how many main signals and lines there are, the lines, what each main signal shows, and the tables of the state.
#[derive(Clone, Copy)]
pub struct Shown<'a> {
    pub mains: u8,
    pub lines: u8,
    pub line: &'a [Line; LINES],
    pub main: &'a [u8; SIGNALS],
    pub tables: Tables<'a>,
}

// What main signal x shows, by the table; dark past it.
#[tactic(auto, using(laws::proofs::Choice::choices), unfolding(laws::specs::Tables::read))]
fn main_at(mains: &[u8; SIGNALS], x: u8) -> u8
    ensures { result ≡ read most_signals dark mains.now x }
{
    if x < MOST_SIGNALS {
        return mains[x as usize];
    }
    DARK
}

// What block signal j of line l shows, which is b: those for A to B stand into the blocks from the second on, then those for B to A from the first on.
#[tactic(auto, using(crate::proofs::ByNumber::line_first, crate::proofs::ByNumber::line_then), unfolding(track::specs::SignalNumbers::between_blocks))]
fn line_signal_shown(t: Tables, b: Line, l: u8, j: u64) -> u8
    requires { j < between_blocks b }
    ensures { result ≡ line_signal_shown b t.entry.direction.now t.entry.point.now t.entry.stage.now t.entry.bar.now l j }
{
    let s = Secured {
        blocks: b.blocks,
        way: direction_of(t.direction, l),
        placed: line_placed(t.point, b),
    };
    let each = wide(b.blocks) - 1;
    if j < each {
        return block_shown(t, s, l, (j + 1) as u8, A_TO_B);
    }
    block_shown(t, s, l, (j - each) as u8, B_TO_A)
}

// What the signal of number k shows, main signals first and then the block signals line by line; dark where no signal has that number.
#[tactic(auto, using(crate::proofs::ByNumber::numbered))]
pub fn number_shown(s: Shown, k: u8) -> u8
    ensures { result ≡ number_shown_by s.entry.mains s.entry.lines s.entry.line.now s.entry.main.now s.entry.tables.direction.now s.entry.tables.point.now s.entry.tables.stage.now s.entry.tables.bar.now k }
{
    if k < s.mains {
        return main_at(s.main, k);
    }
    let mut left = wide(k) - wide(s.mains);
    for l in 0..s.lines {
        let b = line_at(s.line, l);
        let own = between_blocks(b);
        if left < own {
            return line_signal_shown(s.tables, b, l, left);
        }
        left -= own;
    }
    DARK
}
