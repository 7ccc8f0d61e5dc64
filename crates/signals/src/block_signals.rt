// Block signals (section 4): whether a train may be let into a block, and what the signals into it show.
ghost use Rattle.std.specs.Prelude.{◌≡◌};
ghost use Rattle.track.specs.Signal.{has_signal};
ghost use Rattle.signals.specs.Signals.{enterable_by, enterable};
ghost use Rattle.signals.specs.BlockSignals.{block_shown_where};

use crate::aspects::{DARK, PROCEED, STOP};
use laws::wide;
use tables::{Tables, is_open, is_unbarred, line_placed};
use track::codes::A_TO_B;
use track::sizes::LINES;
use track::{Line, line_at};

// What is known of a line whose block signals are asked: how many blocks it has, the direction it is secured in, whether its points are in position.
#[derive(Clone, Copy)]
pub struct Secured {
    pub blocks: u8,
    pub way: u8,
    pub placed: bool,
}

// A train may be let into block i of line l, of which the record is b: the tests in order, left at the first that fails.
#[tactic(auto, unfolding(crate::specs::Signals::enterable_by, laws::specs::Tests::every))]
pub fn may_enter_line(t: Tables, b: Line, l: u8, i: u8) -> bool
    ensures { result ≡ enterable_by b t.entry.point.now t.entry.stage.now t.entry.bar.now l i }
{
    is_open(t.stage, l, i) && is_unbarred(t.bar, l, i) && line_placed(t.point, b)
}

// A train may be let into block i of line l.
#[tactic(auto, unfolding(crate::specs::Signals::enterable))]
pub fn may_enter(ls: &[Line; LINES], t: Tables, l: u8, i: u8) -> bool
    ensures { result ≡ enterable ls.now t.entry.point.now t.entry.stage.now t.entry.bar.now l i }
{
    may_enter_line(t, line_at(ls, l), l, i)
}

// Of n blocks block i has a signal for direction w.
#[tactic(auto, using(laws::proofs::Choice::choices), unfolding(track::specs::Signal::has_signal))]
fn has_signal(n: u8, i: u8, w: u8) -> bool
    ensures { result ≡ has_signal n i w }
{
    if w == A_TO_B {
        return 0 < i;
    }
    wide(i) + 1 < wide(n)
}

// What the signal into block i of line l for direction w shows, of a line that is secured so.
pub fn block_shown(t: Tables, s: Secured, l: u8, i: u8, w: u8) -> u8
    ensures { result ≡ block_shown_where t.entry.stage.now t.entry.bar.now s.blocks s.way s.placed l i w }
{
    if s.way != w || !has_signal(s.blocks, i, w) {
        return DARK;
    }
    if s.placed && is_open(t.stage, l, i) && is_unbarred(t.bar, l, i) {
        return PROCEED;
    }
    STOP
}
