// What the lamps of signals report (request L3), in a table by the signals' numbers that is lent.
#![tactic(auto)]

ghost use Rattle.std.specs.Prelude.{◌≡◌};
ghost use Rattle.track.specs.Objects.{line};
ghost use Rattle.track.specs.SignalNumbers.{number_of};
ghost use Rattle.passage.specs.Passage.{far_signal};
ghost use Rattle.lamps.specs.Lamps.{lamp_of, reports_none, far_lamp, far_stop_lit};

use laws::{entry_or, wide};
use passage::{Beyond, beyond_block};
use track::codes::{LAMP_NONE, LAMP_OTHER, LAMP_STOP, NEUTRAL};
use track::signals::number_into;
use track::sizes::{LAMPS, LINES};
use track::{Line, entrance_at, is_between, line_at};

// What the lamp of the signal of number x reports.
#[tactic(auto, using(laws::proofs::Arrays::read_or), unfolding(crate::specs::Lamps::lamp_of))]
pub fn lamp_of(lamps: &[u8; LAMPS], x: u64) -> u8
    ensures { result ≡ lamp_of lamps.now x }
{
    entry_or(lamps, x as usize, LAMP_NONE)
}

// It reports neither stop nor another light.
#[tactic(auto, unfolding(crate::specs::Lamps::reports_none))]
pub fn reports_none(lamps: &[u8; LAMPS], x: u8) -> bool
    ensures { result ≡ reports_none lamps.now x }
{
    !is_between(LAMP_STOP, LAMP_OTHER, lamp_of(lamps, wide(x)))
}

// The number of the far signal of block i of line l in direction w, where there are m main signals.
#[tactic(auto, unfolding(passage::specs::Passage::far_signal, passage::specs::Passage::signal_at, track::specs::SignalNumbers::number_of))]
fn far_number(m: u8, ls: &[Line; LINES], l: u8, i: u8, w: u8) -> u64
    ensures { result ≡ number_of m ls.now (far_signal (line ls.now l) l i w) }
{
    let b = line_at(ls, l);
    match beyond_block(b, i, w) {
        Beyond::Block(j) => number_into(m, ls, l, j, w),
        Beyond::Station(e) => wide(entrance_at(b, e)),
    }
}

// The far signal of block i of line l in direction w shows stop, as its lamp reports it.
#[tactic(auto, using(laws::proofs::Choice::if_eq, laws::proofs::Choice::if_ne), unfolding(crate::specs::Lamps::far_stop_lit, crate::specs::Lamps::far_lamp))]
pub fn far_stop_lit(lamps: &[u8; LAMPS], m: u8, ls: &[Line; LINES], l: u8, i: u8, w: u8) -> bool
    ensures { result ≡ far_stop_lit m ls.now lamps.now l i w }
{
    w != NEUTRAL && lamp_of(lamps, far_number(m, ls, l, i, w)) == LAMP_STOP
}
