// What a distant shows (request L2).
ghost use Rattle.std.specs.Prelude.{◌≡◌};
ghost use Rattle.signals.specs.Shows.{number_shown_by};
ghost use Rattle.signals.specs.Distants.{warning, carrier_darkens, distant_shows};

use crate::aspects::{
    DARK, PROCEED, PROCEED_DIVERGING, STOP, WARNS_OF_DIVERGING, WARNS_OF_PROCEED, WARNS_OF_STOP,
};
use crate::numbers::{Shown, number_shown};

// What a distant shows of a signal that shows x.
#[tactic(auto, using(laws::proofs::Choice::choices), unfolding(crate::specs::Distants::warning))]
fn warning_of(x: u8) -> u8
    ensures { result ≡ warning x }
{
    match x {
        STOP => WARNS_OF_STOP,
        PROCEED_DIVERGING => WARNS_OF_DIVERGING,
        PROCEED => WARNS_OF_PROCEED,
        _ => DARK,
    }
}

// The signal that carries a distant keeps it dark: there is one, carrier - 1, and it is at stop or dark.
fn carrier_darkens(s: Shown, carrier: u8) -> bool
    ensures { result ≡ carrier_darkens (number_shown_by s.entry.mains s.entry.lines s.entry.line.now s.entry.main.now s.entry.tables.direction.now s.entry.tables.point.now s.entry.tables.stage.now s.entry.tables.bar.now) carrier }
{
    carrier != 0 && matches!(number_shown(s, carrier - 1), STOP | DARK)
}

// What a distant shows: its carrier, 0 or a signal's number plus 1, is asked first, then the signal that it announces.
#[tactic(auto, using(laws::proofs::Choice::chains), unfolding(crate::specs::Distants::distant_shows))]
pub fn distant_shown(s: Shown, carrier: u8, announced: u8) -> u8
    ensures { result ≡ distant_shows (number_shown_by s.entry.mains s.entry.lines s.entry.line.now s.entry.main.now s.entry.tables.direction.now s.entry.tables.point.now s.entry.tables.stage.now s.entry.tables.bar.now) carrier announced }
{
    if carrier_darkens(s, carrier) {
        return DARK;
    }
    warning_of(number_shown(s, announced))
}
