// Main signals (section 4): what keeps a route's signal at proceed, and what each main signal shows.
ghost use Rattle.std.specs.Prelude.{◌≡◌, eqb};
ghost use Rattle.laws.specs.Tests.{implies};
ghost use Rattle.laws.specs.Tables.{table};
ghost use Rattle.track.specs.Codes.{exit_route};
ghost use Rattle.track.specs.Sizes.{most_signals};
ghost use Rattle.signals.specs.Signals.{lets_out, clear, fallen};
ghost use Rattle.signals.specs.MainSignals.{proceed_shown, main_shows};

use crate::aspects::{PROCEED, PROCEED_DIVERGING, STOP};
use crate::may_enter;
use tables::{Tables, all_free, route_placed};
use track::codes::{AT_PROCEED, AT_STOP, EXIT_ROUTE};
use track::sizes::{LINES, MOST_ROUTES, MOST_SIGNALS, ROUTES, SIGNALS, TRAIN_ROUTES};
use track::{Line, Route, line_at, nearest_block, route_at};

// A train may be let into the block that an exit route enters.
#[tactic(auto, unfolding(crate::specs::Signals::lets_out))]
fn line_lets_out<'a>(ls: &'a [Line; LINES], t: Tables<'a>, a: &'a Route) -> bool
    ensures { result ≡ lets_out ls.now t.entry.point.now t.entry.stage.now t.entry.bar.now a.now }
{
    let b = line_at(ls, a.line);
    may_enter(ls, t, a.line, nearest_block(b, a.end))
}

// The same, where the route is an exit route; the other kinds ask no line.
#[tactic(auto, unfolding(laws::specs::Tests::implies))]
fn is_let_out<'a>(ls: &'a [Line; LINES], t: Tables<'a>, a: &'a Route) -> bool
    ensures { result ≡ implies (eqb a.now.kind exit_route) (lets_out ls.now t.entry.point.now t.entry.stage.now t.entry.bar.now a.now) }
{
    a.kind != EXIT_ROUTE || line_lets_out(ls, t, a)
}

// What keeps a route's signal at proceed: the tests in order, left at the first that fails.
#[tactic(auto, unfolding(crate::specs::Signals::clear, laws::specs::Tests::every))]
pub fn is_clear<'a>(ls: &'a [Line; LINES], t: Tables<'a>, a: &'a Route) -> bool
    ensures { result ≡ clear ls.now t.entry.section.now t.entry.point.now t.entry.stage.now t.entry.bar.now a.now }
{
    all_free(t.section, a.paths, &a.path)
        && all_free(t.section, a.overlaps, &a.overlap)
        && route_placed(t.point, a)
        && is_let_out(ls, t, a)
}

// The phase that a route's signal falls to, or stays in.
#[tactic(auto, using(laws::proofs::Choice::choices), unfolding(crate::specs::Signals::fallen))]
pub fn falls_to<'a>(ls: &'a [Line; LINES], t: Tables<'a>, a: &'a Route, was: u8) -> u8
    ensures { result ≡ fallen ls.now t.entry.section.now t.entry.point.now t.entry.stage.now t.entry.bar.now a.now was }
{
    if was != AT_PROCEED {
        return was;
    }
    if is_clear(ls, t, a) {
        return AT_PROCEED;
    }
    AT_STOP
}

// What the signal of a set route shows.
#[tactic(auto, using(laws::proofs::Choice::choices), unfolding(crate::specs::MainSignals::proceed_shown))]
fn proceed_shown(a: Route) -> u8
    ensures { result ≡ proceed_shown a }
{
    if a.diverging == 1 {
        return PROCEED_DIVERGING;
    }
    PROCEED
}

// What each main signal shows: from the last of n routes down, so that the lowest route at proceed decides.
#[tactic(auto, using(crate::proofs::MainSignals::lights))]
pub fn main_shown(n: u8, rs: &[Route; TRAIN_ROUTES], phases: &[u8; ROUTES]) -> [u8; SIGNALS]
    ensures { result ≡ table most_signals (main_shows n rs.now phases.now) }
{
    let mut shown = [STOP; SIGNALS];
    for r in (0..n).rev() {
        if MOST_ROUTES <= r || phases[r as usize] != AT_PROCEED {
            continue;
        }
        let a = route_at(rs, r);
        if a.entry < MOST_SIGNALS {
            shown[a.entry as usize] = proceed_shown(a);
        }
    }
    shown
}
