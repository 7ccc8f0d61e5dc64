// Whether the codes of a state are in their ranges.
ghost use Rattle.std.specs.Prelude.{◌≡◌, length};
ghost use Rattle.interlocking.specs.State.{codes, in_range, routes_and_lines_in_range};

use super::State;
use track::codes::{
    B_TO_A, CANCELLING, FREE, IDLE, LAMP_NONE, LAMP_STOP, LEFT, NEUTRAL, NONE, OPEN, STAGE_3,
};
use track::is_between;
use track::sizes::{LAMPS, LINES, PLACES, POINTS, ROUTES, SECTIONS, TRAIN_ROUTES};

// Each of the n entries of a table lies in low .. high. Every entry is looked at, so that the loop has no way out and many go in one step.
fn all_between(xs: &[u8], n: usize, low: u8, high: u8) -> bool
    requires { length xs.now ≡ n }
    ensures { result ≡ codes n low high xs.now }
{
    let mut all = true;
    for i in 0..n {
        all = all & is_between(low, high, xs[i]);
    }
    all
}

// The codes of routes, lines and blocks are in their ranges.
#[tactic(auto, unfolding(crate::specs::State::routes_and_lines_in_range, laws::specs::Tests::every))]
fn routes_and_lines_in_range(s: &State) -> bool
    ensures { result ≡ routes_and_lines_in_range s.now }
{
    let phase = all_between(&s.phase, ROUTES, IDLE, CANCELLING);
    let step = all_between(&s.steps, TRAIN_ROUTES, 0, 3);
    let second = all_between(&s.seconds, TRAIN_ROUTES, 0, 89);
    let direction = all_between(&s.direction, LINES, NEUTRAL, B_TO_A);
    let stage = all_between(&s.stage, PLACES, OPEN, STAGE_3);
    let bar = all_between(&s.bar, PLACES, 0, 1);
    phase & (step & (second & (direction & (stage & bar))))
}

// No code of a state is outside its range.
#[tactic(auto, unfolding(crate::specs::State::in_range, laws::specs::Tests::every))]
pub fn in_range(s: &State) -> bool
    ensures { result ≡ in_range s.now }
{
    let section = all_between(&s.section, SECTIONS, FREE, NONE);
    let point = all_between(&s.point, POINTS, LEFT, NONE);
    let order = all_between(&s.order, POINTS, 0, 2);
    let rest = routes_and_lines_in_range(s);
    let lamp = all_between(&s.lamp, LAMPS, LAMP_STOP, LAMP_NONE);
    section & (point & (order & (rest & lamp)))
}
