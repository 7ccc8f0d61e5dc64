// Lines become neutral, over the tables of a state that are lent, before the event and after it.
ghost use Rattle.std.specs.Prelude.{◌≡◌};
ghost use Rattle.laws.specs.Tests.{all_below, any_below};
ghost use Rattle.track.specs.Objects.{line};
ghost use Rattle.tables.specs.Locks.{locked_exit};
ghost use Rattle.line_block.specs.LineRelease.{passable, was_passed, ends_by, direction_after, directions_after};
ghost use Rattle.line_block.specs.Entries.{few_lines};

use super::{copied, few_lines};
use layout::Layout;
use tables::Tables;
use track::codes::{NEUTRAL, STAGE_2, STAGE_3};
use track::sizes::{LINES, PLACES, ROUTES, TRAIN_ROUTES};
use track::{Line, Route, line_at, route_at};

// Block i of line k is open and not barred.
fn is_passable(t: Tables, k: u8, i: u8) -> bool
    ensures { result ≡ passable t.entry.stage.now t.entry.bar.now k i }
{
    tables::is_open(t.stage, k, i) && tables::is_unbarred(t.bar, k, i)
}

// The first n blocks of line k are open and not barred.
#[tactic(auto, using(laws::proofs::Loops::alls))]
fn all_passable(t: Tables, k: u8, n: u8) -> bool
    ensures { result ≡ all_below n (passable t.entry.stage.now t.entry.bar.now k) }
{
    for i in 0..n {
        if !is_passable(t, k, i) {
            return false;
        }
    }
    true
}

// The last block in travel was in stage 2 or 3 before the event.
fn was_passed(before: &[u8; PLACES], b: Line, k: u8, w: u8) -> bool
    ensures { result ≡ was_passed before.now b k w }
{
    let i = track::nearest_block(b, passage::arrival_end(w));
    matches!(tables::held_at(before, k, i), STAGE_2 | STAGE_3)
}

// One of n routes is a locked exit route of line k.
#[tactic(auto, using(laws::proofs::Loops::anys), unfolding(tables::specs::Locks::locked_exit))]
fn exit_is_locked<'a>(n: u8, rs: &'a [Route; TRAIN_ROUTES], phases: &'a [u8; ROUTES], k: u8) -> bool
    ensures { result ≡ any_below n (locked_exit rs.now phases.now k) }
{
    for r in 0..n {
        if tables::is_locked_exit(phases, route_at(rs, r), k, r) {
            return true;
        }
    }
    false
}

// Line k of a layout, secured in direction w, becomes neutral. The rest is asked only where the last block in travel was in stage 2 or 3.
#[tactic(auto, unfolding(crate::specs::LineRelease::ends_by, laws::specs::Tests::every))]
fn is_ended(l: &Layout, before: Tables, now: Tables, k: u8, w: u8) -> bool
    ensures { result ≡ ends_by (line l.now.line k) l.now.routes l.now.route before.entry.stage.now now.entry.stage.now now.entry.bar.now now.entry.phase.now k w }
{
    let b = line_at(&l.line, k);
    was_passed(before.stage, b, k, w)
        && all_passable(now, k, b.blocks)
        && !exit_is_locked(l.routes, &l.route, now.phase, k)
}

// The direction of line k.
#[tactic(auto, using(laws::proofs::Choice::choices), unfolding(crate::specs::LineRelease::direction_after))]
fn direction_after(l: &Layout, before: Tables, now: Tables, k: u8, was: u8) -> u8
    ensures { result ≡ direction_after (ends_by (line l.now.line k) l.now.routes l.now.route before.entry.stage.now now.entry.stage.now now.entry.bar.now now.entry.phase.now) k was }
{
    if was != NEUTRAL && is_ended(l, before, now, k, was) {
        return NEUTRAL;
    }
    was
}

// The directions of a layout's lines, after the ones that are released have become neutral.
#[tactic(auto, using(laws::proofs::Each::redoes, crate::proofs::Lines::few_fit), unfolding(crate::specs::LineRelease::directions_after))]
pub fn directions_after(l: &Layout, before: Tables, now: Tables) -> [u8; LINES]
    ensures { result ≡ directions_after (few_lines l.now.lines) l.now.line l.now.routes l.now.route before.entry.stage.now now.entry.stage.now now.entry.bar.now now.entry.phase.now now.entry.direction.now }
{
    let mut direction = copied(now.direction);
    for k in 0..few_lines(l.lines) {
        direction[k as usize] = direction_after(l, before, now, k, direction[k as usize]);
    }
    direction
}
