// Stage 3 (request L3), over the tables of a state that are lent: a block that waits there opens when what lies beyond it opens.
ghost use Rattle.std.specs.Prelude.{◌≡◌, Bool, ℕ, false, ◌≤◌, length, get_or};
ghost use Rattle.laws.specs.Tables.{each};
ghost use Rattle.track.specs.Sizes.{most_places};
ghost use Rattle.line_block.specs.Entries.{few_lines, none_waits};
ghost use Rattle.line_block.specs.PassingBack.{goes_open, no_opening, released_entrance_by, arrives, opens_beyond, waited_stage, waited_stage_at, passed_back, Arrived};

use super::{copied, few_lines};
use layout::Layout;
use tables::{Tables, direction_of, held_at, is_locked};
use track::codes::{ENTRANCE_ROUTE, NEUTRAL, OPEN, STAGE_2, STAGE_3};
use track::sizes::{LINES, MOST_BLOCKS, MOST_LINES, PLACES};
use track::{Line, Route, line_at, route_at};

// By its own reading block i of line l went from stage 2 to open.
fn goes_open(before: Tables, now: Tables, l: u8, i: u8) -> bool
    ensures { result ≡ goes_open before.entry.stage.now now.entry.stage.now l i }
{
    let was = held_at(before.stage, l, i);
    let is = held_at(now.stage, l, i);
    (was == STAGE_2) & (is == OPEN)
}

// What lies beyond the block that is counted d from the arrival end opens: block by block towards that end, where an entrance route was released or not.
fn opens_beyond(b: Line, before: Tables, now: Tables, arrived: bool, l: u8, w: u8, d: u8) -> bool
    ensures { (f : ℕ → ℕ → Bool) → arrived ≡ f l w → result ≡ opens_beyond b now.entry.stage.now (goes_open before.entry.stage.now now.entry.stage.now) f l w d }
{
    for c in (0..d).rev() {
        let j = passage::from_arrival(b, w, c);
        if goes_open(before, now, l, j) {
            return true;
        }
        if held_at(now.stage, l, j) != STAGE_3 {
            return false;
        }
    }
    arrived
}

// The stage of block i of line l, which is b, in direction w, where it waits in stage 3.
fn waited_stage(b: Line, before: Tables, now: Tables, arrived: bool, l: u8, i: u8, w: u8) -> u8
    ensures { (f : ℕ → ℕ → Bool) → arrived ≡ f l w → result ≡ waited_stage b now.entry.stage.now (goes_open before.entry.stage.now now.entry.stage.now) f l i w 4 }
{
    if (b.blocks <= i) | (w == NEUTRAL) {
        return STAGE_3;
    }
    let d = passage::from_arrival(b, w, i);
    if opens_beyond(b, before, now, arrived, l, w, d) {
        return OPEN;
    }
    STAGE_3
}

// The stages of the first m places, where arrived tells the lines at which an entrance route was released. Blocks that do not wait are left at once.
#[tactic(auto, using(laws::proofs::Each::redoes))]
pub(super) fn passed_back(
    m: u8,
    ls: &[Line; LINES],
    before: Tables,
    now: Tables,
    arrived: [bool; LINES],
) -> [u8; PLACES]
    requires { m ≤ most_places }
    ensures { (result ≡ each m (waited_stage_at ls.now now.entry.direction.now (goes_open before.entry.stage.now now.entry.stage.now) (λ l w. get_or arrived l false) now.entry.stage.now) now.entry.stage.now) × (length now.entry.stage.now ≡ most_places) }
{
    let mut stage = copied(now.stage);
    for k in 0..m {
        if stage[k as usize] != STAGE_3 {
            continue;
        }
        let l = k / MOST_BLOCKS;
        let b = line_at(ls, l);
        let w = direction_of(now.direction, l);
        let here = arrived[l as usize];
        stage[k as usize] = waited_stage(b, before, now, here, l, k % MOST_BLOCKS, w);
    }
    stage
}

// Route r, of which the record is a, is an entrance route of the arrival end of line l in direction w, and was released.
fn is_released_entrance(before: Tables, now: Tables, a: Route, l: u8, w: u8, r: u8) -> bool
    ensures { result ≡ released_entrance_by before.entry.phase.now now.entry.phase.now a l w r }
{
    let was = is_locked(before.phase, r);
    let is = is_locked(now.phase, r);
    let e = passage::arrival_end(w);
    (was & !is) & ((a.kind == ENTRANCE_ROUTE) & ((a.line == l) & (a.end == e)))
}

// The lines at whose arrival end an entrance route was released. The routes are walked once.
fn arrivals(l: &Layout, before: Tables, now: Tables) -> [bool; LINES]
    ensures { Arrived l.now.routes l.now.route before.entry.phase.now now.entry.phase.now now.entry.direction.now result }
{
    let mut arrived = [false; LINES];
    for r in 0..l.routes {
        let a = route_at(&l.route, r);
        let w = direction_of(now.direction, a.line);
        if a.line < MOST_LINES && is_released_entrance(before, now, a, a.line, w, r) {
            arrived[a.line as usize] = true;
        }
    }
    arrived
}

// No block waits in stage 3: then nothing passes back. All places are asked, with no way out before the last, which is faster.
#[tactic(auto, using(laws::proofs::Loops::gathers), unfolding(crate::specs::Entries::none_waits))]
pub fn none_waits(stages: &[u8; PLACES]) -> bool
    ensures { result ≡ none_waits stages.now }
{
    let mut none = true;
    for k in 0..PLACES {
        none = none & (stages[k] != STAGE_3);
    }
    none
}

// The stages of the blocks of a layout's lines, after entrance routes were released: the last block in travel opens, and those before it that wait. Which
// routes were is asked only where a block waits.
pub fn stages_after_arrivals(l: &Layout, before: Tables, now: Tables) -> [u8; PLACES]
    ensures { result ≡ passed_back (few_lines l.now.lines) l.now.line now.entry.direction.now no_opening (arrives l.now.routes l.now.route before.entry.phase.now now.entry.phase.now) now.entry.stage.now }
{
    let stage = copied(now.stage);
    if none_waits(&stage) {
        return stage;
    }
    let arrived = arrivals(l, before, now);
    passed_back(MOST_BLOCKS * few_lines(l.lines), &l.line, now, now, arrived)
}
