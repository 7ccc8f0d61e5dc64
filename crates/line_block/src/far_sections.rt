// Far sections, over the tables of a state that are lent: those before the event and those after it.
ghost use Rattle.std.specs.Prelude.{◌≡◌, List, ◌≤◌};
ghost use Rattle.laws.specs.Tables.{each, read};
ghost use Rattle.track.specs.Sizes.{most_places, most_train_routes};
ghost use Rattle.track.specs.declared.Line.{Line};
ghost use Rattle.track.specs.Objects.{line, entrance};
ghost use Rattle.tables.specs.Readings.{reading};
ghost use Rattle.passage.specs.Passage.{far_section, far_signal};
ghost use Rattle.signals.specs.Signals.{block_proceeds};
ghost use Rattle.line_block.specs.FarSections.{drops, far_stage_at, far_stages};
ghost use Rattle.line_block.specs.Entries.{entry_proceeds, main_proceeds_by, proceeds_by, few_lines};

use super::{copied, few_lines};
use layout::Layout;
use passage::Beyond;
use tables::{Tables, direction_of, phase_of};
use track::codes::{AT_PROCEED, NEUTRAL, OCCUPIED, STAGE_1};
use track::sizes::{LINES, MOST_BLOCKS, MOST_TRAIN_ROUTES, PLACES, ROUTES, SECTIONS, TRAIN_ROUTES};
use track::{Line, line_at};

// The signals at which routes start: how many routes there are, and the signal of each.
#[derive(Clone, Copy)]
struct Starts<'a> {
    routes: u8,
    entry: &'a [u8; TRAIN_ROUTES],
}

// The signal at which route r starts, 0 where there is no such route.
#[tactic(auto, using(laws::proofs::Choice::choices), unfolding(laws::specs::Tables::read))]
fn entry_of(entries: &[u8; TRAIN_ROUTES], r: u8) -> u8
    ensures { result ≡ read most_train_routes 0 entries.now r }
{
    if r < MOST_TRAIN_ROUTES {
        return entries[r as usize];
    }
    0
}

// Route r starts at signal x, which is at proceed for it.
fn route_proceeds(s: Starts, phases: &[u8; ROUTES], r: u8, x: u8) -> bool
    ensures { result ≡ entry_proceeds s.entry.entry.now phases.now x r }
{
    let p = phase_of(phases, r);
    let e = entry_of(s.entry, r);
    (p == AT_PROCEED) & (e == x)
}

// A main signal shows proceed: one of the routes that start at it is at proceed.
#[tactic(auto, using(laws::proofs::Loops::anys), unfolding(crate::specs::Entries::main_proceeds_by))]
fn main_proceeds(s: Starts, phases: &[u8; ROUTES], x: u8) -> bool
    ensures { result ≡ main_proceeds_by s.entry.routes s.entry.entry.now phases.now x }
{
    for r in 0..s.routes {
        if route_proceeds(s, phases, r, x) {
            return true;
        }
    }
    false
}

// The block signal into block i of line l, of which the record is b, for direction w shows proceed.
#[tactic(auto, using(crate::proofs::FarSections::shows_other_way, crate::proofs::FarSections::shows_that_way))]
fn block_proceeds(b: Line, t: Tables, l: u8, i: u8, w: u8) -> bool
    ensures { (ls : List Line) → b ≡ line ls l → result ≡ block_proceeds ls t.entry.direction.now t.entry.point.now t.entry.stage.now t.entry.bar.now l i w }
{
    direction_of(t.direction, l) == w && signals::may_enter_line(t, b, l, i)
}

// The far signal of block i of line l, which is b, in direction w shows proceed: the next block's signal, or the line's entrance signal.
#[tactic(auto, using(crate::proofs::FarSections::far_block, crate::proofs::FarSections::far_station))]
fn far_proceeds(b: Line, s: Starts, t: Tables, l: u8, i: u8, w: u8) -> bool
    ensures { (ls : List Line) → b ≡ line ls l → result ≡ proceeds_by ls s.entry.routes s.entry.entry.now t.entry.phase.now t.entry.direction.now t.entry.point.now t.entry.stage.now t.entry.bar.now (far_signal b l i w) }
{
    match passage::beyond_block(b, i, w) {
        Beyond::Block(j) => block_proceeds(b, t, l, j, w),
        Beyond::Station(e) => main_proceeds(s, t.phase, track::entrance_at(b, e)),
    }
}

// It went from proceed to stop; what it shows now is asked only where it showed proceed.
#[tactic(auto, using(crate::proofs::FarSections::dropped_stop, crate::proofs::FarSections::dropped_now))]
fn far_dropped(b: Line, s: Starts, before: Tables, now: Tables, l: u8, i: u8, w: u8) -> bool
    ensures { (ls : List Line) → b ≡ line ls l → result ≡ drops (proceeds_by ls s.entry.routes s.entry.entry.now before.entry.phase.now before.entry.direction.now before.entry.point.now before.entry.stage.now before.entry.bar.now) (proceeds_by ls s.entry.routes s.entry.entry.now now.entry.phase.now now.entry.direction.now now.entry.point.now now.entry.stage.now now.entry.bar.now) (far_signal b l i w) }
{
    far_proceeds(b, s, before, l, i, w) && !far_proceeds(b, s, now, l, i, w)
}

// What the far section of block i reads.
fn far_reading(b: Line, sections: &[u8; SECTIONS], i: u8, w: u8) -> u8
    ensures { result ≡ reading sections.now (far_section b i w) }
{
    tables::section_reads(sections, passage::far_section(b, i, w))
}

// The stage of the block at place k. On a neutral line it stays; the far signal is asked only where it matters.
#[tactic(auto, using(crate::proofs::FarSections::far_neutral))]
fn moved_stage(ls: &[Line; LINES], s: Starts, before: Tables, now: Tables, k: u8, was: u8) -> u8
    ensures { result ≡ far_stage_at ls.now now.entry.direction.now now.entry.section.now (proceeds_by ls.now s.entry.routes s.entry.entry.now before.entry.phase.now before.entry.direction.now before.entry.point.now before.entry.stage.now before.entry.bar.now) (proceeds_by ls.now s.entry.routes s.entry.entry.now now.entry.phase.now now.entry.direction.now now.entry.point.now now.entry.stage.now now.entry.bar.now) k was }
{
    let l = k / MOST_BLOCKS;
    let i = k % MOST_BLOCKS;
    let w = direction_of(now.direction, l);
    if w == NEUTRAL {
        return was;
    }
    let b = line_at(ls, l);
    let far = far_reading(b, now.section, i, w);
    if (was == STAGE_1) & (far == OCCUPIED) {
        let dropped = far_dropped(b, s, before, now, l, i, w);
        return passage::far_stage(far, dropped, was);
    }
    passage::far_stage(far, false, was)
}

// The stages of the first m places. An open block and one held in stage 0 are left at once.
#[tactic(auto, using(laws::proofs::Each::redoes, crate::proofs::FarSections::far_idle))]
fn moved_stages(m: u8, ls: &[Line; LINES], s: Starts, before: Tables, now: Tables) -> [u8; PLACES]
    requires { m ≤ most_places }
    ensures { result ≡ each m (far_stage_at ls.now now.entry.direction.now now.entry.section.now (proceeds_by ls.now s.entry.routes s.entry.entry.now before.entry.phase.now before.entry.direction.now before.entry.point.now before.entry.stage.now before.entry.bar.now) (proceeds_by ls.now s.entry.routes s.entry.entry.now now.entry.phase.now now.entry.direction.now now.entry.point.now now.entry.stage.now now.entry.bar.now)) now.entry.stage.now }
{
    let mut stage = copied(now.stage);
    for k in 0..m {
        let was = stage[k as usize];
        if was < STAGE_1 {
            continue;
        }
        stage[k as usize] = moved_stage(ls, s, before, now, k, was);
    }
    stage
}

// The stages of the blocks of a layout's lines, those of `now` made anew; entries has the signal at which each route starts.
#[tactic(auto, using(crate::proofs::Lines::few_fit), unfolding(crate::specs::FarSections::far_stages))]
pub fn far_stages(
    l: &Layout,
    entries: &[u8; TRAIN_ROUTES],
    before: Tables,
    now: Tables,
) -> [u8; PLACES]
    ensures { result ≡ far_stages (few_lines l.now.lines) l.now.line now.entry.direction.now now.entry.section.now (proceeds_by l.now.line l.now.routes entries.now before.entry.phase.now before.entry.direction.now before.entry.point.now before.entry.stage.now before.entry.bar.now) (proceeds_by l.now.line l.now.routes entries.now now.entry.phase.now now.entry.direction.now now.entry.point.now now.entry.stage.now now.entry.bar.now) now.entry.stage.now }
{
    let s = Starts {
        routes: l.routes,
        entry: entries,
    };
    moved_stages(MOST_BLOCKS * few_lines(l.lines), &l.line, s, before, now)
}
