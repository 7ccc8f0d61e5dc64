// Own readings, over the tables of a state that are lent: what an event gives a block moves its stage, and an opening passes back (request L3).
ghost use Rattle.std.specs.Prelude.{◌≡◌, ◌≤◌, ◌/◌, ◌%◌, length};
ghost use Rattle.laws.specs.Tables.{each};
ghost use Rattle.track.specs.Sizes.{most_blocks, most_places};
ghost use Rattle.track.specs.Objects.{line};
ghost use Rattle.tables.specs.declared.Gives.{Gives};
ghost use Rattle.line_block.specs.Entries.{few_lines};
ghost use Rattle.line_block.specs.OwnReadings.{own_given, own_stage_at, own_stages};

use super::passing_back::{none_waits, passed_back};
use super::{copied, few_lines};
use tables::{Gives, Tables, block_given, direction_of};
use track::codes::{FREE, STAGE_2};
use track::sizes::{LINES, MOST_BLOCKS, PLACES};
use track::{Line, line_at};

// What the event gives block i of a line, 0 for nothing; there is none past its last block.
#[tactic(auto, using(laws::proofs::Choice::choices), unfolding(crate::specs::OwnReadings::own_given))]
fn own_given(e: Gives, b: Line, i: u8) -> u8
    ensures { result ≡ own_given e b i }
{
    if b.blocks <= i {
        return 0;
    }
    block_given(e, b, i)
}

// The stage of the block at place k, after the event gave it a reading. The far signal's lamp is asked only where it matters.
fn given_stage(m: u8, ls: &[Line; LINES], t: Tables, k: u8, given: u8, was: u8) -> u8
    ensures { (e : Gives) → given ≡ own_given e (line ls.now (k / most_blocks)) (k % most_blocks) → result ≡ own_stage_at m ls.now t.entry.direction.now t.entry.lamp.now e k was }
{
    if (given == FREE) & (was == STAGE_2) {
        let l = k / MOST_BLOCKS;
        let w = direction_of(t.direction, l);
        let lit = lamps::far_stop_lit(t.lamp, m, ls, l, k % MOST_BLOCKS, w);
        return passage::own_stage(given, lit, was);
    }
    passage::own_stage(given, false, was)
}

// The stages of the first places after what the event gives their blocks, of m main signals; those to which it gives nothing are left at once.
#[tactic(auto, using(laws::proofs::Each::redoes, crate::proofs::OwnReadingLaws::own_elsewhere))]
fn given_stages(places: u8, m: u8, ls: &[Line; LINES], t: Tables, e: Gives) -> [u8; PLACES]
    requires { places ≤ most_places }
    ensures { (result ≡ each places (own_stage_at m ls.now t.entry.direction.now t.entry.lamp.now e) t.entry.stage.now) × (length t.entry.stage.now ≡ most_places) }
{
    let mut stage = copied(t.stage);
    for k in 0..places {
        let given = own_given(e, line_at(ls, k / MOST_BLOCKS), k % MOST_BLOCKS);
        if given != 0 {
            stage[k as usize] = given_stage(m, ls, t, k, given, stage[k as usize]);
        }
    }
    stage
}

// The stages of the blocks of n lines, where there are m main signals. What opens passes back, which is looked at only where a block waits.
#[tactic(auto, using(crate::proofs::Lines::few_fit, crate::proofs::Lines::few_long, crate::proofs::OwnReadingLaws::own_unwaited, crate::proofs::OwnReadingLaws::own_passed), unfolding(crate::specs::OwnReadings::given_stages, crate::specs::PassingBack::passed_back))]
pub fn own_stages(n: u8, m: u8, ls: &[Line; LINES], t: Tables, e: Gives) -> [u8; PLACES]
    ensures { result ≡ own_stages (few_lines n) m ls.now t.entry.direction.now t.entry.lamp.now e t.entry.stage.now }
{
    let places = MOST_BLOCKS * few_lines(n);
    let own = given_stages(places, m, ls, t, e);
    if none_waits(&own) {
        return own;
    }
    passed_back(places, ls, t, Tables { stage: &own, ..t }, [false; LINES])
}
