// The stages of a block: its own reading, and its far section (section 5).
#![tactic(auto)]

ghost use Rattle.std.specs.Prelude.{◌≡◌};
ghost use Rattle.passage.specs.Passage.{free_stage, own_stage, departure, arrival, beyond, section_at, from_arrival, far_section, far_stage};

use track::blocks::facing_section;
use track::codes::{
    A_TO_B, END_A, END_B, FREE, NONE, OCCUPIED, OPEN, STAGE_0, STAGE_1, STAGE_2, STAGE_3,
};
use track::{Line, inner_at, nearest_block};

// What lies beyond a block in a direction: the next block, or the station at the arrival end.
#[derive(Clone, Copy)]
pub enum Beyond {
    Block(u8),
    Station(u8),
}

// The stage after the block was given free, where the far signal's lamp reports stop or not.
#[tactic(auto, using(laws::proofs::Choice::if_eq, laws::proofs::Choice::if_ne), unfolding(crate::specs::Passage::free_stage))]
fn free_stage(stop_lit: bool, stage: u8) -> u8
    ensures { result ≡ free_stage stop_lit stage }
{
    match stage {
        OPEN => OPEN,
        STAGE_2 if stop_lit => OPEN,
        STAGE_2 | STAGE_3 => STAGE_3,
        _ => STAGE_0,
    }
}

// The stage after the block's own reading; a number that is no reading says nothing.
#[tactic(auto, using(laws::proofs::Choice::if_eq, laws::proofs::Choice::if_ne), unfolding(crate::specs::Passage::own_stage))]
pub fn own_stage(given: u8, stop_lit: bool, stage: u8) -> u8
    ensures { result ≡ own_stage given stop_lit stage }
{
    match given {
        OCCUPIED if stage == STAGE_1 || stage == STAGE_2 => stage,
        OCCUPIED => STAGE_1,
        NONE => STAGE_0,
        FREE => free_stage(stop_lit, stage),
        _ => stage,
    }
}

// The end that a direction leaves.
#[tactic(auto, using(laws::proofs::Choice::if_eq, laws::proofs::Choice::if_ne), unfolding(crate::specs::Passage::departure))]
pub fn departure_end(w: u8) -> u8
    ensures { result ≡ departure w }
{
    if w == A_TO_B {
        return END_A;
    }
    END_B
}

// The end at which a direction arrives.
#[tactic(auto, using(laws::proofs::Choice::if_eq, laws::proofs::Choice::if_ne), unfolding(crate::specs::Passage::arrival))]
pub fn arrival_end(w: u8) -> u8
    ensures { result ≡ arrival w }
{
    if w == A_TO_B {
        return END_B;
    }
    END_A
}

// What lies beyond block i in a direction.
#[tactic(auto, using(crate::proofs::Laws::beyonds))]
pub fn beyond_block(b: Line, i: u8, w: u8) -> Beyond
    ensures { result ≡ beyond b i w }
{
    if w == A_TO_B {
        if i < nearest_block(b, END_B) {
            return Beyond::Block(i + 1);
        }
        return Beyond::Station(END_B);
    }
    if i == 0 {
        return Beyond::Station(END_A);
    }
    Beyond::Block(i - 1)
}

// The section there, where a block is left in direction w.
#[tactic(auto, unfolding(crate::specs::Passage::section_at))]
fn section_there(b: Line, w: u8, there: Beyond) -> u8
    ensures { result ≡ section_at b w there }
{
    match there {
        Beyond::Block(j) => facing_section(b, j, departure_end(w)),
        Beyond::Station(e) => inner_at(b, e),
    }
}

// Block i counted from the arrival end of a direction; and back.
#[tactic(auto, using(laws::proofs::Choice::if_eq, laws::proofs::Choice::if_ne), unfolding(crate::specs::Passage::from_arrival))]
pub fn from_arrival(b: Line, w: u8, i: u8) -> u8
    ensures { result ≡ from_arrival b w i }
{
    if w != A_TO_B {
        return i;
    }
    b.blocks.saturating_sub(i).saturating_sub(1)
}

// The far section of block i in a direction.
#[tactic(auto, unfolding(crate::specs::Passage::far_section))]
pub fn far_section(b: Line, i: u8, w: u8) -> u8
    ensures { result ≡ far_section b i w }
{
    section_there(b, w, beyond_block(b, i, w))
}

// The stage after the far section's reading, in an event that did or did not drop the far signal.
#[tactic(auto, using(laws::proofs::Choice::if_eq, laws::proofs::Choice::if_ne), unfolding(crate::specs::Passage::far_stage))]
pub fn far_stage(far: u8, dropped: bool, stage: u8) -> u8
    ensures { result ≡ far_stage far dropped stage }
{
    match stage {
        STAGE_1 if far == OCCUPIED && dropped => STAGE_2,
        STAGE_2 if far == NONE => STAGE_1,
        _ => stage,
    }
}
