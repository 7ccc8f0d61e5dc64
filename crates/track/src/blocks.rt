// The blocks of a line, counted from end A (section 2). Which sections a block has is asked by these words, and by those of `tables` that say what its
// sections read; today each block has one section.
ghost use Rattle.std.specs.Prelude.{◌≡◌};
ghost use Rattle.track.specs.Blocks.{in_block, blocks_differ, facing, block_detail, line_sections};

use super::Line;
use super::lists::all_differ;
use laws::at8;

// Section g belongs to block i.
#[tactic(auto, unfolding(crate::specs::Blocks::in_block))]
pub fn is_in_block(b: Line, i: u8, g: u8) -> bool
    ensures { result ≡ in_block b i g }
{
    at8(&b.block, i) == g
}

// No section stands twice in the blocks of a line.
#[tactic(auto, unfolding(crate::specs::Blocks::blocks_differ))]
pub fn blocks_differ(b: Line) -> bool
    ensures { result ≡ blocks_differ b }
{
    all_differ(&b.block, b.blocks)
}

// The section of block i that faces an end: a neighbour on that side meets it.
#[tactic(auto, unfolding(crate::specs::Blocks::facing))]
pub fn facing_section(b: Line, i: u8, _end: u8) -> u8
    ensures { result ≡ facing b i _end }
{
    at8(&b.block, i)
}

// The section that stands for block i in a refusal's detail, its lowest. Another word than the one before, as `facing` and `block_detail` are two.
#[tactic(auto, unfolding(crate::specs::Blocks::block_detail))]
pub fn detail_section(b: Line, i: u8) -> u8
    ensures { result ≡ block_detail b i }
{
    at8(&b.block, i)
}

// The set of the sections of all blocks of a line.
#[tactic(auto, unfolding(crate::specs::Blocks::line_sections))]
pub fn sections_of(b: Line) -> u64
    ensures { result ≡ line_sections b }
{
    sets::of_list(&b.block, b.blocks)
}
