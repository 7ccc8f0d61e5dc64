// What is asked of an event's numbers (section 3).
ghost use Rattle.std.specs.Prelude.{◌≡◌, not, eqb, leb, get_or};
ghost use Rattle.track.specs.Lists.{between};
ghost use Rattle.layout.specs.Layout.{line_in};

use layout::Layout;
use track::sizes::SECTIONS;

// A number is not from low to high.
#[tactic(auto, using(crate::proofs::Decided::decided), unfolding(track::specs::Lists::between))]
pub fn is_outside(low: u32, high: u32, x: u32) -> bool
    ensures { result ≡ not (between low high x) }
{
    !(low <= x && x <= high)
}

// Line l has no block i; none at all where there is no such line.
pub fn no_such_block(plan: &Layout, l: u32, i: u32) -> bool
    ensures { result ≡ leb (line_in plan.now l).blocks i }
{
    match plan.line.get(l as usize) {
        Some(b) => b.blocks as u32 <= i,
        None => true,
    }
}

// Section g has heads, by the layout's table of fitted sections (request L1); one that there is not has none.
pub fn is_fitted(fitted: &[u8; SECTIONS], g: u32) -> bool
    ensures { result ≡ eqb (get_or fitted.now g 0) 1 }
{
    (g as usize) < SECTIONS && fitted[g as usize] == 1
}
