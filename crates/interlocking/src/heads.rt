// The events of axle counters, kinds 11 to 14 (request L1): what is refused of each, and the reading that the section's heads then give it.
ghost use Rattle.std.specs.Prelude.{◌≡◌, true, ◌≤◌, eqb, get_or};
ghost use Rattle.track.specs.Sizes.{most_lines};
ghost use Rattle.reasons.specs.Told.{told};
ghost use Rattle.interlocking.specs.Rows.{head_row};
ghost use Rattle.interlocking.specs.Parts.{headless, tried, numbers_named, wrong_count, silence, heads_row};
ghost use Rattle.interlocking.specs.Tried.{tried_by};

use super::parts::head_section;
use super::trial::{Done, Lent};
use super::{Core, orders};
use axles::Axles;
use reasons::events::is_fitted;
use reasons::{Reason, reason_if};
use refusals::numbers_reason;
use tables::Gives;
use track::codes::{AXLES_IN, AXLES_OUT, RESET_AXLES};
use track::sizes::SECTIONS;

// The number of a section that has heads, which is a byte.
fn fitted_number(fitted: &[u8; SECTIONS], g: u32) -> u8
    requires { eqb (get_or fitted.now g 0) 1 ≡ true }
    ensures { result ≡ g }
{
    g as u8
}

// An event of the heads of section g, which become y: refused by its numbers or besides, or the section is given what they say.
#[tactic(auto, using(crate::proofs::Trying::trying), unfolding(crate::specs::Parts::tried, crate::specs::Step::row_refusal, crate::specs::Rows::head_row, reasons::specs::Reasons::no_heads, layout::specs::Layout::is_fitted))]
fn said_of(
    s: Core,
    y: Axles,
    a: Lent,
    first: u32,
    g: u32,
    missing: bool,
    wrong: bool,
    besides: Result<(), Reason>,
) -> Result<Done, Reason>
    requires { a.sound ≡ true → a.layout.now.lines ≤ most_lines }
    ensures { tried_by s result ≡ tried a.entry.sound s first (head_row a.entry.layout.now (headless s a.entry.lamps.now) y g missing wrong (told besides)) }
{
    let misfit = reason_if(!is_fitted(&a.layout.fitted, g), Reason::NoHeads(g));
    numbers_reason(a.sound, missing, first, misfit, wrong)?;
    besides?;
    let section = fitted_number(&a.layout.fitted, g);
    let reading = axles::reading(y);
    Ok(Done {
        next: orders::read_section(s, a.layout, a.lamps, section, reading),
        gives: Gives {
            section,
            reading,
            tick: 0,
        },
    })
}

// The first number of an event of heads lies below: twice the sections where it names a head, the sections where it is a reset.
#[tactic(auto, using(reasons::proofs::Decided::decided), unfolding(crate::specs::Parts::numbers_named))]
fn numbers_named(kind: u32, sections: u8) -> u32
    ensures { result ≡ numbers_named kind sections }
{
    if kind == RESET_AXLES {
        return sections as u32;
    }
    2 * (sections as u32)
}

// Its second number is wrong: a count above 65,535, or where it is unused anything but 0.
fn is_wrong_count(kind: u32, second: u32) -> bool
    ensures { result ≡ wrong_count kind second }
{
    if (kind == AXLES_IN) | (kind == AXLES_OUT) {
        return 65535 < second;
    }
    second != 0
}

// 35, of a reset: one of the heads x of section g is silent.
#[tactic(auto, using(reasons::proofs::Decided::decided), unfolding(crate::specs::Parts::silence, crate::specs::Rows::still_silent))]
fn silence(x: Axles, kind: u32, g: u32) -> Result<(), Reason>
    ensures { told result ≡ silence x kind g }
{
    if kind == RESET_AXLES {
        return reason_if(!axles::are_speaking(x), Reason::HeadSilent(g));
    }
    Ok(())
}

// 11 to 14: axles in, axles out, a head silent, a reset.
pub fn of_heads(
    s: Core,
    x: Axles,
    y: Axles,
    a: Lent,
    kind: u32,
    first: u32,
    second: u32,
) -> Result<Done, Reason>
    requires { a.sound ≡ true → a.layout.now.lines ≤ most_lines }
    ensures { tried_by s result ≡ tried a.entry.sound s first (heads_row a.entry.layout.now (headless s a.entry.lamps.now) x y kind first second) }
{
    let g = head_section(kind, first);
    let missing = numbers_named(kind, a.layout.sections) <= first;
    let wrong = is_wrong_count(kind, second);
    said_of(s, y, a, first, g, missing, wrong, silence(x, kind, g))
}
