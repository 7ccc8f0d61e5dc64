// The events of section 3's table, a method for each kind that holds what is refused of it and what it does (those of heads stand in `heads`);
// `specs/Rows` has the same table.
ghost use Rattle.std.specs.Prelude.{◌≡◌, true, ◌≤◌};
ghost use Rattle.track.specs.Sizes.{most_lines};
ghost use Rattle.interlocking.specs.Rows.{section_row, point_row, throw_row, set_row, cancel_row, secure_row, manual_row, bar_row, second_row, lamp_row, no_row, row_with};
ghost use Rattle.interlocking.specs.Parts.{headless, tried, NoOther};
ghost use Rattle.interlocking.specs.Tried.{tried_by};

use super::parts::is_of_heads;
use super::trial::{Done, Lent, gives_nothing, tables_of};
use super::{Core, heads, orders};
use axles::Axles;
use reasons::events::{is_fitted, is_outside, no_such_block};
use reasons::{Reason, reason_if};
use refusals::numbers_reason;
use tables::{Gives, reading_for};
use track::codes::{
    A_TO_B, B_TO_A, BAR, CANCEL_ROUTE, LEFT, READ_POINT, READ_SECTION, RELEASE_LINE, REPORT_LAMP,
    RIGHT, SECOND, SECURE_LINE, SET_ROUTE, THROW, UNBAR,
};
use track::route_at;
use track::signals::signal_count;
use track::sizes::MOST_SECTIONS;

impl Core {
    // 1: a section reading.
    #[tactic(auto, using(crate::proofs::Trying::trying), unfolding(crate::specs::Parts::tried, crate::specs::Step::row_refusal, crate::specs::Rows::section_row, reasons::specs::Reasons::has_heads, layout::specs::Layout::is_fitted))]
    fn section_reading(self, a: Lent, section: u32, code: u32) -> Result<Done, Reason>
        requires { a.sound ≡ true → a.layout.now.lines ≤ most_lines }
        ensures { tried_by self result ≡ tried a.entry.sound self section (section_row a.entry.layout.now (headless self a.entry.lamps.now) section code) }
    {
        let missing = a.layout.sections as u32 <= section;
        let misfit = reason_if(
            is_fitted(&a.layout.fitted, section),
            Reason::HasHeads(section),
        );
        numbers_reason(a.sound, missing, section, misfit, false)?;
        let g = section as u8;
        let reading = reading_for(code);
        Ok(Done {
            next: orders::read_section(self, a.layout, a.lamps, g, reading),
            gives: Gives {
                section: g,
                reading,
                tick: 0,
            },
        })
    }

    // 2: a point reading.
    #[tactic(auto, using(crate::proofs::Trying::trying), unfolding(crate::specs::Parts::tried, crate::specs::Step::row_refusal, crate::specs::Rows::point_row))]
    fn point_reading(self, a: Lent, point: u32, code: u32) -> Result<Done, Reason>
        ensures { tried_by self result ≡ tried a.entry.sound self point (point_row a.entry.layout.now (headless self a.entry.lamps.now) point code) }
    {
        let missing = a.layout.points as u32 <= point;
        numbers_reason(a.sound, missing, point, Ok(()), false)?;
        Ok(Done {
            next: orders::read_point(self, point as u8, reading_for(code)),
            gives: gives_nothing(),
        })
    }

    // 3: throw a point, to 1 left or 2 right.
    #[tactic(auto, using(crate::proofs::Trying::trying), unfolding(crate::specs::Parts::tried, crate::specs::Step::row_refusal, crate::specs::Rows::throw_row))]
    fn throw(self, a: Lent, point: u32, position: u32) -> Result<Done, Reason>
        ensures { tried_by self result ≡ tried a.entry.sound self point (throw_row a.entry.layout.now (headless self a.entry.lamps.now) point position) }
    {
        let missing = a.layout.points as u32 <= point;
        let wrong = is_outside(LEFT as u32, RIGHT as u32, position);
        numbers_reason(a.sound, missing, point, Ok(()), wrong)?;
        let p = point as u8;
        refusals::throw_refusal(a.layout, tables_of(&self, a.lamps), p)?;
        Ok(Done {
            next: orders::throw(self, p, position as u8),
            gives: gives_nothing(),
        })
    }

    // 4: set a route; the second number is unused.
    #[tactic(auto, using(crate::proofs::Trying::trying), unfolding(crate::specs::Parts::tried, crate::specs::Step::row_refusal, crate::specs::Rows::set_row))]
    fn set(self, a: Lent, route: u32, unused: u32) -> Result<Done, Reason>
        ensures { tried_by self result ≡ tried a.entry.sound self route (set_row a.entry.layout.now (headless self a.entry.lamps.now) route unused) }
    {
        let missing = a.layout.routes as u32 <= route;
        numbers_reason(a.sound, missing, route, Ok(()), unused != 0)?;
        let r = route as u8;
        refusals::set_refusal(a.layout, tables_of(&self, a.lamps), r)?;
        let first = orders::secure_first(self, route_at(&a.layout.route, r));
        Ok(Done {
            next: orders::lock(first, r),
            gives: gives_nothing(),
        })
    }

    // 5: cancel a route; the second number is unused.
    #[tactic(auto, using(crate::proofs::Trying::trying), unfolding(crate::specs::Parts::tried, crate::specs::Step::row_refusal, crate::specs::Rows::cancel_row))]
    fn cancel(self, a: Lent, route: u32, unused: u32) -> Result<Done, Reason>
        ensures { tried_by self result ≡ tried a.entry.sound self route (cancel_row a.entry.layout.now (headless self a.entry.lamps.now) route unused) }
    {
        let missing = a.layout.routes as u32 <= route;
        numbers_reason(a.sound, missing, route, Ok(()), unused != 0)?;
        let r = route as u8;
        refusals::cancel_refusal(tables_of(&self, a.lamps), r)?;
        Ok(Done {
            next: orders::cancel(self, r),
            gives: gives_nothing(),
        })
    }

    // 6: secure a line, 1 from A to B or 2 from B to A.
    #[tactic(auto, using(crate::proofs::Trying::trying), unfolding(crate::specs::Parts::tried, crate::specs::Step::row_refusal, crate::specs::Rows::secure_row))]
    fn secure(self, a: Lent, line: u32, direction: u32) -> Result<Done, Reason>
        ensures { tried_by self result ≡ tried a.entry.sound self line (secure_row a.entry.layout.now (headless self a.entry.lamps.now) line direction) }
    {
        let missing = a.layout.lines as u32 <= line;
        let wrong = is_outside(A_TO_B as u32, B_TO_A as u32, direction);
        numbers_reason(a.sound, missing, line, Ok(()), wrong)?;
        let l = line as u8;
        let w = direction as u8;
        refusals::secure_refusal(a.layout, tables_of(&self, a.lamps), l, w)?;
        Ok(Done {
            next: orders::secure(self, l, w),
            gives: gives_nothing(),
        })
    }

    // 7: release a line by hand, on ground 1 not left, 2 in siding, 3 returned.
    #[tactic(auto, using(crate::proofs::Trying::trying), unfolding(crate::specs::Parts::tried, crate::specs::Step::row_refusal, crate::specs::Rows::manual_row))]
    fn release_by_hand(self, a: Lent, line: u32, ground: u32) -> Result<Done, Reason>
        requires { a.sound ≡ true → a.layout.now.lines ≤ most_lines }
        ensures { tried_by self result ≡ tried a.entry.sound self line (manual_row a.entry.layout.now (headless self a.entry.lamps.now) line ground) }
    {
        let missing = a.layout.lines as u32 <= line;
        let wrong = is_outside(1, 3, ground);
        numbers_reason(a.sound, missing, line, Ok(()), wrong)?;
        let l = line as u8;
        refusals::manual_refusal(a.layout, tables_of(&self, a.lamps), l)?;
        Ok(Done {
            next: orders::release_by_hand(self, a.layout, l),
            gives: gives_nothing(),
        })
    }

    // 8, 9: a bar is set, 1, or cleared, 0, on a block counted from 0.
    #[tactic(auto, using(crate::proofs::Trying::trying), unfolding(crate::specs::Parts::tried, crate::specs::Step::row_refusal, crate::specs::Rows::bar_row))]
    fn set_bar(self, a: Lent, line: u32, block: u32, bar: u8) -> Result<Done, Reason>
        ensures { tried_by self result ≡ tried a.entry.sound self line (bar_row bar a.entry.layout.now (headless self a.entry.lamps.now) line block) }
    {
        let missing = a.layout.lines as u32 <= line;
        let wrong = no_such_block(a.layout, line, block);
        numbers_reason(a.sound, missing, line, Ok(()), wrong)?;
        Ok(Done {
            next: orders::set_bar(self, line as u8, block, bar),
            gives: gives_nothing(),
        })
    }

    // 10: one second has passed; both numbers are unused.
    #[tactic(auto, using(crate::proofs::Trying::trying), unfolding(crate::specs::Parts::tried, crate::specs::Step::row_refusal, crate::specs::Rows::second_row))]
    fn second(self, a: Lent, first: u32, second: u32) -> Result<Done, Reason>
        ensures { tried_by self result ≡ tried a.entry.sound self first (second_row (headless self a.entry.lamps.now) first second) }
    {
        let wrong = !((first == 0) & (second == 0));
        numbers_reason(a.sound, false, first, Ok(()), wrong)?;
        Ok(Done {
            next: self,
            gives: Gives {
                section: MOST_SECTIONS,
                reading: 0,
                tick: 1,
            },
        })
    }

    // 15: a lamp's report. The lamps are lent, and whoever lends them stores it.
    #[tactic(auto, using(crate::proofs::Trying::trying), unfolding(crate::specs::Parts::tried, crate::specs::Step::row_refusal, crate::specs::Rows::lamp_row))]
    fn lamp_report(self, a: Lent, signal: u32, code: u32) -> Result<Done, Reason>
        ensures { tried_by self result ≡ tried a.entry.sound self signal (lamp_row a.entry.layout.now (headless self a.entry.lamps.now) signal code) }
    {
        let count = signal_count(a.layout.signals, a.layout.lines, &a.layout.line);
        let missing = count <= signal as u64;
        numbers_reason(a.sound, missing, signal, Ok(()), false)?;
        Ok(Done {
            next: self,
            gives: gives_nothing(),
        })
    }

    // 11 to 14, of heads; and a kind that has no row.
    fn of_heads_or_unknown(
        self,
        x: Axles,
        y: Axles,
        a: Lent,
        kind: u32,
        first: u32,
        second: u32,
    ) -> Result<Done, Reason>
        requires { (a.sound ≡ true → a.layout.now.lines ≤ most_lines) × NoOther kind }
        ensures { tried_by self result ≡ tried a.entry.sound self first (row_with a.entry.layout.now (headless self a.entry.lamps.now) x y kind first second) }
    {
        if is_of_heads(kind) {
            return heads::of_heads(self, x, y, a, kind, first, second);
        }
        self.unknown(a, first)
    }

    // A kind that has no row: 1.
    #[tactic(auto, using(crate::proofs::Trying::trying), unfolding(crate::specs::Parts::tried, crate::specs::Step::row_refusal, crate::specs::Rows::no_row))]
    fn unknown(self, a: Lent, first: u32) -> Result<Done, Reason>
        ensures { tried_by self result ≡ tried a.entry.sound self first (no_row (headless self a.entry.lamps.now)) }
    {
        numbers_reason(a.sound, false, first, Ok(()), false)?;
        Err(Reason::UnknownKind)
    }
}

// The event of a kind; where it is of a section's heads, x is what these were, and y what becomes of them. Kinds stay numbers: the event is three numbers of
// the C interface, a kind that has no row is refused by 1, and only after 18, so an enum would have that kind too, and each of its variants its number beside it.
pub fn event_tried(
    s: Core,
    x: Axles,
    y: Axles,
    a: Lent,
    kind: u32,
    first: u32,
    second: u32,
) -> Result<Done, Reason>
    requires { a.sound ≡ true → a.layout.now.lines ≤ most_lines }
    ensures { tried_by s result ≡ tried a.entry.sound s first (row_with a.entry.layout.now (headless s a.entry.lamps.now) x y kind first second) }
{
    match kind {
        READ_SECTION => s.section_reading(a, first, second),
        READ_POINT => s.point_reading(a, first, second),
        THROW => s.throw(a, first, second),
        SET_ROUTE => s.set(a, first, second),
        CANCEL_ROUTE => s.cancel(a, first, second),
        SECURE_LINE => s.secure(a, first, second),
        RELEASE_LINE => s.release_by_hand(a, first, second),
        BAR => s.set_bar(a, first, second, 1),
        UNBAR => s.set_bar(a, first, second, 0),
        SECOND => s.second(a, first, second),
        REPORT_LAMP => s.lamp_report(a, first, second),
        _ => s.of_heads_or_unknown(x, y, a, kind, first, second),
    }
}
