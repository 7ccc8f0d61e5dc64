// What is refused of any event and of each order, in the paper's order, over a layout and the tables of a state that are lent (section 3).
#![tactic(auto)]

ghost use Rattle.std.specs.Prelude.{◌≡◌, eqb};
ghost use Rattle.laws.specs.Choice.{when◌then◌else◌};
ghost use Rattle.track.specs.Codes.{exit_route};
ghost use Rattle.tables.specs.Lent.{tables_of};
ghost use Rattle.reasons.specs.Refusal.{no_refusal};
ghost use Rattle.reasons.specs.Told.{told};
ghost use Rattle.refusals.specs.Events.{numbers_refusal};
ghost use Rattle.refusals.specs.Orders.{throw_refusal, way_refusal, exit_refusal, route_refusal, set_refusal, cancel_refusal, secure_refusal, manual_refusal};

use layout::Layout;
use reasons::{Reason, Refusal, reason_if, refuse, refused_if};
use tables::{Tables, departs};
use track::codes::EXIT_ROUTE;
use track::{Route, direction_from, route_at};

// What is refused of any event by its numbers; the misfit is a refusal of any number.
#[tactic(auto, using(reasons::proofs::Laws::firsts, reasons::proofs::Decided::decided), unfolding(crate::specs::Events::numbers_refusal, reasons::specs::Refusal::refused_if))]
pub fn numbers_refusal(
    sound: bool,
    missing: bool,
    first: u32,
    misfit: Refusal,
    wrong: bool,
) -> Refusal
    ensures { result ≡ numbers_refusal sound missing first misfit wrong }
{
    if !sound {
        return refuse(Reason::Unsound.number(), 0);
    }
    if missing {
        return refuse(Reason::NoSuchObject(first).number(), first);
    }
    if misfit.number != 0 {
        return misfit;
    }
    refused_if(wrong, Reason::WrongNumber.number(), 0)
}

// The same by a reason: the misfit is one that the paper has.
#[tactic(auto, using(reasons::proofs::Laws::firsts), unfolding(crate::specs::Events::numbers_refusal))]
pub fn numbers_reason(
    sound: bool,
    missing: bool,
    first: u32,
    misfit: Result<(), Reason>,
    wrong: bool,
) -> Result<(), Reason>
    ensures { told result ≡ numbers_refusal sound missing first (told misfit) wrong }
{
    reason_if(!sound, Reason::Unsound)?;
    reason_if(missing, Reason::NoSuchObject(first))?;
    misfit?;
    reason_if(wrong, Reason::WrongNumber)
}

// What is refused of a throw.
#[tactic(auto, using(reasons::proofs::Laws::firsts), unfolding(crate::specs::Orders::throw_refusal))]
pub fn throw_refusal<'a>(plan: &'a Layout, t: Tables<'a>, p: u8) -> Result<(), Reason>
    ensures { told result ≡ throw_refusal plan.now (tables_of t.entry) p }
{
    reasons::by_route(plan, t.phase, p)?;
    reasons::by_line(plan, t.direction, p)?;
    reasons::point_not_free(&plan.pointsection, t.section, p)
}

// What is refused of securing a line in direction w.
#[tactic(auto, using(reasons::proofs::Laws::firsts), unfolding(crate::specs::Orders::secure_refusal))]
pub fn secure_refusal<'a>(plan: &'a Layout, t: Tables<'a>, l: u8, w: u8) -> Result<(), Reason>
    ensures { told result ≡ secure_refusal plan.now (tables_of t.entry) l w }
{
    reasons::already_secured(t.direction, l)?;
    reasons::block_barred(&plan.line, t.bar, l)?;
    reasons::line_not_placed(&plan.line, t.point, l)?;
    reasons::block_held(&plan.line, t.stage, l)?;
    reasons::arrival_dark(&plan.line, t.lamp, l, w)
}

// What is refused of an exit route by its line's direction: a neutral line is to be secured first (request L5).
#[tactic(auto, using(reasons::proofs::Decided::decided), unfolding(crate::specs::Orders::way_refusal))]
fn way_refusal<'a>(plan: &'a Layout, t: Tables<'a>, a: Route) -> Result<(), Reason>
    ensures { told result ≡ way_refusal plan.now (tables_of t.entry) a }
{
    if departs(t.direction, a) {
        return secure_refusal(plan, t, a.line, direction_from(a.end));
    }
    reasons::not_secured(t.direction, a.line, a.end)
}

// What is refused of an exit route besides; of the other kinds nothing.
#[tactic(auto, using(reasons::proofs::Laws::firsts, reasons::proofs::Decided::decided), unfolding(crate::specs::Orders::exit_refusal))]
fn exit_refusal<'a>(plan: &'a Layout, t: Tables<'a>, a: Route) -> Result<(), Reason>
    ensures { told result ≡ when eqb a.kind exit_route then exit_refusal plan.now (tables_of t.entry) a else no_refusal }
{
    if a.kind != EXIT_ROUTE {
        return Ok(());
    }
    way_refusal(plan, t, a)?;
    reasons::line_not_placed(&plan.line, t.point, a.line)?;
    reasons::entered_barred(&plan.line, t.bar, a)?;
    reasons::entered_held(&plan.line, t.stage, a)
}

// What is refused of a route by its own lists.
#[tactic(auto, using(reasons::proofs::Laws::firsts), unfolding(crate::specs::Orders::route_refusal))]
fn route_refusal<'a>(plan: &'a Layout, t: Tables<'a>, a: Route) -> Result<(), Reason>
    ensures { told result ≡ route_refusal plan.now (tables_of t.entry) a }
{
    reasons::route_not_placed(t.point, a)?;
    reasons::route_not_free(t.section, a)?;
    exit_refusal(plan, t, a)
}

// What is refused of setting a route.
#[tactic(auto, using(reasons::proofs::Laws::firsts), unfolding(crate::specs::Orders::set_refusal))]
pub fn set_refusal<'a>(plan: &'a Layout, t: Tables<'a>, r: u8) -> Result<(), Reason>
    ensures { told result ≡ set_refusal plan.now (tables_of t.entry) r }
{
    reasons::already_locked(t.phase, r)?;
    reasons::conflicting(plan, t.phase, r)?;
    route_refusal(plan, t, route_at(&plan.route, r))
}

// What is refused of cancelling a route.
#[tactic(auto, using(reasons::proofs::Laws::firsts), unfolding(crate::specs::Orders::cancel_refusal))]
pub fn cancel_refusal(t: Tables, r: u8) -> Result<(), Reason>
    ensures { told result ≡ cancel_refusal (tables_of t.entry) r }
{
    reasons::not_locked(t.phase, r)?;
    reasons::already_cancelling(t.phase, r)
}

// What is refused of a manual release.
#[tactic(auto, using(reasons::proofs::Laws::firsts), unfolding(crate::specs::Orders::manual_refusal))]
pub fn manual_refusal<'a>(plan: &'a Layout, t: Tables<'a>, l: u8) -> Result<(), Reason>
    ensures { told result ≡ manual_refusal plan.now (tables_of t.entry) l }
{
    reasons::exit_locked(plan, t.phase, l)?;
    reasons::line_not_free(&plan.line, t.section, l)
}
