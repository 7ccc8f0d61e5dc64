// A layout: its record, the layout file, and whether a record is sound (section 2).
#![tactic(auto)]

mod file;
mod pairs_of_routes;
mod walks;

ghost use Rattle.std.specs.Prelude.{◌≡◌, ◌≤◌};
ghost use Rattle.track.specs.Sizes.{most_distants, most_train_routes};
ghost use Rattle.layout.specs.Layout.{none_fitted, no_layout, counts};
ghost use Rattle.layout.specs.Rules.{broken};
ghost use Rattle.layout.specs.Sound.{fits, sound};
ghost use Rattle.layout.specs.Load.{load};
ghost use Rattle.layout.specs.Reading.{RuleGiven, told};

use numbers::Fault;
use track::sizes::{
    DISTANTS, LAST_VERSION, LINES, MOST_LINES, MOST_POINTS, MOST_SECTIONS, MOST_SIGNALS,
    MOST_TRAIN_ROUTES, PAIRS, POINTS, SECTIONS, TRAIN_ROUTES,
};
use track::{Counts, Line, Route};

// version: that of its file, 1 or 2. carrier: of a distant, 0 if it is free-standing or the carrying signal plus 1. announced: the signal that it announces.
// conflict: 1 at 48 * i + j where the routes i and j conflict, else 0.
// fitted: 1 where a section has heads, else 0. lacking: 1 where a section was told as fitted that there is not, else 0.
// Entries past a count are not looked at; in a layout that was loaded they are 0.
#[repr(C)]
#[derive(Clone, Copy)]
pub struct Layout {
    pub version: u8,
    pub sections: u8,
    pub points: u8,
    pub pointsection: [u8; POINTS],
    pub signals: u8,
    pub lines: u8,
    pub line: [Line; LINES],
    pub distants: u8,
    pub carrier: [u8; DISTANTS],
    pub announced: [u8; DISTANTS],
    pub routes: u8,
    pub route: [Route; TRAIN_ROUTES],
    pub conflict: [u8; PAIRS],
    pub fitted: [u8; SECTIONS],
    pub lacking: u8,
}

// No section has heads.
pub fn none_fitted() -> [u8; SECTIONS]
    ensures { result ≡ none_fitted }
{
    [0; SECTIONS]
}

// The layout with no objects.
pub fn no_layout() -> Layout
    ensures { result ≡ no_layout }
{
    let pointsection = file_objects::no_sections();
    let line = file_objects::no_lines();
    let distants = file_objects::no_distants();
    let route = file_objects::no_routes();
    let conflict = pairs::no_pairs();
    let fitted = none_fitted();
    Layout {
        version: 0,
        sections: 0,
        points: 0,
        pointsection,
        signals: 0,
        lines: 0,
        line,
        distants: 0,
        carrier: distants,
        announced: distants,
        routes: 0,
        route,
        conflict,
        fitted,
        lacking: 0,
    }
}

// The first broken rule, if any.
fn first_broken(l: &Layout) -> Option<u8>
    requires { l.now.routes ≤ most_train_routes }
    ensures { RuleGiven result (broken l.now) }
{
    if !walks::rule_1(l) {
        return Some(1);
    }
    if !walks::rule_2(l) {
        return Some(2);
    }
    if !walks::rule_3(l) {
        return Some(3);
    }
    if !walks::rule_4(l) {
        return Some(4);
    }
    if !walks::rule_5(l) {
        return Some(5);
    }
    if !pairs_of_routes::rule_6(&l.conflict, l.routes, &l.route) {
        return Some(6);
    }
    if !walks::rule_7(l) {
        return Some(7);
    }
    None
}

// Every count, code and reference is in its range.
fn in_range(l: &Layout) -> bool
    ensures { result ≡ fits l.now }
{
    if MOST_SECTIONS < l.sections {
        return false;
    }
    if MOST_POINTS < l.points {
        return false;
    }
    if file_objects::most_distants_of(l.version) < l.distants {
        return false;
    }
    if MOST_TRAIN_ROUTES < l.routes {
        return false;
    }
    let sections = track::is_between(1, MOST_SECTIONS, l.sections);
    let points = walks::sections_fit(&l.pointsection, l.points, l.sections);
    let lines = walks::lines_fit(l);
    let distants = walks::distants_fit(l);
    let routes = walks::routes_fit(l);
    let heads = walks::heads_fit(&l.fitted, l.sections) & (l.lacking == 0);
    let rest = (l.lines <= MOST_LINES) & (lines & (distants & (routes & heads)));
    let most = (l.points <= MOST_POINTS) & (points & ((l.signals <= MOST_SIGNALS) & rest));
    track::is_between(1, LAST_VERSION, l.version) & (sections & most)
}

impl Layout {
    // How many objects of each kind there are to refer to.
    fn counts(&self) -> Counts
        ensures { result ≡ counts self.now }
    {
        Counts {
            sections: self.sections,
            points: self.points,
            signals: self.signals,
            lines: self.lines,
        }
    }

    // Whether a record, also one assembled by hand, is a layout as section 2 has it.
    pub fn sound(&self) -> bool
        ensures { result ≡ sound self.now }
    {
        if !in_range(self) {
            return false;
        }
        if !pairs_of_routes::mirrored(&self.conflict, self.routes) {
            return false;
        }
        first_broken(self).is_none()
    }
}

// The layout of a layout file, whatever its bytes, or the first fault met.
pub fn load(s: &[u8]) -> Result<Layout, Fault>
    ensures { told result ≡ load s.now }
{
    let mut at = 0;
    let layout = file::read_layout(s, &mut at)?;
    if at != s.len() {
        return Err(Fault::LeftOver { at });
    }
    match first_broken(&layout) {
        Some(rule) => Err(Fault::RuleBroken { rule }),
        None => Ok(layout),
    }
}

// The layout that a load gives: of a refused file the one with no objects (section 2).
#[tactic(auto, unfolding(crate::specs::Load::refused, crate::specs::Layout::no_layout))]
pub fn layout_given(loaded: Result<Layout, Fault>) -> Layout
    ensures { result ≡ (told loaded).layout }
{
    match loaded {
        Ok(layout) => layout,
        Err(_) => no_layout(),
    }
}
