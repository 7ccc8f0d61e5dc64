// The seven rules of section 2, as they bear on one line, on one route, on two routes and on one distant.
#![tactic(auto)]

ghost use Rattle.std.specs.Prelude.{◌≡◌};
ghost use Rattle.track.specs.Objects.{last_section};
ghost use Rattle.rules.specs.Rules.{is_entrance, once, line_ends, line_points, route_lists, route_length, route_ends, announces_carrier};
ghost use Rattle.rules.specs.Sets.{block_set, inner_set, off_blocks, side_set, reach_of, clashing};

use laws::{at8, wide};
use track::blocks::{blocks_differ, sections_of};
use track::codes::{ENTRANCE_ROUTE, EXIT_ROUTE, LEFT, RIGHT};
use track::sizes::LINES;
use track::{Line, Route, all_differ, entrance_at, inner_at, line_at};

// What rule 6 asks of a route: its entry signal, the set of its path sections, of its points to the left, of those to the right.
#[derive(Clone, Copy)]
pub struct Reach {
    pub entry: u8,
    pub path: u64,
    pub left: u64,
    pub right: u64,
}

// The sections of the blocks of the first n lines.
pub fn block_set(ls: &[Line; LINES], n: u8) -> u64
    ensures { result ≡ block_set n ls.now }
{
    (0..n).fold(0, |set, l| sets::merged(set, sections_of(line_at(ls, l))))
}

// The inner sections of the first n lines.
pub fn inner_set(ls: &[Line; LINES], n: u8) -> u64
    ensures { result ≡ inner_set n ls.now }
{
    (0..n).fold(0, |set, l| {
        let a = line_at(ls, l);
        sets::with(sets::with(set, a.innera), a.innerb)
    })
}

// Rule 1: the sections of the blocks of line l differ, and none is in a block of a line before it.
pub fn blocks_once(ls: &[Line; LINES], l: u8) -> bool
    ensures { result ≡ once ls.now l }
{
    let a = line_at(ls, l);
    blocks_differ(a) && !sets::share(sections_of(a), block_set(ls, l))
}

// Rule 1: no section of a route's path is in a set of sections of blocks.
#[tactic(auto, unfolding(crate::specs::Sets::off_blocks))]
pub fn path_off_blocks(blocks: u64, a: Route) -> bool
    ensures { result ≡ off_blocks blocks a }
{
    !sets::share(blocks, sets::of_list(&a.path, a.paths))
}

// The signal x is an entrance signal of one of the first n lines; past the eighth each is a line of nothing.
fn is_entrance(ls: &[Line; LINES], n: u8, x: u8) -> bool
    ensures { result ≡ is_entrance n ls.now x }
{
    (0..n).any(|l| {
        let a = line_at(ls, l);
        a.entrancea == x || a.entranceb == x
    })
}

// Rule 2: the two inner sections of line l differ, and so do its entrance signals from each other and from those of the lines before.
#[tactic(auto, unfolding(crate::specs::Rules::line_ends, laws::specs::Tests::every))]
pub fn line_ends(ls: &[Line; LINES], l: u8) -> bool
    ensures { result ≡ line_ends ls.now l }
{
    let a = line_at(ls, l);
    a.innera != a.innerb
        && a.entrancea != a.entranceb
        && !is_entrance(ls, l, a.entrancea)
        && !is_entrance(ls, l, a.entranceb)
}

// Rule 3: the points of line l differ.
#[tactic(auto, unfolding(crate::specs::Rules::line_points))]
pub fn line_points(ls: &[Line; LINES], l: u8) -> bool
    ensures { result ≡ line_points ls.now l }
{
    let a = line_at(ls, l);
    all_differ(&a.point, a.points)
}

// Rule 3: the sections of a route's path differ, and so do its points.
#[tactic(auto, using(laws::proofs::Both::both_asked, laws::proofs::Both::both_left), unfolding(crate::specs::Rules::route_lists))]
pub fn route_lists(a: Route) -> bool
    ensures { result ≡ route_lists a }
{
    all_differ(&a.path, a.paths) && all_differ(&a.point, a.points)
}

// Rule 4: kinds 0 and 1 have at least two path sections.
pub fn route_length(a: Route) -> bool
    ensures { result ≡ route_length a }
{
    a.kind == EXIT_ROUTE || 2 <= a.paths
}

// The last section of a route's path.
fn last_section(a: Route) -> u8
    ensures { result ≡ last_section a }
{
    at8(&a.path, a.paths.saturating_sub(1))
}

// Rule 5: where a route starts and ends, by its kind, among the first n lines.
pub fn route_ends(ls: &[Line; LINES], n: u8, a: Route) -> bool
    ensures { result ≡ route_ends n ls.now a }
{
    let b = line_at(ls, a.line);
    let section = inner_at(b, a.end);
    let signal = entrance_at(b, a.end);
    (a.kind != ENTRANCE_ROUTE || (a.entry == signal && at8(&a.path, 0) == section))
        && (a.kind != EXIT_ROUTE || last_section(a) == section)
        && (a.kind == ENTRANCE_ROUTE || !is_entrance(ls, n, a.entry))
}

// A route's points that lie that way.
fn side_set(a: Route, way: u8) -> u64
    ensures { result ≡ side_set way a }
{
    (0..a.points).fold(0, |set, i| {
        if at8(&a.position, i) == way {
            sets::with(set, at8(&a.point, i))
        } else {
            set
        }
    })
}

// What rule 6 asks of a route.
#[tactic(auto, unfolding(crate::specs::Sets::reach_of))]
pub fn route_reach(a: Route) -> Reach
    ensures { result ≡ reach_of a }
{
    Reach {
        entry: a.entry,
        path: sets::of_list(&a.path, a.paths),
        left: side_set(a, LEFT),
        right: side_set(a, RIGHT),
    }
}

// Rule 6: the same entry signal, a common path section, or a common point in different positions.
pub fn clash(a: Reach, b: Reach) -> bool
    ensures { result ≡ clashing a b }
{
    a.entry == b.entry
        || sets::share(a.path, b.path)
        || sets::share(a.left, b.right)
        || sets::share(a.right, b.left)
}

// Rule 7 (request L2): whether a distant announces its own carrier; the carrier is 0 if it is free-standing, else the carrying signal plus 1.
#[tactic(auto, unfolding(crate::specs::Rules::announces_carrier))]
pub fn announces_carrier(carrier: u8, announced: u8) -> bool
    ensures { result ≡ announces_carrier carrier announced }
{
    wide(carrier) == wide(announced) + 1
}
