// The parts of the layout file in their order: the points' own sections, the lines, the distants, the routes (section 2, request L2), with a cursor that keeps the
// first fault met: each is handed back as far as it was read. A reading from a place (`place`) gives a part whole, or the fault met.
#![tactic(auto)]

mod distants;
pub mod place;

ghost use Rattle.std.specs.Prelude.{◌≡◌};
ghost use Rattle.file_objects.specs.Sections.{sections, no_sections};
ghost use Rattle.file_objects.specs.Lines.{a_line, lines, no_lines};
ghost use Rattle.file_objects.specs.Routes.{line_and_end, route_head, a_route, routes, no_routes};

pub use distants::{Distants, most_distants_of, no_distants, read_distants};
use fields::{Cursor, read_code, read_items, read_points, read_reference};
pub use place::{next_distants, next_lines, next_routes, next_sections};
use track::sizes::{
    LINES, MOST_BLOCKS, MOST_LINES, MOST_LISTED, MOST_OVERLAP, MOST_POINTS, MOST_TRAIN_ROUTES,
    POINTS, TRAIN_ROUTES,
};
use track::{Counts, Line, Route};

// The points' own sections.
#[derive(Clone, Copy)]
pub struct Owned {
    pub cur: Cursor,
    pub count: u8,
    pub section: [u8; POINTS],
}

// A line that was read.
#[derive(Clone, Copy)]
pub struct OneLine {
    pub cur: Cursor,
    pub line: Line,
}

// The lines.
#[derive(Clone, Copy)]
pub struct Lines {
    pub cur: Cursor,
    pub count: u8,
    pub line: [Line; LINES],
}

// The line and the end of a route.
#[derive(Clone, Copy)]
pub struct End {
    pub cur: Cursor,
    pub line: u8,
    pub end: u8,
}

// What a route begins with.
#[derive(Clone, Copy)]
pub struct Head {
    pub cur: Cursor,
    pub entry: u8,
    pub kind: u8,
    pub line: u8,
    pub end: u8,
    pub diverging: u8,
}

// A route that was read.
#[derive(Clone, Copy)]
pub struct OneRoute {
    pub cur: Cursor,
    pub route: Route,
}

// The routes.
#[derive(Clone, Copy)]
pub struct Routes {
    pub cur: Cursor,
    pub count: u8,
    pub route: [Route; TRAIN_ROUTES],
}

// No point has a section.
pub fn no_sections() -> [u8; POINTS]
    ensures { result ≡ no_sections }
{
    [0; POINTS]
}

// Points 0 to 32, for each its own section.
#[tactic(auto, using(laws::proofs::Loops::iters), unfolding(crate::specs::Sections::sections, crate::specs::Sections::section_turn))]
pub fn read_sections(s: &[u8], c: Cursor, objects: u8) -> Owned
    ensures { result ≡ sections s.now c objects }
{
    let cur = read_code(s, c, 0, MOST_POINTS);
    let mut t = Owned {
        cur,
        count: cur.value,
        section: no_sections(),
    };
    for i in 0..cur.value {
        t.cur = read_reference(s, t.cur, objects);
        t.section[i as usize] = t.cur.value;
    }
    t
}

// One line: blocks, inner sections, entrance signals, points.
#[tactic(auto, unfolding(crate::specs::Lines::a_line))]
fn one_line(s: &[u8], n: Counts, c: Cursor) -> OneLine
    ensures { result ≡ a_line s.now n c }
{
    let blocks = read_items(s, c, 1, MOST_BLOCKS, n.sections);
    let innera = read_reference(s, blocks.cur, n.sections);
    let innerb = read_reference(s, innera, n.sections);
    let entrancea = read_reference(s, innerb, n.signals);
    let entranceb = read_reference(s, entrancea, n.signals);
    let points = read_points(s, entranceb, n.points);
    // A literal takes an array of a field by a variable alone.
    let block = blocks.item;
    let point = points.point;
    let position = points.position;
    let line = Line {
        blocks: blocks.count,
        block,
        innera: innera.value,
        innerb: innerb.value,
        entrancea: entrancea.value,
        entranceb: entranceb.value,
        points: points.count,
        point,
        position,
    };
    OneLine {
        cur: points.cur,
        line,
    }
}

// No lines.
pub fn no_lines() -> [Line; LINES]
    ensures { result ≡ no_lines }
{
    [track::no_line(); LINES]
}

// Lines 0 to 8.
#[tactic(auto, using(laws::proofs::Loops::iters), unfolding(crate::specs::Lines::lines, crate::specs::Lines::lines_from, crate::specs::Lines::line_turn))]
pub fn read_lines(s: &[u8], n: Counts, c: Cursor) -> Lines
    ensures { result ≡ lines s.now n c }
{
    let cur = read_code(s, c, 0, MOST_LINES);
    let mut t = Lines {
        cur,
        count: cur.value,
        line: no_lines(),
    };
    for i in 0..cur.value {
        let one = one_line(s, n, t.cur);
        t.cur = one.cur;
        t.line[i as usize] = one.line;
    }
    t
}

// For kinds 1 and 2 the line and the end; an inner route has neither. The kind is the number read last.
#[tactic(auto, using(laws::proofs::Choice::choices), unfolding(crate::specs::Routes::line_and_end, crate::specs::Routes::an_end))]
fn line_and_end(s: &[u8], c: Cursor, lines: u8) -> End
    ensures { result ≡ line_and_end s.now c lines }
{
    if c.value == 0 {
        return End {
            cur: c,
            line: 0,
            end: 0,
        };
    }
    let line = read_reference(s, c, lines);
    let end = read_code(s, line, 0, 1);
    End {
        cur: end,
        line: line.value,
        end: end.value,
    }
}

// What a route begins with: entry signal, kind, line and end, diverging.
#[tactic(auto, unfolding(crate::specs::Routes::route_head))]
fn route_head(s: &[u8], n: Counts, c: Cursor) -> Head
    ensures { result ≡ route_head s.now n c }
{
    let entry = read_reference(s, c, n.signals);
    let kind = read_code(s, entry, 0, 2);
    let place = line_and_end(s, kind, n.lines);
    let diverging = read_code(s, place.cur, 0, 1);
    Head {
        cur: diverging,
        entry: entry.value,
        kind: kind.value,
        line: place.line,
        end: place.end,
        diverging: diverging.value,
    }
}

// One route: its head, path, overlap, points.
#[tactic(auto, unfolding(crate::specs::Routes::a_route))]
fn one_route(s: &[u8], n: Counts, c: Cursor) -> OneRoute
    ensures { result ≡ a_route s.now n c }
{
    let head = route_head(s, n, c);
    let path = read_items(s, head.cur, 1, MOST_LISTED, n.sections);
    let overlap = read_items(s, path.cur, 0, MOST_OVERLAP, n.sections);
    let points = read_points(s, overlap.cur, n.points);
    let sections = path.item;
    let behind = overlap.item;
    let point = points.point;
    let position = points.position;
    let route = Route {
        entry: head.entry,
        kind: head.kind,
        line: head.line,
        end: head.end,
        diverging: head.diverging,
        paths: path.count,
        path: sections,
        overlaps: overlap.count,
        overlap: behind,
        points: points.count,
        point,
        position,
    };
    OneRoute {
        cur: points.cur,
        route,
    }
}

// No routes.
pub fn no_routes() -> [Route; TRAIN_ROUTES]
    ensures { result ≡ no_routes }
{
    [track::no_route(); TRAIN_ROUTES]
}

// Routes 0 to 48.
#[tactic(auto, using(laws::proofs::Loops::iters), unfolding(crate::specs::Routes::routes, crate::specs::Routes::routes_from, crate::specs::Routes::route_turn))]
pub fn read_routes(s: &[u8], n: Counts, c: Cursor) -> Routes
    ensures { result ≡ routes s.now n c }
{
    let cur = read_code(s, c, 0, MOST_TRAIN_ROUTES);
    let mut t = Routes {
        cur,
        count: cur.value,
        route: no_routes(),
    };
    for i in 0..cur.value {
        let one = one_route(s, n, t.cur);
        t.cur = one.cur;
        t.route[i as usize] = one.route;
    }
    t
}
