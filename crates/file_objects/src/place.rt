// The parts of the layout file read from a place: each is given whole, or the fault met.
// The lists of lines and of routes are read alike, and stay two: an array of a type parameter cannot be gone over without the heap.
ghost use Rattle.std.specs.Prelude.{◌≡◌};
ghost use Rattle.fields.specs.declared.Cursor.{Cursor};
ghost use Rattle.fields.specs.Reading.{Stands};
ghost use Rattle.file_objects.specs.Sections.{sections};
ghost use Rattle.file_objects.specs.Lines.{a_line, lines};
ghost use Rattle.file_objects.specs.Distants.{distants};
ghost use Rattle.file_objects.specs.Routes.{line_and_end, route_head, a_route, routes};
ghost use Rattle.file_objects.specs.Reading.{SectionsRead, LineRead, LinesRead, DistantsRead, EndRead, HeadRead, RouteRead, RoutesRead};

use crate::distants::DISTANTS_VERSION;
use crate::{no_distants, no_lines, no_routes, no_sections};
use fields::{next_code, next_items, next_none_or_reference, next_points, next_reference};
use numbers::Fault;
use track::sizes::{
    DISTANTS, LINES, MOST_BLOCKS, MOST_DISTANTS, MOST_LINES, MOST_LISTED, MOST_OVERLAP,
    MOST_POINTS, MOST_TRAIN_ROUTES, POINTS, TRAIN_ROUTES,
};
use track::{Counts, Line, Route};

// The points' own sections.
#[derive(Clone, Copy)]
pub struct Owned {
    pub count: u8,
    pub section: [u8; POINTS],
}

// The lines.
#[derive(Clone, Copy)]
pub struct Lines {
    pub count: u8,
    pub line: [Line; LINES],
}

// The distants: of each its carrier, 0 if free-standing or the carrying signal plus 1, and the signal that it announces.
#[derive(Clone, Copy)]
pub struct Distants {
    pub count: u8,
    pub carrier: [u8; DISTANTS],
    pub announced: [u8; DISTANTS],
}

// The line and the end of a route.
#[derive(Clone, Copy)]
pub struct End {
    pub line: u8,
    pub end: u8,
}

// What a route begins with.
#[derive(Clone, Copy)]
pub struct Head {
    pub entry: u8,
    pub kind: u8,
    pub line: u8,
    pub end: u8,
    pub diverging: u8,
}

// The routes.
#[derive(Clone, Copy)]
pub struct Routes {
    pub count: u8,
    pub route: [Route; TRAIN_ROUTES],
}

// Points 0 to 32, for each its own section.
pub fn next_sections(s: &[u8], at: &mut usize, objects: u8) -> Result<Owned, Fault>
    ensures { (c : Cursor) → Stands c at.old → SectionsRead result at.new (sections s.now c objects) }
{
    let count = next_code(s, at, 0, MOST_POINTS)?;
    let mut section = no_sections();
    for i in 0..count {
        let own = next_reference(s, at, objects)?;
        section[i as usize] = own;
    }
    Ok(Owned { count, section })
}

// One line: blocks, inner sections, entrance signals, points.
fn read_line(s: &[u8], at: &mut usize, n: Counts) -> Result<Line, Fault>
    ensures { (c : Cursor) → Stands c at.old → LineRead result at.new (a_line s.now n c) }
{
    let blocks = next_items(s, at, 1, MOST_BLOCKS, n.sections)?;
    let innera = next_reference(s, at, n.sections)?;
    let innerb = next_reference(s, at, n.sections)?;
    let entrancea = next_reference(s, at, n.signals)?;
    let entranceb = next_reference(s, at, n.signals)?;
    let points = next_points(s, at, n.points)?;
    // A literal takes an array of a field by a variable alone.
    let block = blocks.item;
    let point = points.point;
    let position = points.position;
    Ok(Line {
        blocks: blocks.count,
        block,
        innera,
        innerb,
        entrancea,
        entranceb,
        points: points.count,
        point,
        position,
    })
}

// Lines 0 to 8.
pub fn next_lines(s: &[u8], at: &mut usize, n: Counts) -> Result<Lines, Fault>
    ensures { (c : Cursor) → Stands c at.old → LinesRead result at.new (lines s.now n c) }
{
    let count = next_code(s, at, 0, MOST_LINES)?;
    let mut line = no_lines();
    for i in 0..count {
        let one = read_line(s, at, n)?;
        line[i as usize] = one;
    }
    Ok(Lines { count, line })
}

// Distants 0 to 32, of so many signals; a file of version 1 has none.
pub fn next_distants(s: &[u8], at: &mut usize, version: u8, signals: u8) -> Result<Distants, Fault>
    ensures { (c : Cursor) → Stands c at.old → DistantsRead result at.new (distants s.now version signals c) }
{
    let mut carrier = no_distants();
    let mut announced = no_distants();
    if version < DISTANTS_VERSION {
        return Ok(Distants {
            count: 0,
            carrier,
            announced,
        });
    }
    let count = next_code(s, at, 0, MOST_DISTANTS)?;
    for i in 0..count {
        let carrying = next_none_or_reference(s, at, signals)?;
        let signal = next_reference(s, at, signals)?;
        carrier[i as usize] = carrying;
        announced[i as usize] = signal;
    }
    Ok(Distants {
        count,
        carrier,
        announced,
    })
}

// For kinds 1 and 2 the line and the end; an inner route has neither.
fn line_and_end(s: &[u8], at: &mut usize, kind: u8, lines: u8) -> Result<End, Fault>
    ensures { (c : Cursor) → Stands c at.old → c.value ≡ kind → EndRead result at.new (line_and_end s.now c lines) }
{
    if kind == 0 {
        return Ok(End { line: 0, end: 0 });
    }
    let line = next_reference(s, at, lines)?;
    let end = next_code(s, at, 0, 1)?;
    Ok(End { line, end })
}

// What a route begins with: entry signal, kind, line and end, diverging.
fn route_head(s: &[u8], at: &mut usize, n: Counts) -> Result<Head, Fault>
    ensures { (c : Cursor) → Stands c at.old → HeadRead result at.new (route_head s.now n c) }
{
    let entry = next_reference(s, at, n.signals)?;
    let kind = next_code(s, at, 0, 2)?;
    let place = line_and_end(s, at, kind, n.lines)?;
    let diverging = next_code(s, at, 0, 1)?;
    Ok(Head {
        entry,
        kind,
        line: place.line,
        end: place.end,
        diverging,
    })
}

// One route: its head, path, overlap, points.
fn read_route(s: &[u8], at: &mut usize, n: Counts) -> Result<Route, Fault>
    ensures { (c : Cursor) → Stands c at.old → RouteRead result at.new (a_route s.now n c) }
{
    let head = route_head(s, at, n)?;
    let path = next_items(s, at, 1, MOST_LISTED, n.sections)?;
    let overlap = next_items(s, at, 0, MOST_OVERLAP, n.sections)?;
    let points = next_points(s, at, n.points)?;
    let sections = path.item;
    let behind = overlap.item;
    let point = points.point;
    let position = points.position;
    Ok(Route {
        entry: head.entry,
        kind: head.kind,
        line: head.line,
        end: head.end,
        diverging: head.diverging,
        paths: path.count,
        path: sections,
        overlaps: overlap.count,
        overlap: behind,
        points: points.count,
        point,
        position,
    })
}

// Routes 0 to 48.
pub fn next_routes(s: &[u8], at: &mut usize, n: Counts) -> Result<Routes, Fault>
    ensures { (c : Cursor) → Stands c at.old → RoutesRead result at.new (routes s.now n c) }
{
    let count = next_code(s, at, 0, MOST_TRAIN_ROUTES)?;
    let mut route = no_routes();
    for i in 0..count {
        let one = read_route(s, at, n)?;
        route[i as usize] = one;
    }
    Ok(Routes { count, route })
}
