// A line or a route changed by hand.
use super::by_hand::{Change, put};
use track::{Line, Route};

// A line with a change.
pub fn change_line(line: &mut Line, c: Change) {
    match c.field {
        0 => line.blocks = c.byte,
        1 => put(&mut line.block, c),
        2 => line.innera = c.byte,
        3 => line.innerb = c.byte,
        4 => line.entrancea = c.byte,
        5 => line.entranceb = c.byte,
        6 => line.points = c.byte,
        7 => put(&mut line.point, c),
        8 => put(&mut line.position, c),
        _ => {}
    }
}

// A route with a change.
pub fn change_route(route: &mut Route, c: Change) {
    match c.field {
        0 => route.entry = c.byte,
        1 => route.kind = c.byte,
        2 => route.line = c.byte,
        3 => route.end = c.byte,
        4 => route.diverging = c.byte,
        5 => route.paths = c.byte,
        6 => put(&mut route.path, c),
        7 => route.overlaps = c.byte,
        8 => put(&mut route.overlap, c),
        9 => route.points = c.byte,
        10 => put(&mut route.point, c),
        11 => put(&mut route.position, c),
        _ => {}
    }
}
