// Records changed by hand: one byte of a layout or a state made anew, also to what no file and no event would bring there.
use super::heads;
use super::tracks::{change_line, change_route};
use interlocking::State;
use layout::Layout;

// A change: record 0 the layout, 1 the state, 2 a line, 3 a route; which line or route; which field, counted from 0 as the record declares them;
// which place, where the field is a table; the byte. In the table of heads a place is a byte. A number, field or place that there is not changes nothing.
#[derive(Clone, Copy)]
pub struct Change {
    pub record: u8,
    pub number: u8,
    pub field: u8,
    pub place: usize,
    pub byte: u8,
}

// A layout and a state.
#[derive(Clone, Copy)]
pub struct Records {
    pub plan: Layout,
    pub state: State,
}

// Puts a change's byte at its place of a table; past its end nothing is changed.
pub fn put(table: &mut [u8], c: Change) {
    if let Some(byte) = table.get_mut(c.place) {
        *byte = c.byte;
    }
}

// A layout changed.
fn change_layout(plan: &mut Layout, c: Change) {
    match c.field {
        0 => plan.version = c.byte,
        1 => plan.sections = c.byte,
        2 => plan.points = c.byte,
        3 => put(&mut plan.pointsection, c),
        4 => plan.signals = c.byte,
        5 => plan.lines = c.byte,
        7 => plan.distants = c.byte,
        8 => put(&mut plan.carrier, c),
        9 => put(&mut plan.announced, c),
        10 => plan.routes = c.byte,
        12 => put(&mut plan.conflict, c),
        13 => put(&mut plan.fitted, c),
        14 => plan.lacking = c.byte,
        _ => {}
    }
}

// A state changed.
fn change_state(s: &mut State, c: Change) {
    match c.field {
        0 => put(&mut s.section, c),
        1 => put(&mut s.point, c),
        2 => put(&mut s.order, c),
        3 => put(&mut s.phase, c),
        4 => put(&mut s.steps, c),
        5 => put(&mut s.seconds, c),
        6 => put(&mut s.direction, c),
        7 => put(&mut s.stage, c),
        8 => put(&mut s.bar, c),
        9 => heads::change_heads(&mut s.axles, c),
        10 => put(&mut s.lamp, c),
        _ => {}
    }
}

// Both with a change.
pub fn change_record(records: &mut Records, c: Change) {
    let number = c.number as usize;
    match c.record {
        0 => change_layout(&mut records.plan, c),
        1 => change_state(&mut records.state, c),
        2 => {
            if let Some(line) = records.plan.line.get_mut(number) {
                change_line(line, c);
            }
        }
        3 => {
            if let Some(route) = records.plan.route.get_mut(number) {
                change_route(route, c);
            }
        }
        _ => {}
    }
}
