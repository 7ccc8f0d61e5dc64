// States compared table by table, and written.
use super::heads;
use super::text::Line;
use interlocking::State;
use layout::Layout;
use track::signals::signal_count;
use track::sizes::BLOCKS;

// Whether two states are the same.
pub fn same_states(s: &State, t: &State) -> bool {
    s.section == t.section
        && s.point == t.point
        && s.order == t.order
        && s.phase == t.phase
        && s.steps == t.steps
        && s.seconds == t.seconds
        && s.direction == t.direction
        && s.stage == t.stage
        && s.bar == t.bar
        && s.lamp == t.lamp
        && heads::same_heads(&s.axles, &t.axles)
}

// Puts what the lamps report, as far as the layout has signals.
pub fn put_lamps(line: &mut Line, plan: &Layout, s: &State) {
    let n = signal_count(plan.signals, plan.lines, &plan.line) as usize;
    line.put_codes(&s.lamp, n, 1);
}

// Puts a state but for its heads and lamps, as far as the layout has objects; the seconds of a route have two digits.
pub fn put_state(line: &mut Line, plan: &Layout, s: &State) {
    let points = plan.points as usize;
    let routes = plan.routes as usize;
    let lines = plan.lines as usize;
    line.put_codes(&s.section, plan.sections as usize, 1);
    line.put_codes(&s.point, points, 1);
    line.put_codes(&s.order, points, 1);
    line.put_codes(&s.phase, routes, 1);
    line.put_codes(&s.steps, routes, 1);
    line.put_codes(&s.seconds, routes, 2);
    line.put_codes(&s.direction, lines, 1);
    line.put_codes(&s.stage, BLOCKS * lines, 1);
    line.put_codes(&s.bar, BLOCKS * lines, 1);
}
