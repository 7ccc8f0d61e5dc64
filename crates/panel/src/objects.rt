// The bytes of tables: copied, and of routes by their phases.
ghost use Rattle.std.specs.Prelude.{◌≡◌, ◌+◌, ◌≤◌, length, get_or};
ghost use Rattle.laws.specs.Tables.{table};
ghost use Rattle.track.specs.Sizes.{most_train_routes};
ghost use Rattle.panel.specs.Panel.{route_byte};
ghost use Rattle.panel.specs.Writes.{Wrote};

use track::codes::{CANCELLING, IDLE};
use track::sizes::ROUTES;

// The first n bytes of a table, over the buffer from a place on; the place after them.
pub fn copy(from: &[u8], n: u8, buffer: &mut [u8], at: usize) -> usize
    requires { (n ≤ length from.now) × (at + n ≤ length buffer.old) }
    ensures { Wrote buffer.old at (table n (λ i. get_or from.now i 0)) buffer.new result }
{
    let mut next = at;
    for i in 0..n {
        buffer[next] = from[i as usize];
        next += 1;
    }
    next
}

// A route's byte by its phase.
#[tactic(auto, using(laws::proofs::Choice::choices), unfolding(crate::specs::Panel::route_byte))]
fn route_byte(phase: u8) -> u8
    ensures { result ≡ route_byte phase }
{
    match phase {
        IDLE => 0,
        CANCELLING => 2,
        _ => 1,
    }
}

// The bytes of the first n routes, over the buffer from a place on; the place after them.
pub fn put_routes(phases: &[u8; ROUTES], n: u8, buffer: &mut [u8], at: usize) -> usize
    requires { (n ≤ most_train_routes) × (at + n ≤ length buffer.old) }
    ensures { Wrote buffer.old at (table n (λ i. route_byte (get_or phases.now i 0))) buffer.new result }
{
    let mut next = at;
    for i in 0..n {
        buffer[next] = route_byte(phases[i as usize]);
        next += 1;
    }
    next
}
