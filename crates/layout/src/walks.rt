// The rules over all lines, routes and distants, and the ranges of their numbers.
ghost use Rattle.std.specs.Prelude.{◌≡◌, leb, get_or};
ghost use Rattle.laws.specs.Tests.{all_below};
ghost use Rattle.rules.specs.Rules.{announces_carrier};
ghost use Rattle.track.specs.Ranges.{line_fits, distant_fits, route_fits};
ghost use Rattle.layout.specs.Layout.{counts, line_in, signals_in, carrier_of, announced_by, route_in};
ghost use Rattle.layout.specs.Rules.{rule1, rule2, rule3, rule4, rule5, rule7};
ghost use Rattle.layout.specs.Sound.{sections_fit};

use super::Layout;
use laws::entry_or;
use track::signals::{distant_fits, signal_count};
use track::sizes::{POINTS, SECTIONS};
use track::{line_at, route_at};

// Rule 1: the blocks of each line once, no path over a block, no inner section a block.
pub fn rule_1(l: &Layout) -> bool
    ensures { result ≡ rule1 l.now }
{
    let blocks = rules::block_set(&l.line, l.lines);
    let inner = rules::inner_set(&l.line, l.lines);
    let once = (0..l.lines).all(|i| rules::blocks_once(&l.line, i));
    let paths = (0..l.routes).all(|r| rules::path_off_blocks(blocks, route_at(&l.route, r)));
    let both = sets::share(blocks, inner);
    once & (paths & !both)
}

// Rule 2: the ends of each line.
pub fn rule_2(l: &Layout) -> bool
    ensures { result ≡ rule2 l.now }
{
    (0..l.lines).all(|i| rules::line_ends(&l.line, i))
}

// Rule 3: the lists of each route, and the points of each line.
pub fn rule_3(l: &Layout) -> bool
    ensures { result ≡ rule3 l.now }
{
    let routes = (0..l.routes).all(|r| rules::route_lists(route_at(&l.route, r)));
    let lines = (0..l.lines).all(|i| rules::line_points(&l.line, i));
    routes & lines
}

// Rule 4: the length of each route's path.
pub fn rule_4(l: &Layout) -> bool
    ensures { result ≡ rule4 l.now }
{
    (0..l.routes).all(|r| rules::route_length(route_at(&l.route, r)))
}

// Rule 5: where each route starts and ends.
pub fn rule_5(l: &Layout) -> bool
    ensures { result ≡ rule5 l.now }
{
    (0..l.routes).all(|r| rules::route_ends(&l.line, l.lines, route_at(&l.route, r)))
}

// Distant d announces its own carrier (request L2).
#[tactic(auto, unfolding(crate::specs::Layout::carrier_of, crate::specs::Layout::announced_by))]
fn announces_carrier(l: &Layout, d: u8) -> bool
    ensures { result ≡ announces_carrier (carrier_of l.now d) (announced_by l.now d) }
{
    let carrier = entry_or(&l.carrier, d as usize, 0);
    rules::announces_carrier(carrier, entry_or(&l.announced, d as usize, 0))
}

// Rule 7 (request L2): no distant announces its own carrier.
pub fn rule_7(l: &Layout) -> bool
    ensures { result ≡ rule7 l.now }
{
    (0..l.distants).all(|d| !announces_carrier(l, d))
}

// The numbers of each line are in range.
pub fn lines_fit(l: &Layout) -> bool
    ensures { result ≡ all_below l.now.lines (λ i. line_fits (counts l.now) (line_in l.now i)) }
{
    (0..l.lines).all(|i| track::line_fits(l.counts(), line_at(&l.line, i)))
}

// The numbers of each route are in range.
pub fn routes_fit(l: &Layout) -> bool
    ensures { result ≡ all_below l.now.routes (λ r. route_fits (counts l.now) (route_in l.now r)) }
{
    (0..l.routes).all(|r| track::route_fits(l.counts(), route_at(&l.route, r)))
}

// The numbers of distant d are in range, of so many signals (request L2).
#[tactic(auto, unfolding(crate::specs::Layout::carrier_of, crate::specs::Layout::announced_by))]
fn distant_in_range(l: &Layout, signals: u64, d: u8) -> bool
    ensures { result ≡ distant_fits signals (carrier_of l.now d) (announced_by l.now d) }
{
    let carrier = entry_or(&l.carrier, d as usize, 0);
    distant_fits(signals, carrier, entry_or(&l.announced, d as usize, 0))
}

// The numbers of each distant are in range (request L2).
pub fn distants_fit(l: &Layout) -> bool
    ensures { result ≡ all_below l.now.distants (λ d. distant_fits (signals_in l.now) (carrier_of l.now d) (announced_by l.now d)) }
{
    let signals = signal_count(l.signals, l.lines, &l.line);
    (0..l.distants).all(|d| distant_in_range(l, signals, d))
}

// The own section of each point is one that there is.
pub fn sections_fit(own: &[u8; POINTS], n: u8, sections: u8) -> bool
    ensures { result ≡ sections_fit n sections own.now }
{
    (0..n).all(|i| entry_or(own, i as usize, 0) < sections)
}

// The table of heads says 0 or 1 of each section.
pub fn heads_fit(fitted: &[u8; SECTIONS], n: u8) -> bool
    ensures { result ≡ all_below n (λ g. leb (get_or fitted.now g 0) 1) }
{
    (0..n).all(|g| entry_or(fitted, g as usize, 0) <= 1)
}
