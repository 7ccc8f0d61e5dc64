// What is asked of each two routes: rule 6, and that the table of conflicts says the same both ways.
ghost use Rattle.std.specs.Prelude.{◌≡◌, ◌<◌, ◌≤◌};
ghost use Rattle.laws.specs.Tests.{all_below};
ghost use Rattle.track.specs.Sizes.{most_train_routes};
ghost use Rattle.layout.specs.Layout.{entry_of};
ghost use Rattle.layout.specs.Sound.{pair_mirrors, row_mirrors};
ghost use Rattle.layout.specs.Walks.{no_reach, reaches, pair_keeps, row_keeps};

use pairs::place_of;
use rules::Reach;
use track::Route;
use track::sizes::{MOST_TRAIN_ROUTES, PAIRS, TRAIN_ROUTES};

// The entry of the table of conflicts for the routes r and q.
fn entry(m: &[u8; PAIRS], r: u8, q: u8) -> u8
    requires { (r < most_train_routes) × (q < most_train_routes) }
    ensures { result ≡ entry_of m.now r q }
{
    let place = place_of(r, q);
    m[place]
}

// Nothing that rule 6 could ask for.
fn no_reach() -> Reach
    ensures { result ≡ no_reach }
{
    Reach {
        entry: 0,
        path: 0,
        left: 0,
        right: 0,
    }
}

// What rule 6 asks of each route.
fn reach_table(rs: &[Route; TRAIN_ROUTES]) -> [Reach; TRAIN_ROUTES]
    ensures { result ≡ reaches rs.now }
{
    let none = no_reach();
    let mut t = [none; TRAIN_ROUTES];
    for i in 0..MOST_TRAIN_ROUTES {
        let a = rs[i as usize];
        t[i as usize] = rules::route_reach(a);
    }
    t
}

// Rule 6 for the routes r and q: where they clash they are listed.
fn pair_keeps(m: &[u8; PAIRS], r: u8, q: u8, a: Reach, b: Reach) -> bool
    requires { (r < most_train_routes) × (q < most_train_routes) }
    ensures { result ≡ pair_keeps m.now r q a b }
{
    if entry(m, r, q) == 1 {
        return true;
    }
    !rules::clash(a, b)
}

// Rule 6 for each of n routes and each before it.
fn rows_keep(m: &[u8; PAIRS], t: &[Reach; TRAIN_ROUTES], n: u8) -> bool
    requires { n ≤ most_train_routes }
    ensures { result ≡ all_below n (λ r. all_below r (row_keeps m.now t.now r)) }
{
    for r in 0..n {
        let a = t[r as usize];
        for q in 0..r {
            let b = t[q as usize];
            if !pair_keeps(m, r, q, a, b) {
                return false;
            }
        }
    }
    true
}

// Rule 6.
pub fn rule_6(m: &[u8; PAIRS], n: u8, rs: &[Route; TRAIN_ROUTES]) -> bool
    requires { n ≤ most_train_routes }
    ensures { result ≡ all_below n (λ r. all_below r (row_keeps m.now (reaches rs.now) r)) }
{
    let t = reach_table(rs);
    rows_keep(m, &t, n)
}

// The table says the same of r and q as of q and r, and says 0 or 1.
fn pair_mirrors(m: &[u8; PAIRS], r: u8, q: u8) -> bool
    requires { (r < most_train_routes) × (q < most_train_routes) }
    ensures { result ≡ pair_mirrors m.now r q }
{
    let one = entry(m, r, q);
    let other = entry(m, q, r);
    (one <= 1) & (one == other)
}

// So it does of the route r and each before it.
fn pairs_mirror(m: &[u8; PAIRS], r: u8) -> bool
    requires { r < most_train_routes }
    ensures { result ≡ all_below r (pair_mirrors m.now r) }
{
    for q in 0..r {
        if !pair_mirrors(m, r, q) {
            return false;
        }
    }
    true
}

// And it does not list the route r as conflicting with itself.
fn row_mirrors(m: &[u8; PAIRS], r: u8) -> bool
    requires { r < most_train_routes }
    ensures { result ≡ row_mirrors m.now r }
{
    let own = entry(m, r, r);
    let rest = pairs_mirror(m, r);
    (own == 0) & rest
}

// The conflicts of n routes are pairs of two, listed both ways.
pub fn mirrored(m: &[u8; PAIRS], n: u8) -> bool
    requires { n ≤ most_train_routes }
    ensures { result ≡ all_below n (row_mirrors m.now) }
{
    for r in 0..n {
        if !row_mirrors(m, r) {
            return false;
        }
    }
    true
}
