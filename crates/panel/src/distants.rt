// The bytes of distants (request L2).
ghost use Rattle.std.specs.Prelude.{◌≡◌, ◌+◌, ◌≤◌, length, get_or};
ghost use Rattle.laws.specs.Tables.{table};
ghost use Rattle.track.specs.Sizes.{most_distants};
ghost use Rattle.signals.specs.Shows.{number_shown_by};
ghost use Rattle.signals.specs.Distants.{distant_shows};
ghost use Rattle.panel.specs.Writes.{Wrote};

use signals::{Shown, distant_shown};
use track::sizes::DISTANTS;

// The bytes of the first count distants, by what signals show, over the buffer from a place on; the place after them.
pub fn put_distants<'a>(
    s: Shown<'a>,
    count: u8,
    carriers: &'a [u8; DISTANTS],
    announced: &'a [u8; DISTANTS],
    buffer: &mut [u8],
    at: usize,
) -> usize
    requires { (count ≤ most_distants) × (at + count ≤ length buffer.old) }
    ensures { Wrote buffer.old at (table count (λ d. distant_shows (number_shown_by s.entry.mains s.entry.lines s.entry.line.now s.entry.main.now s.entry.tables.direction.now s.entry.tables.point.now s.entry.tables.stage.now s.entry.tables.bar.now) (get_or carriers.now d 0) (get_or announced.now d 0))) buffer.new result }
{
    let mut next = at;
    for d in 0..count {
        buffer[next] = distant_shown(s, carriers[d as usize], announced[d as usize]);
        next += 1;
    }
    next
}
