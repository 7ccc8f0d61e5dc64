// The layout file from its first number to its last.
ghost use Rattle.std.specs.Prelude.{◌≡◌, ◌<◌};
ghost use Rattle.track.specs.SignalNumbers.{signal_count};
ghost use Rattle.layout.specs.Load.{heading, whole};
ghost use Rattle.layout.specs.Reading.{HeadingRead, WholeRead};

use super::{Layout, none_fitted};
use fields::next_code;
use numbers::Fault;
use track::signals::signal_count;
use track::sizes::{LAST_VERSION, LINES, MOST_SECTIONS, MOST_SIGNALS, POINTS};
use track::{Counts, Line};

// What the file begins with: version, sections, points, signals.
#[derive(Clone, Copy)]
pub struct Heading {
    pub version: u8,
    pub sections: u8,
    pub points: u8,
    pub pointsection: [u8; POINTS],
    pub signals: u8,
}

// Version 1 or 2; sections 1 to 64; points, each with its own section; signals 0 to 32.
fn read_heading(s: &[u8], at: &mut usize) -> Result<Heading, Fault>
    requires { at.old ≡ 0 }
    ensures { HeadingRead result at.new (heading s.now) }
{
    let version = next_code(s, at, 1, LAST_VERSION)?;
    let sections = next_code(s, at, 1, MOST_SECTIONS)?;
    let owned = file_objects::next_sections(s, at, sections)?;
    let signals = next_code(s, at, 0, MOST_SIGNALS)?;
    let pointsection = owned.section;
    Ok(Heading {
        version,
        sections,
        points: owned.count,
        pointsection,
        signals,
    })
}

// How many signals there are, which a byte holds: m main signals, and the block signals of n lines.
fn few_signals(m: u8, n: u8, ls: &[Line; LINES]) -> u8
    requires { signal_count m n ls.now < 256 }
    ensures { result ≡ signal_count m n ls.now }
{
    signal_count(m, n, ls) as u8
}

// The whole file.
pub fn read_layout(s: &[u8], at: &mut usize) -> Result<Layout, Fault>
    requires { at.old ≡ 0 }
    ensures { WholeRead result at.new (whole s.now) }
{
    let h = read_heading(s, at)?;
    let mut counts = Counts {
        sections: h.sections,
        points: h.points,
        signals: h.signals,
        lines: 0,
    };
    let l = file_objects::next_lines(s, at, counts)?;
    let signals = few_signals(h.signals, l.count, &l.line);
    let d = file_objects::next_distants(s, at, h.version, signals)?;
    counts.lines = l.count;
    let r = file_objects::next_routes(s, at, counts)?;
    let p = pairs::next_pairs(s, at, r.count)?;
    // A literal takes an array of a field by a variable alone.
    let pointsection = h.pointsection;
    let line = l.line;
    let carrier = d.carrier;
    let announced = d.announced;
    let route = r.route;
    let conflict = p.conflict;
    let fitted = none_fitted();
    Ok(Layout {
        version: h.version,
        sections: h.sections,
        points: h.points,
        pointsection,
        signals: h.signals,
        lines: l.count,
        line,
        distants: d.count,
        carrier,
        announced,
        routes: r.count,
        route,
        conflict,
        fitted,
        lacking: 0,
    })
}
