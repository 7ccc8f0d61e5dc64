// The panel image into a lent buffer (section 7).
#![tactic(auto)]

mod distants;
mod lines;
mod objects;

ghost use Rattle.std.specs.Prelude.{◌≡◌, true, ◌≤◌, length};
ghost use Rattle.std.proofs.lemmas.List.Edits.{sets};
ghost use Rattle.interlocking.specs.Parts.{bare};
ghost use Rattle.panel.specs.Panel.{image, panel_length, answer_where, drawn_where, answer, drawn, panel_asked_in_run, answer_in_run, drawn_in_run};
ghost use Rattle.panel.specs.Writes.{FitsTables};

use distants::put_distants;
use interlocking::parts::core_of;
use interlocking::{Core, State};
use layout::Layout;
use lines::{count_blocks, put_lines};
use objects::{copy, put_routes};
use signals::{Shown, main_shown};
use tables::Tables;
use track::codes::LAMP_NONE;
use track::is_between;
use track::sizes::{
    LAMPS, MOST_DISTANTS, MOST_LINES, MOST_POINTS, MOST_SECTIONS, MOST_SIGNALS, MOST_TRAIN_ROUTES,
};

// The answer to a request for the image: 0 and how many bytes it has; 18 or 27 and 0. A number with a value beside it, as the C interface has it.
#[repr(C)]
#[derive(Clone, Copy)]
pub struct Drawn {
    pub number: u8,
    pub length: usize,
}

// How many bytes the image has.
fn panel_length(l: &Layout) -> usize
    ensures { result ≡ panel_length l.now }
{
    let blocks = count_blocks(l.lines, &l.line);
    let readings = l.sections as usize + l.points as usize;
    let objects = l.signals as usize + l.routes as usize + l.distants as usize + l.lines as usize;
    readings + objects + 3 * blocks
}

// The image, over the first bytes of the buffer: each part after the one before it. What lamps report is no part of it, so none are lent.
fn draw(l: &Layout, s: &Core, buffer: &mut [u8])
    requires { FitsTables l.now × (panel_length l.now ≤ length buffer.old) }
    ensures { buffer.new ≡ sets buffer.old 0 (image l.now (bare s.now)) }
{
    let no_lamps = [LAMP_NONE; LAMPS];
    let t = Tables {
        section: &s.section,
        point: &s.point,
        phase: &s.phase,
        direction: &s.direction,
        stage: &s.stage,
        bar: &s.bar,
        lamp: &no_lamps,
    };
    let mains = main_shown(l.routes, &l.route, &s.phase);
    let shown = Shown {
        mains: l.signals,
        lines: l.lines,
        line: &l.line,
        main: &mains,
        tables: t,
    };
    let points = copy(&s.section, l.sections, buffer, 0);
    let signals = copy(&s.point, l.points, buffer, points);
    let routes = copy(&mains, l.signals, buffer, signals);
    let distants = put_routes(&s.phase, l.routes, buffer, routes);
    let lines = put_distants(
        shown,
        l.distants,
        &l.carrier,
        &l.announced,
        buffer,
        distants,
    );
    let blocks = copy(&s.direction, l.lines, buffer, lines);
    put_lines(l.lines, &l.line, t, buffer, blocks);
}

// The image of a layout within the tables into a lent buffer: 0 and its length, with later bytes untouched; 27 for a buffer that is too short, with
// length 0 and the whole buffer untouched.
fn draw_in(l: &Layout, s: &Core, buffer: &mut [u8]) -> Drawn
    requires { FitsTables l.now }
    ensures { (result ≡ answer_where true l.now (bare s.now) (length buffer.old)) × (buffer.new ≡ drawn_where true l.now (bare s.now) buffer.old) }
{
    let n = panel_length(l);
    if buffer.len() < n {
        return Drawn {
            number: 27,
            length: 0,
        };
    }
    draw(l, s, buffer);
    Drawn {
        number: 0,
        length: n,
    }
}

// The panel image into a lent buffer. 18 for an unsound record comes before 27, with length 0 and the whole buffer untouched.
pub fn panel(state: &State, layout: &Layout, buffer: &mut [u8]) -> Drawn
    ensures { (result ≡ answer layout.now state.now (length buffer.old)) × (buffer.new ≡ drawn layout.now state.now buffer.old) }
{
    if !state.in_range() {
        return Drawn {
            number: 18,
            length: 0,
        };
    }
    if !layout.sound() {
        return Drawn {
            number: 18,
            length: 0,
        };
    }
    let core = core_of(state);
    draw_in(layout, &core, buffer)
}

// There is a section, none that is fitted is lacking, and there are no more objects than the tables hold.
#[tactic(auto, unfolding(crate::specs::Panel::panel_asked_in_run, laws::specs::Tests::every))]
fn is_drawable(l: &Layout) -> bool
    ensures { result ≡ panel_asked_in_run l.now }
{
    is_between(1, MOST_SECTIONS, l.sections)
        && l.points <= MOST_POINTS
        && l.signals <= MOST_SIGNALS
        && l.routes <= MOST_TRAIN_ROUTES
        && l.distants <= MOST_DISTANTS
        && l.lines <= MOST_LINES
        && l.lacking == 0
}

// The same in a run that asked soundness before its first event, of the nine tables: 18 asks no more of the layout than is needed to draw it and that no
// fitted section is lacking, and nothing of the state.
pub fn panel_in_run(core: &Core, layout: &Layout, buffer: &mut [u8]) -> Drawn
    ensures { (result ≡ answer_in_run layout.now (bare core.now) (length buffer.old)) × (buffer.new ≡ drawn_in_run layout.now (bare core.now) buffer.old) }
{
    if !is_drawable(layout) {
        return Drawn {
            number: 18,
            length: 0,
        };
    }
    draw_in(layout, core, buffer)
}
