// The records that live in the cabinet from power-on, and the entries that a controller calls, through the static library cabinet_c (sections 2, 3, 7, L1).
// One thin entry lends the state's record to the event and changes it there; all else reads states that are lent and returns them as values.
// Each call's contract is the call's definition in specs/Calls.
#![tactic(auto)]

ghost use Rattle.std.specs.Prelude.{◌≡◌};
ghost use Rattle.fitted.specs.Reading.{told_of};
ghost use Rattle.cabinet.specs.Calls.{records, power_on, load_file, fit_sections, give_event, draw_panel, after_fit, after_call, tells};
ghost use Rattle.cabinet.specs.Cabinet.{reply, load_reply, drawn_reply};

use interlocking::State;
use layout::Layout;
use numbers::Fault;
use panel::Drawn;

// What is told of an event: the answer's number and its detail.
#[repr(C)]
#[derive(Clone, Copy)]
pub struct Reply {
    pub number: u8,
    pub detail: u32,
}

// What is told of a layout file, or of a file of fitted sections: the answer's number and its detail.
#[repr(C)]
#[derive(Clone, Copy)]
pub struct LoadReply {
    pub number: u8,
    pub detail: usize,
}

// One event on the state's record: the step is made of it, and its next state is stored in its place.
pub fn event(state: &mut State, plan: &Layout, kind: u32, first: u32, second: u32) -> Reply
    ensures { (result ≡ reply (tells (records plan.now state.old) (give_event kind first second)))
        × (records plan.now state.new ≡ after_call (records plan.now state.old) (give_event kind first second)) }
{
    let a = state.step(plan, kind, first, second);
    *state = a.next;
    Reply {
        number: a.number,
        detail: a.detail,
    }
}

// An answered file: an accepted one leaves the layout that it makes and starts the state anew, a refused one leaves every byte of both records as it was.
fn answer_file(state: &mut State, layout: &mut Layout, file: Result<Layout, Fault>) -> LoadReply
    ensures { (result.number ≡ (told_of layout.old file).number) × (result.detail ≡ (told_of layout.old file).detail)
        × (records layout.new state.new ≡ after_fit (records layout.old state.old) (told_of layout.old file)) }
{
    match file {
        Ok(made) => {
            *layout = made;
            *state = State::cold();
            LoadReply {
                number: 0,
                detail: 0,
            }
        }
        Err(fault) => LoadReply {
            number: fault.number(),
            detail: fault.detail(),
        },
    }
}

// Both records at power-on: a layout with no objects, so that every event gets 18 until a file is loaded, and the cold start.
pub fn hiruketawha_power_on(state: &mut State, layout: &mut Layout)
    ensures { records layout.new state.new ≡ after_call (records layout.old state.old) power_on }
{
    *layout = layout::no_layout();
    *state = State::cold();
}

// A layout file into the layout's record, with the state started anew. A refused file leaves every byte of both records as it was.
pub fn hiruketawha_load(state: &mut State, layout: &mut Layout, bytes: &[u8]) -> LoadReply
    ensures { (result ≡ load_reply (tells (records layout.old state.old) (load_file bytes.now)))
        × (records layout.new state.new ≡ after_call (records layout.old state.old) (load_file bytes.now)) }
{
    let file = layout::load(bytes);
    answer_file(state, layout, file)
}

// The sections that have heads (L1), told beside the layout: the layout's record is equipped with these and no others, and the state starts anew.
// A refused file leaves every byte of both records as it was.
pub fn hiruketawha_fit(state: &mut State, layout: &mut Layout, bytes: &[u8]) -> LoadReply
    ensures { (result ≡ load_reply (tells (records layout.old state.old) (fit_sections bytes.now)))
        × (records layout.new state.new ≡ after_call (records layout.old state.old) (fit_sections bytes.now)) }
{
    let file = fitted::fit(layout, bytes);
    answer_file(state, layout, file)
}

// One event on the state's record, on the layout of the layout's record.
pub fn hiruketawha_event(
    state: &mut State,
    layout: &Layout,
    kind: u32,
    first: u32,
    second: u32,
) -> Reply
    ensures { (result ≡ reply (tells (records layout.now state.old) (give_event kind first second)))
        × (records layout.now state.new ≡ after_call (records layout.now state.old) (give_event kind first second)) }
{
    event(state, layout, kind, first, second)
}

// The panel image into a lent buffer.
pub fn hiruketawha_panel(state: &State, layout: &Layout, image: &mut [u8]) -> Drawn
    ensures { (result ≡ drawn_reply (tells (records layout.now state.now) (draw_panel image.old)))
        × (image.new ≡ (tells (records layout.now state.now) (draw_panel image.old)).buffer) }
{
    panel::panel(state, layout, image)
}
