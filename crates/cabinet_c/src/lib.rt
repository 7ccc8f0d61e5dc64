// The static library that a controller links (section 7): the entries of the cabinet under their C names. Each is the cabinet's own call, with its contract.
#![tactic(auto)]

ghost use Rattle.std.specs.Prelude.{◌≡◌};
ghost use Rattle.cabinet.specs.Calls.{records, power_on, load_file, fit_sections, give_event, draw_panel, after_call, tells};
ghost use Rattle.cabinet.specs.Cabinet.{reply, load_reply, drawn_reply};

use cabinet::{LoadReply, Reply};
use interlocking::State;
use layout::Layout;
use panel::Drawn;

// Both records at power-on: a layout with no objects, so that every event gets 18 until a file is loaded, and the cold start.
#[unsafe(no_mangle)]
pub extern "C" fn hiruketawha_power_on(state: &mut State, layout: &mut Layout)
    ensures { records layout.new state.new ≡ after_call (records layout.old state.old) power_on }
{
    cabinet::hiruketawha_power_on(state, layout);
}

// A layout file into the layout's record, with the state started anew. A refused file leaves every byte of both records as it was.
#[unsafe(no_mangle)]
pub extern "C" fn hiruketawha_load(
    state: &mut State,
    layout: &mut Layout,
    bytes: &[u8],
) -> LoadReply
    ensures { (result ≡ load_reply (tells (records layout.old state.old) (load_file bytes.now)))
        × (records layout.new state.new ≡ after_call (records layout.old state.old) (load_file bytes.now)) }
{
    cabinet::hiruketawha_load(state, layout, bytes)
}

// The sections that have heads (L1), told beside the layout. A refused file leaves every byte of both records as it was.
#[unsafe(no_mangle)]
pub extern "C" fn hiruketawha_fit(state: &mut State, layout: &mut Layout, bytes: &[u8]) -> LoadReply
    ensures { (result ≡ load_reply (tells (records layout.old state.old) (fit_sections bytes.now)))
        × (records layout.new state.new ≡ after_call (records layout.old state.old) (fit_sections bytes.now)) }
{
    cabinet::hiruketawha_fit(state, layout, bytes)
}

// One event on the state's record, on the layout of the layout's record.
#[unsafe(no_mangle)]
pub extern "C" fn hiruketawha_event(
    state: &mut State,
    layout: &Layout,
    kind: u32,
    first: u32,
    second: u32,
) -> Reply
    ensures { (result ≡ reply (tells (records layout.now state.old) (give_event kind first second)))
        × (records layout.now state.new ≡ after_call (records layout.now state.old) (give_event kind first second)) }
{
    cabinet::hiruketawha_event(state, layout, kind, first, second)
}

// The panel image into a lent buffer.
#[unsafe(no_mangle)]
pub extern "C" fn hiruketawha_panel(state: &State, layout: &Layout, image: &mut [u8]) -> Drawn
    ensures { (result ≡ drawn_reply (tells (records layout.now state.now) (draw_panel image.old)))
        × (image.new ≡ (tells (records layout.now state.now) (draw_panel image.old)).buffer) }
{
    cabinet::hiruketawha_panel(state, layout, image)
}
