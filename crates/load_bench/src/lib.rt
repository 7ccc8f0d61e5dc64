// The loader, for a program in another language to time.
#![tactic(auto)]

ghost use Rattle.std.specs.Prelude.{◌≡◌, ◌+◌, ◌*◌, ◌%◌, get_or};
ghost use Rattle.track.specs.Objects.{route};
ghost use Rattle.layout.specs.Load.{load};
ghost use Rattle.load_bench.specs.Packed.{packed};

use layout::Layout;

// The overlap section at a place of a route.
fn look(l: &Layout, r: u8, place: u8) -> u8
    ensures { result ≡ get_or (route l.now.route r).overlap place 0 }
{
    laws::at8(&track::route_at(&l.route, r).overlap, place)
}

// The answer in the lowest byte, then 16 bits of the detail, then a section.
fn pack(number: u8, detail: usize, section: u8) -> u64
    ensures { result ≡ number + 256 * (detail % 65536) + 16777216 * section }
{
    number as u64 + 256 * ((detail % 65536) as u64) + 16777216 * (section as u64)
}

// What loading a file answers, with an overlap section of the layout, so that the layout is made and not only judged.
#[unsafe(no_mangle)]
pub extern "C" fn load_bench_answer(bytes: &[u8], r: u8, place: u8) -> u64
    ensures { result ≡ packed (load bytes.now) r place }
{
    match layout::load(bytes) {
        Ok(l) => pack(0, 0, look(&l, r, place)),
        // The layout with no objects has no overlap.
        Err(fault) => pack(fault.number(), fault.detail(), 0),
    }
}
