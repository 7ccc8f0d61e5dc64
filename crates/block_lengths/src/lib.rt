// How long two blocks one after the other may be (request L13): tables 7.1 and 7.2 of JD 550 chapter 7, and the straight line between their headways.
#![tactic(auto)]

mod metres;
mod paper;

ghost use Rattle.std.specs.Prelude.{◌≡◌, ◌≤◌, ◌<◌};
ghost use Rattle.block_lengths.specs.Lengths.{interpolated, length_in, refusal, answer};
ghost use Rattle.block_lengths.specs.Told.{refusal_number, told};
ghost use Rattle.block_lengths.specs.Tables.{Rises};

pub use metres::millimetres;
pub use paper::speed_of;

// The lengths in metres for one headway in seconds and one speed in km/h.
#[repr(C)]
#[derive(Clone, Copy)]
pub struct BlockLengths {
    pub headway: u32,
    pub speed: u32,
    // Table 7.1: where there is no stopping place.
    pub plain: f64,
    // Table 7.2: next to a stopping place and past it.
    pub stopping: f64,
}

// What a C program is told: 0 with the lengths, or the refusal's number with a record of zeros. A Result has no form in C.
#[repr(C)]
#[derive(Clone, Copy)]
pub struct LengthsAnswer {
    pub number: u8,
    pub lengths: BlockLengths,
}

// Why there are no lengths.
#[derive(Clone, Copy, Debug, PartialEq, Eq)]
pub enum Refusal {
    // The headway is not one of 120 to 600.
    BadHeadway,
    // The speed is none of the six.
    BadSpeed,
}

impl Refusal {
    // The refusal's number.
    fn number(self) -> u8
        ensures { result ≡ refusal_number self }
    {
        match self {
            Refusal::BadHeadway => 28,
            Refusal::BadSpeed => 29,
        }
    }
}

// So many seconds on from low, of the 60 to high.
fn interpolate(low: u16, high: u16, seconds: u32) -> f64
    requires { (low ≤ high) × (seconds < 60) }
    ensures { result ≡ interpolated low high seconds }
{
    let rise = (high - low) as u32;
    low as f64 + (rise * seconds) as f64 / 60.0
}

// The length of a table for a headway and a column.
fn length_in(table: [[u16; 6]; 9], headway: u32, column: usize) -> f64
    requires { (120 ≤ headway) × (headway ≤ 600) × (column < 6) × Rises table }
    ensures { result ≡ length_in table headway column }
{
    let row = ((headway - 120) / 60) as usize;
    let seconds = (headway - 120) % 60;
    let low = table[row][column];
    if seconds == 0 {
        return low as f64;
    }
    interpolate(low, table[row + 1][column], seconds)
}

// The lengths for a headway and a speed.
pub fn lengths(headway: u32, speed: u32) -> Result<BlockLengths, Refusal>
    ensures { told result ≡ answer headway speed }
{
    if headway < 120 || 600 < headway {
        return Err(Refusal::BadHeadway);
    }
    let Some(column) = paper::column_of(speed) else {
        return Err(Refusal::BadSpeed);
    };
    Ok(BlockLengths {
        headway,
        speed,
        plain: length_in(paper::table_7_1(), headway, column),
        stopping: length_in(paper::table_7_2(), headway, column),
    })
}

// A refusal for a C program, with a record of zeros.
fn refused(number: u8) -> LengthsAnswer
    ensures { result ≡ refusal number }
{
    LengthsAnswer {
        number,
        lengths: BlockLengths {
            headway: 0,
            speed: 0,
            plain: 0.0,
            stopping: 0.0,
        },
    }
}

// The lengths for a C program, which calls it through block_lengths_c: its record has 0 and the lengths, or the refusal's number.
pub fn hiruketawha_lengths(headway: u32, speed: u32) -> LengthsAnswer
    ensures { result ≡ answer headway speed }
{
    match lengths(headway, speed) {
        Ok(lengths) => LengthsAnswer { number: 0, lengths },
        Err(refusal) => refused(refusal.number()),
    }
}
