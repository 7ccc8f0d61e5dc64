// Which sections have heads (L1): the file beside the layout's in which they are told, section numbers in any order; no bytes where there are none.
#![tactic(auto)]

ghost use Rattle.std.specs.Prelude.{◌≡◌, set};
ghost use Rattle.fitted.specs.Fitted.{with_told, none_told, lacking_with, tell, fit};
ghost use Rattle.fitted.specs.Pieces.{ended, piece_of};
ghost use Rattle.fitted.specs.Reading.{in_numbers, told_of};
ghost use Rattle.numbers.specs.Given.{number_of, detail_of};

use laws::wide;
use layout::Layout;
use numbers::Fault;
use track::sizes::SECTIONS;

// What was told so far: fitted has 1 where a section was told, else 0; lacking is 1 where one was told that there is not, else 0.
#[derive(Clone, Copy)]
pub struct Told {
    pub fitted: [u8; SECTIONS],
    pub lacking: u8,
}

// Where reading a piece of the file ended.
#[derive(Clone, Copy)]
pub enum End {
    // The next number, whose place this is, lies past the piece's end.
    Later { at: usize },
    // At the file's end.
    AtEnd { at: usize },
    // At a fault.
    Bad { fault: Fault },
}

// How far a piece of the file was read: what was told until then, and where it ended.
#[derive(Clone, Copy)]
pub struct Piece {
    pub told: Told,
    pub end: End,
}

// Nothing was told.
pub fn none_told() -> Told
    ensures { result ≡ none_told }
{
    let fitted = layout::none_fitted();
    Told { fitted, lacking: 0 }
}

// The table of fitted sections with 1 at n, where it has such a place.
fn with_section(fitted: [u8; SECTIONS], n: u64) -> [u8; SECTIONS]
    ensures { result ≡ set fitted n 1 }
{
    let mut told = fitted;
    if n < SECTIONS as u64 {
        told[n as usize] = 1;
    }
    told
}

// Whether a section is lacking, when n is told too.
fn lacking_with(sections: u8, lacking: u8, n: u64) -> u8
    ensures { result ≡ lacking_with sections lacking n }
{
    if wide(sections) <= n {
        return 1;
    }
    lacking
}

// What was told, and n.
fn tell(sections: u8, t: Told, n: u64) -> Told
    ensures { result ≡ tell sections t n }
{
    let before = t.fitted;
    let fitted = with_section(before, n);
    let lacking = lacking_with(sections, t.lacking, n);
    Told { fitted, lacking }
}

// A piece that was read as far as a fault. A number that a piece cuts off is read again with what follows the piece.
fn ended(last: bool, told: Told, fault: Fault) -> Piece
    ensures { in_numbers result ≡ ended last told (detail_of fault) (number_of fault) }
{
    if last {
        return Piece {
            told,
            end: End::Bad { fault },
        };
    }
    if fault.number() == 22 {
        return Piece {
            told,
            end: End::Bad { fault },
        };
    }
    Piece {
        told,
        end: End::Later { at: fault.detail() },
    }
}

// A piece that was read through, up to a place.
fn read_through(last: bool, told: Told, at: usize) -> Piece
    ensures { in_numbers result ≡ ended last told at 0 }
{
    if last {
        return Piece {
            told,
            end: End::AtEnd { at },
        };
    }
    Piece {
        told,
        end: End::Later { at },
    }
}

// The numbers of a piece of the file from a place on are told of a layout with so many sections, after what was told before.
pub fn tell_piece(sections: u8, told: Told, bytes: &[u8], from: usize, last: bool) -> Piece
    ensures { in_numbers result ≡ piece_of sections last bytes.now told from }
{
    let mut t = told;
    let mut at = from;
    // The place moves by a number's length, which its reading tells: no index is counted.
    while at < bytes.len() {
        match numbers::read(bytes, at) {
            Ok(number) => {
                t = tell(sections, t, number.value);
                at = number.next;
            }
            Err(fault) => return ended(last, t, fault),
        }
    }
    read_through(last, t, at)
}

// The layout with what was told.
pub fn equip(layout: &Layout, told: Told) -> Layout
    ensures { result ≡ with_told layout.now told }
{
    let fitted = told.fitted;
    Layout {
        fitted,
        lacking: told.lacking,
        ..*layout
    }
}

// The layout with the sections that a file tells, whatever its bytes, or the first fault met.
pub fn fit(layout: &Layout, bytes: &[u8]) -> Result<Layout, Fault>
    ensures { told_of layout.now result ≡ fit layout.now bytes.now }
{
    let none = none_told();
    let p = tell_piece(layout.sections, none, bytes, 0, true);
    if let End::Bad { fault } = p.end {
        return Err(fault);
    }
    let told = p.told;
    Ok(equip(layout, told))
}
