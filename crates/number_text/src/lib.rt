// Numbers as a person writes them, in decimal with comments, turned into the number form of section 2 and back, a piece of a file at a time.
#![tactic(auto)]

mod pack;
mod unpack;
mod word;

pub use pack::{Packed, Reader, pack_piece, start};
pub use unpack::{Unpacked, unpack_piece};
pub use word::read_word;
