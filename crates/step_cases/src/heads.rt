// The heads of sections (request L1): changed by hand, compared, and written.
use super::by_hand::Change;
use super::text::Line;
use axles::{Axles, Head, PROVED, UNPROVED};
use interlocking::State;
use layout::Layout;
use track::sizes::SECTIONS;

// A number of two bytes with the lower one changed.
fn with_low(n: u16, byte: u8) -> u16 {
    n / 256 * 256 + byte as u16
}

// The same with the higher one.
fn with_high(n: u16, byte: u8) -> u16 {
    n % 256 + 256 * byte as u16
}

// A head with one of its six bytes changed; any other number changes nothing.
fn change_head(h: &mut Head, at: usize, byte: u8) {
    match at {
        0 => h.inward = with_low(h.inward, byte),
        1 => h.inward = with_high(h.inward, byte),
        2 => h.outward = with_low(h.outward, byte),
        3 => h.outward = with_high(h.outward, byte),
        4 => h.hasin = byte,
        5 => h.hasout = byte,
        _ => {}
    }
}

// The heads of a section with one of their sixteen bytes changed.
fn change_axles(x: &mut Axles, at: usize, byte: u8) {
    match at {
        0..=5 => change_head(&mut x.head0, at, byte),
        6..=11 => change_head(&mut x.head1, at - 6, byte),
        12 => x.sum = with_low(x.sum, byte),
        13 => x.sum = with_high(x.sum, byte),
        14 => x.proof = with_low(x.proof, byte),
        15 => x.proof = with_high(x.proof, byte),
        _ => {}
    }
}

// A state's heads with a byte changed: sixteen for each section, in the order in which the record declares them.
pub fn change_heads(axles: &mut [Axles], c: Change) {
    if let Some(x) = axles.get_mut(c.place / 16) {
        change_axles(x, c.place % 16, c.byte);
    }
}

// Whether two heads are the same. The box's own records have no equality: the box never asks for it.
fn same_head(a: &Head, b: &Head) -> bool {
    a.inward == b.inward && a.outward == b.outward && a.hasin == b.hasin && a.hasout == b.hasout
}

// Whether the heads of two sections are the same.
fn same_axles(a: &Axles, b: &Axles) -> bool {
    same_head(&a.head0, &b.head0)
        && same_head(&a.head1, &b.head1)
        && a.sum == b.sum
        && a.proof == b.proof
}

// Whether all heads are the same in two states.
pub fn same_heads(xs: &[Axles; SECTIONS], ys: &[Axles; SECTIONS]) -> bool {
    xs.iter().zip(ys.iter()).all(|(x, y)| same_axles(x, y))
}

// Puts a count and a comma; a stroke for one that has not come.
fn put_count(line: &mut Line, has: u8, n: u16) {
    if has == 1 {
        line.put_number(n as u32);
    } else {
        line.put(b'-');
    }
    line.put(b',');
}

// Puts both counts of a head.
fn put_head(line: &mut Line, h: &Head) {
    put_count(line, h.hasin, h.inward);
    put_count(line, h.hasout, h.outward);
}

// A proof as a digit: 0 where there was no reset.
fn proof_digit(proof: u16) -> u8 {
    match proof {
        UNPROVED => b'1',
        PROVED => b'2',
        _ => b'0',
    }
}

// Puts the counts of a section's heads, the sum at the last reset and its proof.
fn put_axles(line: &mut Line, x: &Axles) {
    put_head(line, &x.head0);
    put_head(line, &x.head1);
    line.put_number(x.sum as u32);
    line.put(b',');
    line.put(proof_digit(x.proof));
    line.put(b' ');
}

// Puts the heads of each section of a layout that has some.
pub fn put_heads(line: &mut Line, plan: &Layout, s: &State) {
    for g in 0..SECTIONS {
        if g < plan.sections as usize && plan.fitted[g] == 1 {
            put_axles(line, &s.axles[g]);
        }
    }
}
