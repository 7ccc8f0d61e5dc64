// A line of text.
use console::Reported;

// The line is the first bytes of its room; what there is no place for is left out.
#[derive(Clone, Copy)]
pub struct Line {
    room: [u8; 4096],
    used: usize,
}

// A code as a digit.
fn digit(code: u8) -> u8 {
    if code < 10 { 48 + code } else { b'?' }
}

impl Line {
    // An empty line.
    pub fn new() -> Line {
        Line {
            room: [0; 4096],
            used: 0,
        }
    }

    // Whether there is nothing in it.
    pub fn is_empty(&self) -> bool {
        self.used == 0
    }

    // Puts a byte.
    pub fn put(&mut self, byte: u8) {
        if self.used < 4096 {
            self.room[self.used] = byte;
            self.used += 1;
        }
    }

    // Puts a number.
    pub fn put_number(&mut self, n: u32) {
        let mut digits = [0u8; 20];
        let k = numerals::put_digits(20, n as u64, &mut digits, 0);
        for byte in &digits[..k.min(20)] {
            self.put(*byte);
        }
    }

    // Puts the first n codes of a table, as far as it has so many, each in so many digits, one or two, and a space.
    pub fn put_codes(&mut self, codes: &[u8], n: usize, digits: u8) {
        for code in &codes[..n.min(codes.len())] {
            if digits == 2 {
                self.put(digit(*code / 10));
                self.put(digit(*code % 10));
            } else {
                self.put(digit(*code));
            }
        }
        self.put(b' ');
    }

    // Writes the line with its end.
    pub fn write(&mut self, rt: &HostRuntime) -> Result<(), Reported> {
        self.put(b'\n');
        console::print(rt, &self.room[..self.used.min(4096)])
    }
}
