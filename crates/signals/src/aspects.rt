// What a signal shows, by the paper's numbers (sections 4 and 7); `specs/Aspects` has the same.
// Numbers and no enum, since they are the bytes of the panel image, which the caller in C reads.

pub const DARK: u8 = 0;

pub const STOP: u8 = 20;

pub const PROCEED_DIVERGING: u8 = 21;

pub const PROCEED: u8 = 22;

// What a distant shows while its main signal shows 20, 21, 22 (request L2).
pub const WARNS_OF_STOP: u8 = 23;

pub const WARNS_OF_DIVERGING: u8 = 24;

pub const WARNS_OF_PROCEED: u8 = 25;
