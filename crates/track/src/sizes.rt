// How many of each there may be: the most that section 2 allows, and the length of the table that holds them. `specs/Sizes` has the same. The first
// of each two is an array's length; the second is the same number as a byte, as counts and numbers of objects are.

// Sections, points, main signals.
pub const SECTIONS: usize = 64;

pub const MOST_SECTIONS: u8 = 64;

pub const POINTS: usize = 32;

pub const MOST_POINTS: u8 = 32;

pub const SIGNALS: usize = 32;

pub const MOST_SIGNALS: u8 = 32;

// Lines, the blocks of one line, and the places of all blocks of all lines in a table of blocks.
pub const LINES: usize = 8;

pub const MOST_LINES: u8 = 8;

pub const BLOCKS: usize = 8;

pub const MOST_BLOCKS: u8 = 8;

pub const PLACES: usize = LINES * BLOCKS;

pub const MOST_PLACES: u8 = 64;

// Lamps (request L3), one for each main and block signal: a line of eight blocks has seven block signals each way.
pub const LAMPS: usize = SIGNALS + LINES * 2 * (BLOCKS - 1);

pub const MOST_LAMPS: u64 = 144;

// Distants (request L2); the last version of the layout file.
pub const DISTANTS: usize = 32;

pub const MOST_DISTANTS: u8 = 32;

pub const LAST_VERSION: u8 = 2;

// Train routes, of which the layout has a record each; all routes that have a number, a phase and conflicts. Today all routes are train routes.
pub const TRAIN_ROUTES: usize = 48;

pub const MOST_TRAIN_ROUTES: u8 = 48;

pub const ROUTES: usize = TRAIN_ROUTES;

pub const MOST_ROUTES: u8 = 48;

// Pairs of routes: the places of the table of conflicts, for each two routes both ways; the pairs of train routes that a file may list.
pub const PAIRS: usize = ROUTES * ROUTES;

pub const MOST_CONFLICTS: u64 = 1128;

// The entries of a list of a line or a route: blocks, path, overlap, points; the sections of an overlap.
pub const LISTED: usize = 8;

pub const MOST_LISTED: u8 = 8;

pub const MOST_OVERLAP: u8 = 4;
