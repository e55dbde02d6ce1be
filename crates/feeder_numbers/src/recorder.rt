// The numbers of a recorder's record: which is which. The first five are its store's, `capture::record`.
pub const LIMIT: usize = 5;

pub const PRE: usize = 6;
// not 0: it waits
pub const WAITS: usize = 7;
// the lines of each condition
pub const HIGH_LINES: usize = 8;

pub const LOW_LINES: usize = 9;

pub const RISING_LINES: usize = 10;

pub const FALLING_LINES: usize = 11;

pub const EDGE_LINES: usize = 12;
// not 0: there is a previous sample
pub const KNOWN: usize = 13;

pub const PREVIOUS: usize = 14;
// the ring's next slot
pub const RING_PLACE: usize = 15;

pub const KEPT: usize = 16;
