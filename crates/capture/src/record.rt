// The numbers of a capture's record where it crosses as numbers, as at the C boundary: which is which. A recorder's begin with them.
pub const UNIT: usize = 0;

pub const CAPACITY: usize = 1;

pub const LEN: usize = 2;
// not 0: there is a mark
pub const MARKED: usize = 3;

pub const MARK: usize = 4;
