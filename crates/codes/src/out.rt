// Numbers behind an out pointer that takes several: which is which.
// the memory that a capture takes
pub const SIZE_SAMPLES: usize = 0;

pub const SIZE_LEVEL_1: usize = 1;

pub const SIZE_LEVEL_2: usize = 2;

pub const SIZE_LEVEL_3: usize = 3;

pub const SIZE_LEVEL_4: usize = 4;
// a node, but for its count, which has a pointer of its own
pub const NODE_FIRST: usize = 0;

pub const NODE_LAST: usize = 1;

pub const NODE_TOGGLES: usize = 2;
// a burst
pub const BURST_FIRST: usize = 0;

pub const BURST_LAST: usize = 1;

pub const BURST_JUMPS_END: usize = 2;

pub const BURST_JUMPS_START: usize = 3;
// an encoder's steps; its position has a pointer of its own
pub const ENCODER_FORWARD: usize = 0;

pub const ENCODER_BACKWARD: usize = 1;

pub const ENCODER_SKIPPED: usize = 2;
// the jumps of a mill's burst; its ends have pointers of their own
pub const MILL_JUMPS_END: usize = 0;

pub const MILL_JUMPS_START: usize = 1;
// what block 0 of a file says
pub const SAID_UNIT: usize = 0;

pub const SAID_LEN: usize = 1;

pub const SAID_MARKED: usize = 2;

pub const SAID_MARK: usize = 3;
// what was salvaged of a file: how many stretches are unknown, and how many samples were replaced
pub const SALVAGED_STRETCHES: usize = 0;

pub const SALVAGED_REPLACED: usize = 1;
