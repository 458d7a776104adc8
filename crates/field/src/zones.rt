// Document 01's zones by number. Those of a side are these plus the side; a holding at 3000 has the side's own number.
pub const AT_2000: usize = 2;

pub const LATERAL: usize = 4;

pub const MISSED: usize = 6;

pub const BASE: usize = 8;

// Those of neither side.
pub const INTERMEDIATE: usize = 11;

pub const FINAL: usize = 12;

pub const RUNWAY: usize = 13;

// The last zone of those that hold one aircraft, the first that is flown in, the last of the missed ones, and the first of the approach.
pub const LAST_LATERAL: usize = 6;

pub const FIRST_FLOWN: usize = 7;

pub const LAST_MISSED: usize = 8;

pub const FIRST_BASE: usize = 9;
