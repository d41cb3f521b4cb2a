// Where a report's fields stand, and its sizes: 01, "Report".
pub const UNUSED: usize = 2;

pub const UNUSED_LAST: usize = 3;

pub const MSIX: usize = 4;

pub const LNR: usize = 6;

pub const TPH: usize = 8;

pub const COUNT: usize = 12;

pub const RANGES: usize = 16;

// A report without ranges and information, the longest one, and the longest portion of one.
pub const LEAST_REPORT: usize = 20;

pub const MOST_REPORT: usize = 200;

pub const MOST_PORTION: usize = 128;

// A reply with a portion: where the portion's length and the remainder's stand, and where the portion starts.
pub const PORTION_LENGTH: usize = 16;

pub const REMAINDER_LENGTH: usize = 18;

pub const PORTION: usize = 20;
