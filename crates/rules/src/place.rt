// Where a record's fields stand, first and last byte: 01, "The table". The bytes after the range count, the LNR control and the offset are unused.
pub const FUNCTION_ID: usize = 0;

pub const STATE: usize = 4;

pub const HELD: usize = 5;

pub const FLAGS: usize = 6;

pub const STREAM: usize = 8;

pub const SESSION: usize = 9;

pub const RANGE_COUNT: usize = 10;

pub const AFTER_COUNT: usize = 11;

pub const INTERFACE_INFO: usize = 12;

pub const MSIX_CONTROL: usize = 14;

pub const LNR_CONTROL: usize = 16;

pub const AFTER_LNR: usize = 18;

pub const AFTER_LNR_LAST: usize = 19;

pub const TPH_CONTROL: usize = 20;

pub const OFFSET: usize = 24;

pub const OFFSET_LAST: usize = 31;

pub const AFTER_OFFSET: usize = 32;

pub const AFTER_OFFSET_LAST: usize = 39;

pub const NONCE: usize = 40;

pub const NONCE_LAST: usize = 71;

pub const RANGES: usize = 72;

pub const RANGES_LAST: usize = 199;

pub const INFORMATION_LENGTH: usize = 200;

pub const INFORMATION: usize = 204;

pub const INFORMATION_LAST: usize = 255;

// A range's bytes, and how many ranges and how much information a record has at most.
pub const RANGE_BYTES: usize = 16;

pub const MOST_RANGES: u8 = 8;

pub const MOST_INFORMATION: usize = 52;
