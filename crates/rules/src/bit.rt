// Bits of a field, by powers of two. Bits high:low of x are x / FROM % VALUES: FROM is 2^low, VALUES is 2^(high + 1 - low).

// FUNCTION_ID: bits 15:0 requester, 23:16 segment, 24 segment valid, 31:25 unused.
pub const REQUESTER_VALUES: u32 = 65536;

pub const SEGMENT_FROM: u32 = 65536;

pub const SEGMENT_VALUES: u32 = 256;

pub const VALID_FROM: u32 = 16777216;

pub const VALID_VALUES: u32 = 2;

pub const ID_UNUSED_FROM: u32 = 33554432;

pub const ID_UNUSED_VALUES: u32 = 128;

// INTERFACE_INFO: bit 0, a report's NO_FW_UPDATE and zero in a record; 15:5 unused.
pub const INFO_UPDATE_VALUES: u16 = 2;

pub const INFO_UNUSED_FROM: u16 = 32;

pub const INFO_UNUSED_VALUES: u16 = 2048;

// A range's attributes: bits 15:4 unused.
pub const ATTRIBUTES_UNUSED_FROM: u16 = 16;

pub const ATTRIBUTES_UNUSED_VALUES: u16 = 4096;
