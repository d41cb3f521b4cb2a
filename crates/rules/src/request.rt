// The types of requests and replies, and where a request's fields stand: 01, "Requests".
pub const VERSION: u8 = 0x10;

pub const HEADER: usize = 16;

pub const INTERFACE_ID: usize = 4;

// A lock's flags, stream and offset; a report's OFFSET and LENGTH; a start's nonce.
pub const LOCK_FLAGS: usize = 16;

pub const LOCK_STREAM: usize = 18;

pub const LOCK_OFFSET: usize = 20;

pub const REPORT_OFFSET: usize = 16;

pub const REPORT_LENGTH: usize = 18;

pub const START_NONCE: usize = 16;

// Numbers and no enum: `legal`, `put_message` and the names of the card take any byte, and a match on constants leaves none out.
pub const GET_TDISP_VERSION: u8 = 0x81;

pub const GET_TDISP_CAPABILITIES: u8 = 0x82;

pub const LOCK_INTERFACE: u8 = 0x83;

pub const GET_DEVICE_INTERFACE_REPORT: u8 = 0x84;

pub const GET_DEVICE_INTERFACE_STATE: u8 = 0x85;

pub const START_INTERFACE: u8 = 0x86;

pub const STOP_INTERFACE: u8 = 0x87;

// The replies to them, in their order, and the one to a request that is not served.
pub const TDISP_VERSION: u8 = 0x01;

pub const TDISP_CAPABILITIES: u8 = 0x02;

pub const LOCK_INTERFACE_RESPONSE: u8 = 0x03;

pub const DEVICE_INTERFACE_REPORT: u8 = 0x04;

pub const DEVICE_INTERFACE_STATE: u8 = 0x05;

pub const START_INTERFACE_RESPONSE: u8 = 0x06;

pub const STOP_INTERFACE_RESPONSE: u8 = 0x07;

pub const TDISP_ERROR: u8 = 0x7f;

// The least reply buffer; a stream map and nonce bytes: 01, "What a call gets", numbers 4 and 6.
pub const LEAST_REPLY: usize = 256;

pub const INPUT_BYTES: usize = 32;
