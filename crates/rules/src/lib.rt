// The types and the sizes that code and definitions share. Nothing here knows how the code works.
#![tactic(auto)]

pub mod bit;
pub mod flags;
mod function_id;
pub mod place;
pub mod report;
pub mod request;
pub mod state;

ghost use Rattle.std.specs.Prelude.{◌≡◌, ℕ};
ghost use Rattle.rules.specs.Collector.{portion_refusal_number};
ghost use Rattle.rules.specs.Report.{report_refusal_number};
ghost use Rattle.rules.specs.Request.{error_code, error_datum};
ghost use Rattle.rules.specs.Table.{refusal_number, number_or_0};

// 01, "The table": records of one fixed size, 1 to 64 of them.
pub const RECORD_BYTES: usize = 256;

pub const MOST_RECORDS: usize = 64;

// A range's first page and its pages add up to 2^52 at most.
pub const PAGES_END: u64 = 4503599627370496;

// 01: a requester number, a stream number and a session number may never stand for one another.
#[derive(Clone, Copy, PartialEq, Eq)]
pub struct Requester(pub u16);

#[derive(Clone, Copy, PartialEq, Eq)]
pub struct Stream(pub u8);

#[derive(Clone, Copy, PartialEq, Eq)]
pub struct Session(pub u8);

// FUNCTION_ID taken apart: bits 15:0, 23:16 and 24. A segment that is not marked valid is kept and not compared, so two of one interface's need not be equal:
// `table::identity::same_identity` tells.
#[derive(Clone, Copy)]
pub struct Identity {
    pub requester: Requester,
    pub segment: u8,
    pub valid: bool,
}

// What a lock is given beside the request: nonce bytes, whether they are ready, the stream map, the session.
#[derive(Clone, Copy)]
pub struct Inputs<'a> {
    pub nonce: &'a [u8; 32],
    pub ready: bool,
    pub streams: &'a [u8; 32],
    pub session: Session,
}

// A range of pages: 16 bytes of a record or of a report. It crosses to C as it stands.
#[repr(C)]
#[derive(Clone, Copy, Default)]
pub struct Range {
    pub first: u64,
    pub pages: u32,
    pub attributes: u16,
    pub id: u16,
}

// The fields of an interface report: N ranges and L bytes of information count, of eight and 52: no heap, and it crosses to C so.
#[derive(Clone, Copy, Default)]
pub struct ReportFields {
    pub info: u16,
    pub msix: u16,
    pub lnr: u16,
    pub tph: u32,
    pub n: u32,
    pub ranges: [Range; 8],
    pub l: u32,
    pub information: [u8; 52],
}

// A reason why something is refused, by its number in the paper or in the C interface.
pub trait Numbered: Copy {
    ghost number_of: { Self → ℕ };

    fn number(self) -> u32
        ensures { result ≡ number_of self };
}

// 0 where nothing is refused.
impl<T: Copy, E: Numbered> Numbered for Result<T, E> {
    ghost number_of = { number_or_0 E.number_of };

    fn number(self) -> u32 {
        match self {
            Ok(_) => 0,
            Err(why) => why.number(),
        }
    }
}

// Why the report reader and writer refuse: the paper's numbers.
#[derive(Clone, Copy)]
pub enum ReportRefusal {
    Short = 20,
    TooMany = 21,
    Longer = 22,
    Reserved = 23,
    BadPages = 24,
    FallingIds = 25,
    SmallOutput = 26,
}

impl Numbered for ReportRefusal {
    ghost number_of = { report_refusal_number };

    fn number(self) -> u32 {
        self as u32
    }
}

// Why a collector refuses a reply: the first of these names that applies (02, 2/12), by the C interface's numbers.
#[derive(Clone, Copy)]
pub enum PortionRefusal {
    NotReport = 30,
    OtherInterface = 31,
    OtherLength = 32,
    TotalDifferent = 33,
    TotalOver = 34,
}

impl Numbered for PortionRefusal {
    ghost number_of = { portion_refusal_number };

    fn number(self) -> u32 {
        self as u32
    }
}

// Why a request gets a TDISP_ERROR: an unlisted type is told.
#[derive(Clone, Copy)]
pub enum RequestError {
    InvalidRequest,
    InvalidInterfaceState,
    UnsupportedRequest(u8),
    VersionMismatch,
    InvalidInterface,
    InvalidNonce,
    InsufficientEntropy,
    InvalidDeviceConfiguration,
}

impl RequestError {
    pub fn code(self) -> u32
        ensures { result ≡ error_code self }
    {
        match self {
            RequestError::InvalidRequest => 0x01,
            RequestError::InvalidInterfaceState => 0x04,
            RequestError::UnsupportedRequest(_) => 0x07,
            RequestError::VersionMismatch => 0x41,
            RequestError::InvalidInterface => 0x101,
            RequestError::InvalidNonce => 0x102,
            RequestError::InsufficientEntropy => 0x103,
            RequestError::InvalidDeviceConfiguration => 0x104,
        }
    }

    // The type that is unlisted; 0 beside any other code.
    pub fn datum(self) -> u32
        ensures { result ≡ error_datum self }
    {
        match self {
            RequestError::UnsupportedRequest(kind) => kind.into(),
            _ => 0,
        }
    }
}

// What a register write of a class may do: 01, "Changes".
#[derive(Clone, Copy)]
pub enum Rule {
    Allowed,
    Error,
    MsixRule,
    DeviceWide,
}

// A device-wide change: of all interfaces, of those on a stream, of those of a session.
#[derive(Clone, Copy)]
pub enum Event {
    Multicast,
    StreamDown(Stream),
    SessionEnd(Session),
}

// Why a call is refused: the paper's numbers 1 to 7.
#[derive(Clone, Copy)]
pub enum Refusal {
    TableLength = 1,
    TableRecord = 2,
    TableIdentities = 3,
    ReplyShort = 4,
    RequestShort = 5,
    Inputs = 6,
    Interface = 7,
}

impl Numbered for Refusal {
    ghost number_of = { refusal_number };

    fn number(self) -> u32 {
        self as u32
    }
}

// What a call returns: the reply's length, or how many records moved; or why it is refused.
pub type Answer = Result<usize, Refusal>;

// What the firmware question returns.
pub type FirmwareAnswer = Result<bool, Refusal>;
