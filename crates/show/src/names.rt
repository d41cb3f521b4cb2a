// Names.
ghost use Rattle.std.specs.Prelude.{◌≡◌, codes};
ghost use Rattle.show.specs.Names.{state_name, request_name, reply_name, error_name, refusal_name, untaken_name, portion_name, wrong_name};

use rules::{PortionRefusal, Refusal};
use script::digits::Wrong;

// A state's name.
#[tactic(auto, using(crate::proofs::Named::no_state))]
pub fn state(x: u8) -> &'static str
    ensures { result.now ≡ codes (state_name x) }
{
    match x {
        0 => "CONFIG_UNLOCKED",
        1 => "CONFIG_LOCKED",
        2 => "RUN",
        3 => "ERROR",
        _ => "no state:",
    }
}

// A request's name, by its type.
#[tactic(auto, using(crate::proofs::Named::no_request))]
pub fn request(kind: u8) -> &'static str
    ensures { result.now ≡ codes (request_name kind) }
{
    match kind {
        0x81 => "GET_TDISP_VERSION",
        0x82 => "GET_TDISP_CAPABILITIES",
        0x83 => "LOCK_INTERFACE",
        0x84 => "GET_DEVICE_INTERFACE_REPORT",
        0x85 => "GET_DEVICE_INTERFACE_STATE",
        0x86 => "START_INTERFACE",
        0x87 => "STOP_INTERFACE",
        _ => "of an unlisted type",
    }
}

// A reply's name, by its type.
#[tactic(auto, using(crate::proofs::Named::no_reply))]
pub fn reply(kind: u8) -> &'static str
    ensures { result.now ≡ codes (reply_name kind) }
{
    match kind {
        0x01 => "TDISP_VERSION",
        0x02 => "TDISP_CAPABILITIES",
        0x03 => "LOCK_INTERFACE_RESPONSE",
        0x04 => "DEVICE_INTERFACE_REPORT",
        0x05 => "DEVICE_INTERFACE_STATE",
        0x06 => "START_INTERFACE_RESPONSE",
        0x07 => "STOP_INTERFACE_RESPONSE",
        _ => "TDISP_ERROR",
    }
}

// An error code's name.
#[tactic(auto, using(crate::proofs::Named::no_error))]
pub fn error(code: u32) -> &'static str
    ensures { result.now ≡ codes (error_name code) }
{
    match code {
        0x01 => "INVALID_REQUEST",
        0x04 => "INVALID_INTERFACE_STATE",
        0x07 => "UNSUPPORTED_REQUEST",
        0x41 => "VERSION_MISMATCH",
        0x101 => "INVALID_INTERFACE",
        0x102 => "INVALID_NONCE",
        0x103 => "INSUFFICIENT_ENTROPY",
        _ => "INVALID_DEVICE_CONFIGURATION",
    }
}

// Why a call is refused.
pub fn refusal(why: Refusal) -> &'static str
    ensures { result.now ≡ codes (refusal_name why) }
{
    match why {
        Refusal::TableLength => "the table's length",
        Refusal::TableRecord => "a record breaks its rules",
        Refusal::TableIdentities => "two equal FUNCTION_IDs",
        Refusal::ReplyShort => "reply buffer under 256 bytes",
        Refusal::RequestShort => "request under 16 bytes",
        Refusal::Inputs => "stream map or nonce not 32 bytes",
        Refusal::Interface => "no record's interface",
    }
}

// Why a collector refuses a reply.
fn untaken(why: PortionRefusal) -> &'static str
    ensures { result.now ≡ codes (untaken_name why) }
{
    match why {
        PortionRefusal::NotReport => "not a report reply",
        PortionRefusal::OtherInterface => "other interface",
        PortionRefusal::OtherLength => "length not as the portion says",
        PortionRefusal::TotalDifferent => "total different from before",
        PortionRefusal::TotalOver => "total over 200",
    }
}

// What a collector finds of a reply.
pub fn portion(verdict: Result<(), PortionRefusal>) -> &'static str
    ensures { result.now ≡ codes (portion_name verdict) }
{
    match verdict {
        Ok(()) => "taken",
        Err(why) => untaken(why),
    }
}

// What is wrong with a line.
pub fn wrong(what: Wrong) -> &'static str
    ensures { result.now ≡ codes (wrong_name what) }
{
    match what {
        Wrong::LongLine => "longer than 1024 bytes",
        Wrong::Word => "an unknown word",
        Wrong::Missing => "something is missing",
        Wrong::Extra => "something stands after it",
        Wrong::DecimalDigit => "no decimal digit",
        Wrong::HexDigit => "no hex digit",
        Wrong::Odd => "an odd number of hex digits",
        Wrong::Large => "the number is too large",
        Wrong::Long => "too many bytes",
    }
}
