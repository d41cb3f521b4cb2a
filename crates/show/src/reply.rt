// A reply's fields.
ghost use Rattle.std.specs.Prelude.{◌≡◌, min, length};
ghost use Rattle.show.specs.Reply.{shown};

use crate::field::{field, numeral, part};
use crate::form::{Hex, LowByteFirst, State};
use crate::names;
use rules::request::{
    DEVICE_INTERFACE_REPORT, DEVICE_INTERFACE_STATE, HEADER, LOCK_INTERFACE_RESPONSE,
    TDISP_CAPABILITIES, TDISP_ERROR, TDISP_VERSION,
};
use wire::number::LowFirst;

// The 16 bytes that every reply begins with.
fn header<R: Print>(rt: &R, s: &[u8]) {
    field(rt, "version", s, 0..1);
    field(rt, "type", s, 1..2);
    field(rt, "reserved", s, 2..4);
    numeral(rt, "FUNCTION_ID", s, 4..8);
    field(rt, "reserved", s, 8..16);
}

// TDISP_VERSION.
fn version<R: Print>(rt: &R, s: &[u8]) {
    field(rt, "VERSION_NUM_COUNT", s, 16..17);
    field(rt, "VERSION_NUM_ENTRY", s, 17..18);
}

// TDISP_CAPABILITIES.
fn capabilities<R: Print>(rt: &R, s: &[u8]) {
    numeral(rt, "DSM_CAPS", s, 16..20);
    field(rt, "REQ_MSGS_SUPPORTED, bit n is 80h + n", s, 20..36);
    numeral(rt, "LOCK_INTERFACE_FLAGS_SUPPORTED", s, 36..38);
    field(rt, "reserved", s, 38..41);
    field(rt, "DEV_ADDR_WIDTH", s, 41..42);
    field(rt, "NUM_REQ_THIS", s, 42..43);
    field(rt, "NUM_REQ_ALL", s, 43..44);
}

// DEVICE_INTERFACE_REPORT.
fn report<R: Print>(rt: &R, s: &[u8]) {
    numeral(rt, "PORTION_LENGTH", s, 16..18);
    numeral(rt, "REMAINDER_LENGTH", s, 18..20);
    field(rt, "REPORT_BYTES", s, 20..s.len());
}

// DEVICE_INTERFACE_STATE.
fn state<R: Print>(rt: &R, s: &[u8]) {
    if s.len() > HEADER {
        let _ = println!(rt;
            "    TDI_STATE:{} = {}",
            Hex(part(s, 16..17)),
            State(s[HEADER])
        );
    }
}

// TDISP_ERROR.
fn error<R: Print>(rt: &R, s: &[u8]) {
    if s.len() >= 24 {
        let name = names::error(u32::read(s, 16));
        let _ = println!(rt;
            "    ERROR_CODE, low byte first:{} {name}",
            LowByteFirst(part(s, 16..20))
        );
        numeral(rt, "ERROR_DATA", s, 20..24);
    }
}

// What follows the header, by the reply's type.
fn payload<R: Print>(rt: &R, kind: u8, s: &[u8]) {
    match kind {
        TDISP_VERSION => version(rt, s),
        TDISP_CAPABILITIES => capabilities(rt, s),
        LOCK_INTERFACE_RESPONSE => field(rt, "START_INTERFACE_NONCE", s, 16..48),
        DEVICE_INTERFACE_REPORT => report(rt, s),
        DEVICE_INTERFACE_STATE => state(rt, s),
        TDISP_ERROR => error(rt, s),
        _ => {}
    }
}

// A reply: its type, all its bytes, its fields; how many bytes.
fn fields<R: Print>(rt: &R, s: &[u8]) -> usize
    ensures { result ≡ shown (length s.now) }
{
    if s.len() < HEADER {
        return 0;
    }
    let kind = s[1];
    let _ = println!(rt; "  reply {}:{}", names::reply(kind), Hex(s));
    header(rt, s);
    payload(rt, kind, s);
    s.len()
}

// The reply at the front of the buffer, of a length; how many bytes. There is none beside a refusal, whose length is 0.
pub fn show<R: Print>(rt: &R, buffer: &[u8; 512], n: usize) -> usize
    ensures { result ≡ shown (min n (length buffer.now)) }
{
    fields(rt, &buffer[..n.min(buffer.len())])
}
