// The requests that change nothing: 81h, 82h, 84h and 85h.
ghost use Rattle.std.specs.Prelude.{◌≡◌, [], ◌≤◌, length};
ghost use Rattle.rules.specs.Request.{get_version, get_capabilities, get_report, get_state};
ghost use Rattle.replies.specs.Replies.{Replies};

use portions::portion::{put_portion, report_total};
use portions::record::Record;
use replies::{put_failure, put_header, put_message};
use rules::place::STATE;
use rules::request::{
    DEVICE_INTERFACE_REPORT, DEVICE_INTERFACE_STATE, HEADER, REPORT_LENGTH, REPORT_OFFSET,
    TDISP_CAPABILITIES, TDISP_VERSION,
};
use rules::{RECORD_BYTES, RequestError};
use wire::message::Message;
use wire::number::LowFirst;

// 01 10.
pub fn get_version(request: &Message, reply: &mut [u8]) -> usize
    requires { 256 ≤ length reply.old }
    ensures { Replies (get_version request.now []).reply result reply.old reply.new }
{
    put_message(TDISP_VERSION, request, &[0x01, 0x10], reply)
}

// DSM_CAPS, the mask of requests, flags supported, reserved, address width, 1, 1.
#[tactic(auto, unfolding(rules::specs::Bytes::bytes_of))]
pub fn get_capabilities(request: &Message, reply: &mut [u8]) -> usize
    requires { 256 ≤ length reply.old }
    ensures { Replies (get_capabilities request.now []).reply result reply.old reply.new }
{
    let payload = [
        0, 0, 0, 0, 0xfe, 0, 0, 0, 0, 0, 0, 0, 0, 0, 0, 0, 0, 0, 0, 0, 5, 0, 0, 0, 0, 64, 1, 1,
    ];
    put_message(TDISP_CAPABILITIES, request, &payload, reply)
}

// The state byte.
pub fn get_state(request: &Message, reply: &mut [u8], r: &[u8; RECORD_BYTES]) -> usize
    requires { 256 ≤ length reply.old }
    ensures { Replies (get_state request.now r.now).reply result reply.old reply.new }
{
    put_message(DEVICE_INTERFACE_STATE, request, &[r[STATE]], reply)
}

// A portion of the report; OFFSET at or above the total is 01h.
#[tactic(auto, unfolding(rules::specs::Request::get_report))]
pub fn get_report(request: &Message, reply: &mut [u8], r: Record) -> usize
    requires fields { 20 ≤ length request.now }
    requires room { 256 ≤ length reply.old }
    ensures { Replies (get_report request.now r.entry.bytes.now).reply result reply.old reply.new }
{
    let at = usize::from(u16::read(request.bytes, REPORT_OFFSET));
    let asked = usize::from(u16::read(request.bytes, REPORT_LENGTH));
    if report_total(r) <= at {
        return put_failure(RequestError::InvalidRequest, request, reply);
    }
    put_header(DEVICE_INTERFACE_REPORT, request, reply);
    HEADER + put_portion(r, at, asked, &mut reply[HEADER..])
}
