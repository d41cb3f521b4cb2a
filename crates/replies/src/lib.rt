// Replies, written at the front of the reply buffer.
#![tactic(auto)]

ghost use Rattle.std.specs.Prelude.{◌≡◌, ◌++◌, ◌+◌, ◌≤◌, length};
ghost use Rattle.rules.specs.Bytes.{bytes_of, over};
ghost use Rattle.rules.specs.Request.{error_code, error_datum, error_message, header, message};
ghost use Rattle.replies.specs.Replies.{Replies};

use rules::RequestError;
use rules::request::{HEADER, INTERFACE_ID, TDISP_ERROR, VERSION};
use wire::copy::copy_over;
use wire::message::Message;
use wire::number::LowFirst;

// Version 10h, the type, reserved zero, and the request's 12 bytes as received.
#[tactic(auto, using(rules::proofs::Messages::header_written, rules::proofs::Messages::length_header))]
pub fn put_header(kind: u8, request: &Message, reply: &mut [u8])
    requires { 16 ≤ length reply.old }
    ensures written { reply.new ≡ over 0 (header kind request.now) reply.old }
    ensures of_sixteen { length (header kind request.now) ≡ 16 }
{
    copy_over(reply, 0, &[VERSION, kind, 0, 0]);
    copy_over(reply, INTERFACE_ID, &request.bytes[INTERFACE_ID..HEADER]);
}

// A reply of a type with its payload; its length.
pub fn put_message(kind: u8, request: &Message, payload: &[u8], reply: &mut [u8]) -> usize
    requires { 16 + length payload.now ≤ length reply.old }
    ensures { Replies (message kind request.now payload.now) result reply.old reply.new }
{
    put_header(kind, request, reply);
    copy_over(reply, HEADER, payload);
    HEADER + payload.len()
}

// Code (4) and data (4).
#[tactic(auto, using(rules::proofs::Messages::eight_bytes))]
fn error_payload(code: u32, datum: u32) -> [u8; 8]
    ensures { result ≡ bytes_of 4 code ++ bytes_of 4 datum }
{
    let mut payload = [0; 8];
    code.write(&mut payload, 0);
    datum.write(&mut payload, 4);
    payload
}

// TDISP_ERROR, of any code.
pub fn put_error(code: u32, datum: u32, request: &Message, reply: &mut [u8]) -> usize
    requires { 24 ≤ length reply.old }
    ensures { Replies (error_message code datum request.now) result reply.old reply.new }
{
    put_message(TDISP_ERROR, request, &error_payload(code, datum), reply)
}

// The TDISP_ERROR that tells why a request is not served.
pub fn put_failure(why: RequestError, request: &Message, reply: &mut [u8]) -> usize
    requires { 24 ≤ length reply.old }
    ensures { Replies (error_message (error_code why) (error_datum why) request.now) result reply.old reply.new }
{
    put_error(why.code(), why.datum(), request, reply)
}
