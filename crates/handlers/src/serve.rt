// The state check, and then the request's own, by its type.
ghost use Rattle.std.specs.Prelude.{◌≡◌, true, ◌≤◌, length};
ghost use Rattle.rules.specs.Record.{record_ok};
ghost use Rattle.rules.specs.Request.{kind_of, exact_length, effect, gets};
ghost use Rattle.locks.specs.Does.{Does, lent_with};
ghost use Rattle.replies.specs.Replies.{Replies};

use crate::get::{get_capabilities, get_report, get_state, get_version};
use checks::legal;
use locks::lock::lock_interface;
use locks::start::{start_interface, stop_interface};
use portions::record::Record;
use replies::put_failure;
use rules::place::STATE;
use rules::request::{
    GET_DEVICE_INTERFACE_REPORT, GET_TDISP_CAPABILITIES, GET_TDISP_VERSION, LOCK_INTERFACE,
    START_INTERFACE, STOP_INTERFACE,
};
use rules::{Inputs, RECORD_BYTES, RequestError};
use wire::message::Message;

// 81h, 82h, 84h and 85h: the record stays.
#[tactic(auto, using(rules::proofs::Serves::report_room), unfolding(rules::specs::Request::gets))]
fn get(request: &Message, reply: &mut [u8], r: Record) -> usize
    requires exact { length request.now ≡ exact_length (kind_of request.now) }
    requires room { 256 ≤ length reply.old }
    ensures { Replies (gets request.now r.entry.bytes.now).reply result reply.old reply.new }
{
    match request.kind() {
        GET_TDISP_VERSION => get_version(request, reply),
        GET_TDISP_CAPABILITIES => get_capabilities(request, reply),
        GET_DEVICE_INTERFACE_REPORT => get_report(request, reply, r),
        _ => get_state(request, reply, r.bytes),
    }
}

// What a request does to the record that it names.
#[tactic(auto, using(rules::proofs::Serves::lock_room, rules::proofs::Serves::start_room, rules::proofs::Serves::gets_keeps), unfolding(rules::specs::Request::effect))]
pub fn serve(
    request: &Message,
    reply: &mut [u8],
    r: &mut [u8; RECORD_BYTES],
    inputs: &Inputs,
) -> usize
    requires exact { length request.now ≡ exact_length (kind_of request.now) }
    requires room { 256 ≤ length reply.old }
    requires kept { record_ok r.old ≡ true }
    ensures { Does (effect (lent_with request.now reply.old inputs.now) r.old) result reply.old reply.new r.new }
{
    let kind = request.kind();
    if !legal(kind, r[STATE]) {
        return put_failure(RequestError::InvalidInterfaceState, request, reply);
    }
    match kind {
        LOCK_INTERFACE => lock_interface(request, reply, r, inputs),
        START_INTERFACE => start_interface(request, reply, r),
        STOP_INTERFACE => stop_interface(request, reply, r),
        _ => get(request, reply, Record { bytes: r }),
    }
}
