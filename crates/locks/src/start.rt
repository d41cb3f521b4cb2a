// 86h START_INTERFACE and 87h STOP_INTERFACE.
ghost use Rattle.std.specs.Prelude.{◌≡◌, ◌≤◌, length};
ghost use Rattle.rules.specs.Bytes.{same_bytes, part};
ghost use Rattle.rules.specs.Record.{nonce};
ghost use Rattle.rules.specs.Request.{start_interface, stop_interface};
ghost use Rattle.locks.specs.Does.{Does};

use moves::record::{clear, run};
use replies::{put_failure, put_message};
use rules::place::NONCE;
use rules::request::{START_INTERFACE_RESPONSE, START_NONCE, STOP_INTERFACE_RESPONSE};
use rules::state::CONFIG_UNLOCKED;
use rules::{RECORD_BYTES, RequestError};
use wire::copy::part;
use wire::message::Message;
use wire::same::same_bytes;

// Whether a start carries the record's nonce. All 32 bytes are looked at.
fn nonce_matches(request: &[u8], r: &[u8; RECORD_BYTES]) -> bool
    requires { 48 ≤ length request.now }
    ensures { result ≡ same_bytes (part request.now 16 32) (nonce r.now) }
{
    same_bytes(part::<32>(request, START_NONCE), part::<32>(r, NONCE))
}

// A different nonce is 102h and changes nothing. An equal one is spent.
#[tactic(auto, unfolding(rules::specs::Request::start_interface))]
pub fn start_interface(request: &Message, reply: &mut [u8], r: &mut [u8; RECORD_BYTES]) -> usize
    requires fields { 48 ≤ length request.now }
    requires room { 256 ≤ length reply.old }
    ensures { Does (start_interface request.now r.old) result reply.old reply.new r.new }
{
    if !nonce_matches(request.bytes, r) {
        return put_failure(RequestError::InvalidNonce, request, reply);
    }
    run(r);
    put_message(START_INTERFACE_RESPONSE, request, &[], reply)
}

// State 0; lock fields and nonce cleared.
pub fn stop_interface(request: &Message, reply: &mut [u8], r: &mut [u8; RECORD_BYTES]) -> usize
    requires { 256 ≤ length reply.old }
    ensures { Does (stop_interface request.now r.old) result reply.old reply.new r.new }
{
    clear(r, CONFIG_UNLOCKED);
    put_message(STOP_INTERFACE_RESPONSE, request, &[], reply)
}
