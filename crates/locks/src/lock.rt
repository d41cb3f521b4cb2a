// 83h LOCK_INTERFACE.
ghost use Rattle.std.specs.Prelude.{◌≡◌, [], true, ◌≤◌, length};
ghost use Rattle.rules.specs.Record.{record_ok};
ghost use Rattle.rules.specs.Request.{secure, lock_interface};
ghost use Rattle.locks.specs.Does.{Does, lent_with, lock_told};

use moves::record::lock_record;
use records::lock::offset_ok;
use replies::{put_failure, put_message};
use rules::flags::LockFlags;
use rules::request::{INPUT_BYTES, LOCK_FLAGS, LOCK_INTERFACE_RESPONSE, LOCK_OFFSET, LOCK_STREAM};
use rules::{Inputs, RECORD_BYTES, RequestError, Stream};
use wire::message::Message;
use wire::number::LowFirst;

// Bit k of byte j of the map: stream 8j+k is secure.
fn is_secure(streams: &[u8; INPUT_BYTES], stream: Stream) -> bool
    ensures { result ≡ secure streams.now stream }
{
    let n = stream.0;
    let j = usize::from(n / 8);
    let k = n % 8;
    (streams[j] >> k) % 2 == 1
}

// The lock's own checks in order: 01h, 01h, 104h, 103h; then it is accepted.
#[tactic(auto, using(rules::proofs::Kept::count_most, rules::proofs::Kept::ranges_kept), unfolding(rules::specs::Request::lock_interface))]
fn check_lock(
    request: &Message,
    r: &[u8; RECORD_BYTES],
    inputs: &Inputs,
) -> Result<(), RequestError>
    requires fields { 36 ≤ length request.now }
    requires kept { record_ok r.now ≡ true }
    ensures { lock_interface (lent_with request.now [] inputs.now) r.now ≡ lock_told result (lent_with request.now [] inputs.now) r.now }
{
    if !LockFlags(u16::read(request.bytes, LOCK_FLAGS)).supported() {
        return Err(RequestError::InvalidRequest);
    }
    if !offset_ok(r, u64::read(request.bytes, LOCK_OFFSET)) {
        return Err(RequestError::InvalidRequest);
    }
    if !is_secure(inputs.streams, Stream(request.bytes[LOCK_STREAM])) {
        return Err(RequestError::InvalidDeviceConfiguration);
    }
    if !inputs.ready {
        return Err(RequestError::InsufficientEntropy);
    }
    Ok(())
}

// A lock that its checks let pass: the record is locked, and the nonce replied.
#[tactic(auto, unfolding(rules::specs::Request::lock_interface))]
pub fn lock_interface(
    request: &Message,
    reply: &mut [u8],
    r: &mut [u8; RECORD_BYTES],
    inputs: &Inputs,
) -> usize
    requires fields { 36 ≤ length request.now }
    requires room { 256 ≤ length reply.old }
    requires kept { record_ok r.old ≡ true }
    ensures { Does (lock_interface (lent_with request.now reply.old inputs.now) r.old) result reply.old reply.new r.new }
{
    match check_lock(request, r, inputs) {
        Err(why) => put_failure(why, request, reply),
        Ok(()) => {
            let nonce = inputs.nonce;
            lock_record(r, request.bytes, nonce, inputs.session);
            put_message(LOCK_INTERFACE_RESPONSE, request, nonce, reply)
        }
    }
}
