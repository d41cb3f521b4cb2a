// A record's changes: cleared, running, locked.
ghost use Rattle.std.specs.Prelude.{◌≡◌, ◌≤◌, length};
ghost use Rattle.rules.specs.Request.{cleared, running, locked};

use rules::flags::LockFlags;
use rules::place::{FLAGS, NONCE, OFFSET, STATE, STREAM};
use rules::request::{LOCK_FLAGS, LOCK_OFFSET, LOCK_STREAM};
use rules::state::{CONFIG_LOCKED, RUN};
use rules::{RECORD_BYTES, Session};
use wire::copy::copy_over;
use wire::number::LowFirst;

// A state in which lock fields and nonce are cleared.
#[tactic(auto, using(rules::proofs::Messages::cleared_written))]
pub fn clear(r: &mut [u8; RECORD_BYTES], state: u8)
    ensures { r.new ≡ cleared state r.old }
{
    copy_over(r, STATE, &[state, 0, 0, 0, 0, 0]);
    0u64.write(r, OFFSET);
    copy_over(r, NONCE, &[0; 32]);
}

// RUN, the nonce spent.
#[tactic(auto, using(rules::proofs::Messages::running_written))]
pub fn run(r: &mut [u8; RECORD_BYTES])
    ensures { r.new ≡ running r.old }
{
    let spent = [0; 32];
    copy_over(r, STATE, &[RUN, 0]);
    copy_over(r, NONCE, &spent);
}

// CONFIG_LOCKED with the nonce held, as a lock request asks: the flags that are stored, stream, session and offset.
#[tactic(auto, using(rules::proofs::Messages::locked_written))]
pub fn lock_record(r: &mut [u8; RECORD_BYTES], request: &[u8], nonce: &[u8; 32], session: Session)
    requires { 36 ≤ length request.now }
    ensures { r.new ≡ locked request.now nonce.now session r.old }
{
    let flags = LockFlags(u16::read(request, LOCK_FLAGS));
    copy_over(r, STATE, &[CONFIG_LOCKED, 1]);
    flags.stored().0.write(r, FLAGS);
    copy_over(r, STREAM, &[request[LOCK_STREAM], session.0]);
    u64::read(request, LOCK_OFFSET).write(r, OFFSET);
    copy_over(r, NONCE, nonce);
}
