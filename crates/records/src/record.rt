// Whether a record keeps its rules.
ghost use Rattle.std.specs.Prelude.{◌≡◌, ◌&&◌, eqb};
ghost use Rattle.rules.specs.Bytes.{byte};
ghost use Rattle.rules.specs.Record.{function_id, identity_ok, state_ok, nonce_ok, interface_ok, unused_ok, information_ok, record_ok};

use crate::lock::lock_ok;
use rules::RECORD_BYTES;
use rules::bit::{
    ID_UNUSED_FROM, ID_UNUSED_VALUES, INFO_UNUSED_FROM, INFO_UNUSED_VALUES, INFO_UPDATE_VALUES,
    SEGMENT_FROM, SEGMENT_VALUES, VALID_FROM, VALID_VALUES,
};
use rules::place::{
    AFTER_COUNT, AFTER_LNR, AFTER_LNR_LAST, AFTER_OFFSET, AFTER_OFFSET_LAST, FUNCTION_ID, HELD,
    INFORMATION, INFORMATION_LAST, INFORMATION_LENGTH, INTERFACE_INFO, MOST_INFORMATION, NONCE,
    NONCE_LAST, STATE,
};
use rules::state::{CONFIG_LOCKED, ERROR};
use wire::number::LowFirst;
use wire::zero::zero;

// No bit past 24 is set, and a segment that is not marked valid is zero.
fn identity_ok(id: u32) -> bool
    ensures { result ≡ identity_ok id }
{
    let marked = id / VALID_FROM % VALID_VALUES == 1;
    let segment = id / SEGMENT_FROM % SEGMENT_VALUES;
    (id / ID_UNUSED_FROM % ID_UNUSED_VALUES == 0) & (marked | (segment == 0))
}

fn nonce_ok(r: &[u8; RECORD_BYTES]) -> bool
    ensures { result ≡ nonce_ok r.now }
{
    if r[STATE] == CONFIG_LOCKED {
        r[HELD] == 1
    } else {
        (r[HELD] == 0) & zero(r, NONCE, NONCE_LAST)
    }
}

fn interface_ok(r: &[u8; RECORD_BYTES]) -> bool
    ensures { result ≡ interface_ok r.now }
{
    let info = u16::read(r, INTERFACE_INFO);
    (info % INFO_UPDATE_VALUES == 0) & (info / INFO_UNUSED_FROM % INFO_UNUSED_VALUES == 0)
}

fn unused_ok(r: &[u8; RECORD_BYTES]) -> bool
    ensures { result ≡ unused_ok r.now }
{
    zero(r, AFTER_LNR, AFTER_LNR_LAST) & zero(r, AFTER_OFFSET, AFTER_OFFSET_LAST)
}

// The length, and zero past it: nothing stands past 52 bytes.
#[tactic(auto, using(crate::proofs::Grouped::full), unfolding(rules::specs::Record::information_ok))]
fn information_ok(r: &[u8; RECORD_BYTES]) -> bool
    ensures { result ≡ information_ok r.now }
{
    let l = u32::read(r, INFORMATION_LENGTH) as usize;
    if l < MOST_INFORMATION {
        zero(r, INFORMATION + l, INFORMATION_LAST)
    } else {
        l == MOST_INFORMATION
    }
}

// The identity, the state with what goes with it, and byte 11.
fn head_ok(r: &[u8; RECORD_BYTES]) -> bool
    ensures { result ≡ (identity_ok (function_id r.now) && state_ok r.now && nonce_ok r.now && eqb (byte r.now 11) 0) }
{
    identity_ok(u32::read(r, FUNCTION_ID))
        & (r[STATE] <= ERROR)
        & nonce_ok(r)
        & (r[AFTER_COUNT] == 0)
}

// INTERFACE_INFO, and the bytes that are not used.
fn fields_ok(r: &[u8; RECORD_BYTES]) -> bool
    ensures { result ≡ (interface_ok r.now && unused_ok r.now) }
{
    interface_ok(r) & unused_ok(r)
}

// Whether a record keeps its rules. The ranges come last: they take the longest.
#[tactic(auto, using(crate::proofs::Grouped::whole))]
pub fn record_ok(r: &[u8; RECORD_BYTES]) -> bool
    ensures { result ≡ record_ok r.now }
{
    head_ok(r) && fields_ok(r) && information_ok(r) && lock_ok(r)
}
