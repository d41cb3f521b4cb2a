// The interface that a record is for, and the one equality of identities.
ghost use Rattle.std.specs.Prelude.{◌≡◌};
ghost use Rattle.rules.specs.Identity.{same};
ghost use Rattle.rules.specs.Table.{identity};

use rules::{Identity, RECORD_BYTES};
use wire::identity::identity_at;

// The interface that a record is for.
pub fn identity(r: &[u8; RECORD_BYTES]) -> Identity
    ensures { result ≡ identity r.now }
{
    identity_at(r, 0)
}

// 01: bits 15:0, bit 24 and, if bit 24 is set, bits 23:16 agree.
#[tactic(auto, using(crate::proofs::Marks::both_or_neither))]
pub fn same_identity(a: Identity, b: Identity) -> bool
    ensures { result ≡ same a b }
{
    let segments = a.segment == b.segment;
    let marked = a.valid & b.valid;
    let unmarked = !(a.valid | b.valid);
    (a.requester.0 == b.requester.0) & ((marked & segments) | unmarked)
}
