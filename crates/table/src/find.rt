// Lookup by identity.
ghost use Rattle.std.specs.Prelude.{◌≡◌};
ghost use Rattle.rules.specs.Table.{records, find};

use crate::identity::{identity, same_identity};
use rules::{Identity, RECORD_BYTES};
use wire::record::records;

// The place of the first of these records for an interface.
pub fn find_in(rs: &[[u8; RECORD_BYTES]], who: Identity) -> Option<usize>
    ensures { result ≡ find who rs.now }
{
    rs.iter().position(|r| same_identity(who, identity(r)))
}

// The place of a table's first record for an interface.
pub fn find(t: &[u8], who: Identity) -> Option<usize>
    ensures { result ≡ find who (records t.now) }
{
    find_in(records(t), who)
}
