// A table's records.
ghost use Rattle.std.specs.Prelude.{◌≡◌};
ghost use Rattle.rules.specs.Table.{records};

use rules::RECORD_BYTES;

// The records of a table. Bytes past the last whole one are none's.
#[tactic(auto, using(crate::proofs::Records::chunks_cut), unfolding(rules::specs::Table::records))]
pub fn records(t: &[u8]) -> &[[u8; RECORD_BYTES]]
    ensures { result.now ≡ records t.now }
{
    t.as_chunks().0
}
