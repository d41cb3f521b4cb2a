// One record of a table, changed where it stands.
ghost use Rattle.std.specs.Prelude.{◌≡◌, ◌<◌, ◌/◌, ◌*◌, [], ◌∷◌, length, set};
ghost use Rattle.rules.specs.Call.{join};
ghost use Rattle.rules.specs.Change.{moved, differing};
ghost use Rattle.rules.specs.Table.{record_bytes, records, record_at};

use classes::record::{Change, change_record};
use rules::RECORD_BYTES;

// Lends record k on, to be changed; no other byte of the table is lent. How many moved, 0 or 1.
pub(crate) fn change_at<C: Change>(change: C, k: usize, table: &mut [u8]) -> usize
    requires whole { length table.old ≡ length table.old / record_bytes * record_bytes }
    requires within { k < length table.old / record_bytes }
    ensures moves { table.new ≡ join (set (records table.old) k (moved (C.is_for change) (record_at table.old k))) }
    ensures counts { result ≡ differing (record_at table.old k ∷ []) (moved (C.is_for change) (record_at table.old k) ∷ []) }
{
    let (_, rest) = table.split_at_mut(k * RECORD_BYTES);
    change_record(change, rest.first_chunk_mut().unwrap())
}
