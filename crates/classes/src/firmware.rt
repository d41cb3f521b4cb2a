// The firmware question, asked of one record.
ghost use Rattle.std.specs.Prelude.{◌≡◌};
ghost use Rattle.rules.specs.Change.{lets};

use crate::record::live;
use rules::RECORD_BYTES;
use rules::flags::LockFlags;
use rules::place::FLAGS;
use wire::number::LowFirst;

// An interface in state 1 or 2 that holds NO_FW_UPDATE does not let it.
#[tactic(auto, using(rules::proofs::Bits::no_fw_update_bit), unfolding(rules::specs::Change::lets))]
pub fn lets(r: &[u8; RECORD_BYTES]) -> bool
    ensures { result ≡ lets r.now }
{
    !(live(r) && LockFlags(u16::read(r, FLAGS)).contains(LockFlags::NO_FW_UPDATE))
}
