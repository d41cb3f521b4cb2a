// One record, as a change finds it.
ghost use Rattle.std.specs.Prelude.{◌≡◌, Bool, [], ◌∷◌};
ghost use Rattle.rules.specs.Change.{live, moved, differing};
ghost use Rattle.rules.specs.Record.{Rec};

use moves::record::clear;
use rules::RECORD_BYTES;
use rules::place::STATE;
use rules::state::{CONFIG_LOCKED, ERROR, RUN};

// A register write or an event: whether it is for a record.
pub trait Change: Copy {
    ghost is_for: { Self → Rec → Bool };

    fn hits(self, r: &[u8; RECORD_BYTES]) -> bool
        ensures { result ≡ is_for self r.now };
}

// Only CONFIG_LOCKED and RUN move.
#[tactic(auto, unfolding(rules::specs::Change::live))]
pub fn live(r: &[u8; RECORD_BYTES]) -> bool
    ensures { result ≡ live r.now }
{
    matches!(r[STATE], CONFIG_LOCKED | RUN)
}

// Moves a record that a change is for; how many moved, 0 or 1.
#[tactic(auto, using(crate::proofs::Counting::moves_counts, rules::proofs::Swept::differing_none), unfolding(rules::specs::Change::moved))]
pub fn change_record<C: Change>(change: C, r: &mut [u8; RECORD_BYTES]) -> usize
    ensures moves { r.new ≡ moved (C.is_for change) r.old }
    ensures counts { result ≡ differing (r.old ∷ []) (r.new ∷ []) }
{
    if change.hits(r) && live(r) {
        clear(r, ERROR);
        return 1;
    }
    0
}
