// FUNCTION_ID taken apart: bits 15:0, 23:16 and 24. Bits 31:25 are not looked at.
ghost use Rattle.std.specs.Prelude.{◌≡◌};
ghost use Rattle.rules.specs.Identity.{identity_of};

use crate::bit::{REQUESTER_VALUES, SEGMENT_FROM, SEGMENT_VALUES, VALID_FROM, VALID_VALUES};
use crate::{Identity, Requester};

impl From<u32> for Identity {
    ghost from_gives = { λ id who. who ≡ identity_of id };

    fn from(id: u32) -> Identity {
        Identity {
            requester: Requester((id % REQUESTER_VALUES) as u16),
            segment: (id / SEGMENT_FROM % SEGMENT_VALUES) as u8,
            valid: id / VALID_FROM % VALID_VALUES == 1,
        }
    }
}
