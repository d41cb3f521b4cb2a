// The identity that a FUNCTION_ID in bytes says.
ghost use Rattle.std.specs.Prelude.{◌≡◌, ◌+◌, ◌≤◌, length};
ghost use Rattle.rules.specs.Identity.{identity_at};

use crate::number::LowFirst;
use rules::Identity;

// The identity whose 4 bytes start at a place.
pub fn identity_at(s: &[u8], at: usize) -> Identity
    requires { at + 4 ≤ length s.now }
    ensures { result ≡ identity_at s.now at }
{
    u32::read(s, at).into()
}
