// A message whose header is known to be there.
ghost use Rattle.std.specs.Prelude.{◌≡◌, ◌≤◌, List, ℕ, length};
ghost use Rattle.rules.specs.Request.{kind_of};

use std::marker::Model;

// Contracts see its bytes.
#[derive(Drop)]
pub struct Message<'a> {
    pub bytes: &'a [u8],
}

impl<'a> Model for Message<'a> {
    ghost Value = { List ℕ };

    ghost view = { λ m. m.bytes.now };

    ghost invariant = { λ m. 16 ≤ length m.bytes.now };
}

impl<'a> Message<'a> {
    // The type of the request or reply.
    pub fn kind(&self) -> u8
        ensures { result ≡ kind_of self.now }
    {
        self.bytes[1]
    }
}
