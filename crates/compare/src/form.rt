// What has a form of its own when it is printed.
ghost use Rattle.std.specs.Prelude.{Some};
ghost use Rattle.compare.specs.Form.{hex};

use std::fmt;

// Bytes in hex, in their order, a space before each.
#[derive(Clone, Copy)]
pub struct Hex<'a>(pub &'a [u8]);

impl fmt::Display for Hex<'_> {
    ghost output = { λ x. Some (hex x.0.now) };

    #[tactic(auto, using(crate::proofs::Printed::written))]
    fn fmt<W: fmt::Write>(&self, f: &mut fmt::Formatter<W>) -> fmt::Result {
        for byte in self.0 {
            write!(f, " {byte:02x}")?;
        }
        Ok(())
    }
}
