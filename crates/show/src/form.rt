// What has a form of its own when it is printed.
ghost use Rattle.std.specs.Prelude.{Some};
ghost use Rattle.show.specs.Forms.{turned, low_first, number, function_id, state};

use crate::names;
pub use compare::form::Hex;
use std::fmt;

// The bytes of a number that stands low byte first, and the number, two digits a byte.
#[derive(Clone, Copy)]
pub(crate) struct LowByteFirst<'a>(pub &'a [u8]);

impl fmt::Display for LowByteFirst<'_> {
    ghost output = { λ x. Some (low_first x.0.now) };

    fn fmt<W: fmt::Write>(&self, f: &mut fmt::Formatter<W>) -> fmt::Result {
        write!(f, "{} = {}h", Hex(self.0), Turned(self.0))
    }
}

// Bytes in hex from the last to the first.
#[derive(Clone, Copy)]
struct Turned<'a>(&'a [u8]);

impl fmt::Display for Turned<'_> {
    ghost output = { λ x. Some (turned x.0.now) };

    fn fmt<W: fmt::Write>(&self, f: &mut fmt::Formatter<W>) -> fmt::Result {
        for byte in self.0.iter().rev() {
            write!(f, "{byte:02x}")?;
        }
        Ok(())
    }
}

// A number in hex, of so many digits or more, with the h that says so; it is filled up to 16 digits at most.
#[derive(Clone, Copy)]
pub struct Number {
    pub number: u64,
    pub digits: usize,
}

impl fmt::Display for Number {
    ghost output = { λ x. Some (number x.digits x.number) };

    fn fmt<W: fmt::Write>(&self, f: &mut fmt::Formatter<W>) -> fmt::Result {
        let number = self.number;
        let digits = self.digits.min(16);
        write!(f, "{number:0digits$x}h")
    }
}

// A FUNCTION_ID, as a number.
#[derive(Clone, Copy)]
pub struct FunctionId(pub u32);

impl fmt::Display for FunctionId {
    ghost output = { λ x. Some (function_id x.0) };

    fn fmt<W: fmt::Write>(&self, f: &mut fmt::Formatter<W>) -> fmt::Result {
        write!(f, "{:04x}h", self.0)
    }
}

// A state, by its name; a number that is none is shown too.
#[derive(Clone, Copy)]
pub(crate) struct State(pub u8);

impl fmt::Display for State {
    ghost output = { λ x. Some (state x.0) };

    fn fmt<W: fmt::Write>(&self, f: &mut fmt::Formatter<W>) -> fmt::Result {
        let name = names::state(self.0);
        match self.0 {
            0..=3 => f.write_str(name),
            x => write!(f, "{name} {x}"),
        }
    }
}
