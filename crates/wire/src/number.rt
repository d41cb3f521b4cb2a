// What stands in a message, a report or a table: so many bytes from a place on, each number low byte first.
ghost use Rattle.std.specs.Prelude.{◌≡◌, ◌+◌, ◌≤◌, List, ℕ, length};
ghost use Rattle.rules.specs.Bytes.{num, bytes_of, over};
ghost use Rattle.rules.specs.Range.{range_from, bytes_of_range};

use crate::copy::{copy_over, part};
use rules::Range;

pub trait LowFirst: Copy {
    // How many bytes it takes, what stands at a place, and its bytes.
    ghost width: { ℕ };

    ghost at_place: { List ℕ → ℕ → Self };

    ghost bytes: { Self → List ℕ };

    fn read(s: &[u8], at: usize) -> Self
        requires { at + width ≤ length s.now }
        ensures { result ≡ at_place s.now at };

    // Writes it over what stands from a place on.
    fn write(self, s: &mut [u8], at: usize)
        requires { at + width ≤ length s.old }
        ensures { s.new ≡ over at (bytes self) s.old };
}

// One impl for each width, since the kit takes no impl that a macro of ours writes; the laws are for every width.
#[tactic(auto, using(crate::proofs::Numbers::read_whole, crate::proofs::Numbers::written_whole))]
impl LowFirst for u16 {
    ghost width = { 2 };

    ghost at_place = { λ s at. num s at 2 };

    ghost bytes = { bytes_of 2 };

    fn read(s: &[u8], at: usize) -> u16 {
        u16::from_le_bytes(*part(s, at))
    }

    fn write(self, s: &mut [u8], at: usize) {
        copy_over(s, at, &u16::to_le_bytes(self));
    }
}

#[tactic(auto, using(crate::proofs::Numbers::read_whole, crate::proofs::Numbers::written_whole))]
impl LowFirst for u32 {
    ghost width = { 4 };

    ghost at_place = { λ s at. num s at 4 };

    ghost bytes = { bytes_of 4 };

    fn read(s: &[u8], at: usize) -> u32 {
        u32::from_le_bytes(*part(s, at))
    }

    fn write(self, s: &mut [u8], at: usize) {
        copy_over(s, at, &u32::to_le_bytes(self));
    }
}

#[tactic(auto, using(crate::proofs::Numbers::read_whole, crate::proofs::Numbers::written_whole))]
impl LowFirst for u64 {
    ghost width = { 8 };

    ghost at_place = { λ s at. num s at 8 };

    ghost bytes = { bytes_of 8 };

    fn read(s: &[u8], at: usize) -> u64 {
        u64::from_le_bytes(*part(s, at))
    }

    fn write(self, s: &mut [u8], at: usize) {
        copy_over(s, at, &u64::to_le_bytes(self));
    }
}

// First page (8), pages (4), attributes (2), range ID (2).
#[tactic(auto, using(rules::proofs::Written::range_written))]
impl LowFirst for Range {
    ghost width = { 16 };

    ghost at_place = { range_from };

    ghost bytes = { bytes_of_range };

    fn read(s: &[u8], at: usize) -> Range {
        Range {
            first: u64::read(s, at),
            pages: u32::read(s, at + 8),
            attributes: u16::read(s, at + 12),
            id: u16::read(s, at + 14),
        }
    }

    fn write(self, s: &mut [u8], at: usize) {
        self.first.write(s, at);
        self.pages.write(s, at + 8);
        self.attributes.write(s, at + 12);
        self.id.write(s, at + 14);
    }
}
