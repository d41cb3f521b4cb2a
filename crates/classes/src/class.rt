// Register writes: the class table, and the record that a write names.
ghost use Rattle.std.specs.Prelude.{◌≡◌};
ghost use Rattle.rules.specs.Change.{rule_of, rule_hits};

use crate::record::Change;
use rules::flags::LockFlags;
use rules::place::FLAGS;
use rules::{RECORD_BYTES, Rule};
use wire::number::LowFirst;

// The class table, with the ranges that 01 lists; any other class is ERROR.
#[tactic(auto, using(std::proofs::lemmas::Bool::Decides::nat_tests), unfolding(rules::specs::Change::rule_of))]
pub fn rule_of(class: u8) -> Rule
    ensures { result ≡ rule_of class }
{
    match class {
        1 | 3 | 9 | 11..=15 => Rule::Allowed,
        2 => Rule::MsixRule,
        10 => Rule::DeviceWide,
        4..=8 | 16..=17 => Rule::Error,
        _ => Rule::Error,
    }
}

// A write by a rule, of the record that it names: class 2 only under LOCK_MSIX.
#[tactic(auto, using(rules::proofs::Bits::lock_msix_bit), unfolding(rules::specs::Change::rule_hits, rules::specs::Change::hits))]
impl Change for Rule {
    ghost is_for = { rule_hits };

    fn hits(self, r: &[u8; RECORD_BYTES]) -> bool {
        match self {
            Rule::Allowed => false,
            Rule::MsixRule => LockFlags(u16::read(r, FLAGS)).contains(LockFlags::LOCK_MSIX),
            Rule::DeviceWide | Rule::Error => true,
        }
    }
}
