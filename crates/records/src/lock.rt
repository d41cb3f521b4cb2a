// The lock's fields of a record, and its ranges, which the offset moves.
ghost use Rattle.std.specs.Prelude.{◌≡◌, true, ◌&&◌, ◌||◌, ◌≤◌, eqb, leb, if◌then◌else◌};
ghost use Rattle.rules.specs.Bytes.{zeros};
ghost use Rattle.rules.specs.Range.{most_ranges};
ghost use Rattle.rules.specs.Record.{CONFIG_UNLOCKED, ERROR, state, flags, range_count, flags_ok, ranges_ok, offset_ok, lock_ok};

use places::places_ok;
use ranges::offset::{all_stay, whole_pages};
use rules::RECORD_BYTES;
use rules::flags::LockFlags;
use rules::place::{FLAGS, OFFSET, SESSION, STATE};
use rules::state::{CONFIG_UNLOCKED, ERROR};
use wire::number::LowFirst;
use wire::zero::zero;

// The flags use bits 0 and 2 only.
fn flags_ok(flags: u16) -> bool
    ensures { result ≡ flags_ok flags }
{
    LockFlags(flags).stored().0 == flags
}

// The lock's rule, for a record whose ranges keep theirs: a clause and no type, as in `all_stay`.
#[tactic(auto, unfolding(rules::specs::Record::offset_ok))]
pub fn offset_ok(r: &[u8; RECORD_BYTES], offset: u64) -> bool
    requires { (range_count r.now ≤ most_ranges) × (ranges_ok r.now ≡ true) }
    ensures { result ≡ offset_ok r.now offset }
{
    whole_pages(offset) && all_stay(offset, r)
}

// The lock's fields without the lock's rule; offset is the record's.
fn fields_ok(r: &[u8; RECORD_BYTES], offset: u64) -> bool
    ensures { result ≡ (if eqb (state r.now) CONFIG_UNLOCKED || eqb (state r.now) ERROR then zeros r.now 6 9 && eqb offset 0 else flags_ok (flags r.now)) }
{
    match r[STATE] {
        CONFIG_UNLOCKED | ERROR => zero(r, FLAGS, SESSION) & (offset == 0),
        _ => flags_ok(u16::read(r, FLAGS)),
    }
}

// The range count, the ranges and the lock's fields: one pass over the ranges tells of both, for an offset of zero meets the lock's rule.
#[tactic(auto, using(crate::proofs::Grouped::in_two))]
pub(crate) fn lock_ok(r: &[u8; RECORD_BYTES]) -> bool
    ensures { result ≡ (leb (range_count r.now) most_ranges && ranges_ok r.now && lock_ok r.now) }
{
    let offset = u64::read(r, OFFSET);
    fields_ok(r, offset) && places_ok(r, offset)
}
