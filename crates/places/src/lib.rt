// The ranges in a record's eight places, in one pass: their own rules, and whether an offset leaves each of them within the pages. Every
// call asks this of every record, so it asks by limits and not range by range as `ranges::offset::all_stay` does.
#![tactic(auto)]

ghost use Rattle.std.specs.Prelude.{◌≡◌, ◌&&◌, ◌≤◌, ◌^◌, leb};
ghost use Rattle.rules.specs.Range.{most_ranges};
ghost use Rattle.rules.specs.Record.{range_count, range_of, ranges_ok, offset_ok};
ghost use Rattle.places.specs.Limits.{inside, ranges_keep, places_keep};

use ranges::offset::{offset_pages, whole_pages};
use ranges::range::least_after;
use rules::bit::{ATTRIBUTES_UNUSED_FROM, ATTRIBUTES_UNUSED_VALUES};
use rules::place::{MOST_RANGES, RANGE_BYTES, RANGE_COUNT, RANGES, RANGES_LAST};
use rules::{PAGES_END, RECORD_BYTES, Range};
use wire::number::LowFirst;
use wire::zero::zero;

// Limits between which ranges lie: none starts before page `low`, none goes past `top`. Pages fit below `top`, whatever their number.
#[derive(Clone, Copy)]
struct Limits {
    low: u64,
    top: u64,
    ghost wide: { 2 ^ 32 ≤ top },
}

impl Limits {
    // Whether a range lies between them.
    #[tactic(auto, using(rules::proofs::Bools::leb_sub), unfolding(crate::specs::Limits::inside))]
    fn hold(self, range: Range) -> bool
        ensures { result ≡ inside self.low self.top range }
    {
        let pages = u64::from(range.pages);
        (1 <= pages) & (range.first <= self.top - pages) & (self.low <= range.first)
    }

    // Whether a record's ranges do, and keep their other rules; that they are eight at most is a clause, as in `all_stay`.
    // Attributes are gathered and tested once: a test a range would cost more.
    fn hold_ranges(self, r: &[u8; RECORD_BYTES]) -> bool
        requires { range_count r.now ≤ most_ranges }
        ensures { result ≡ ranges_keep self.low self.top (range_count r.now) (range_of r.now) }
    {
        let mut gathered = 0;
        let mut least = 0;
        for k in 0..r[RANGE_COUNT] as usize {
            let range = Range::read(r, RANGES + k * RANGE_BYTES);
            if !self.hold(range) {
                return false;
            }
            gathered |= range.attributes;
            if range.id < least {
                return false;
            }
            least = least_after(least, range.id);
        }
        gathered / ATTRIBUTES_UNUSED_FROM % ATTRIBUTES_UNUSED_VALUES == 0
    }

    // A record's places: the count, its ranges between the limits, and zero past them.
    #[tactic(auto, unfolding(crate::specs::Limits::places_keep))]
    fn hold_places(self, r: &[u8; RECORD_BYTES]) -> bool
        ensures { result ≡ places_keep self.low self.top r.now }
    {
        let n = r[RANGE_COUNT] as usize;
        r[RANGE_COUNT] <= MOST_RANGES
            && self.hold_ranges(r)
            && zero(r, RANGES + n * RANGE_BYTES, RANGES_LAST)
    }
}

// A record's range count, its ranges and the places past them; and the lock's rule, for the offset of an 8-byte number. The limits come
// from its pages: below zero they raise the start, else they lower the end.
#[tactic(auto, using(crate::proofs::Moved::judged_by))]
pub fn places_ok(r: &[u8; RECORD_BYTES], x: u64) -> bool
    ensures { result ≡ (leb (range_count r.now) most_ranges && ranges_ok r.now && offset_ok r.now x) }
{
    if !whole_pages(x) {
        return false;
    }
    let pages = offset_pages(x);
    let by = pages.unsigned_abs();
    // tried: one call, on limits that were picked before it. The judgement of a table took a quarter longer.
    if pages < 0 {
        Limits {
            low: by,
            top: PAGES_END,
        }
        .hold_places(r)
    } else {
        Limits {
            low: 0,
            top: PAGES_END - by,
        }
        .hold_places(r)
    }
}
