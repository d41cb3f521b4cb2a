// Ranges of pages, of a record or of a report.
ghost use Rattle.std.specs.Prelude.{◌≡◌, ◌+◌, ◌*◌, ◌≤◌, leb, length, if◌then◌else◌};
ghost use Rattle.rules.specs.Range.{most_ranges, range_bytes, ranges_from, eight_ranges, range_in, pages_ok, attributes_ok, all_pages, all_attributes, never_fall, ids_of};

use rules::bit::{ATTRIBUTES_UNUSED_FROM, ATTRIBUTES_UNUSED_VALUES};
use rules::place::RANGE_BYTES;
use rules::{PAGES_END, Range};
use wire::number::LowFirst;

// N ranges that stand from a place on, and zero in the places past them.
#[tactic(auto, using(rules::proofs::Listed::eight_none, rules::proofs::Listed::eight_more))]
pub fn ranges_from(s: &[u8], base: usize, n: usize) -> [Range; 8]
    requires { (n ≤ most_ranges) × (base + n * range_bytes ≤ length s.now) }
    ensures { result ≡ eight_ranges n (ranges_from s.now base) }
{
    let mut ranges = [Range::default(); 8];
    for k in 0..n {
        ranges[k] = Range::read(s, base + k * RANGE_BYTES);
    }
    ranges
}

// A range has pages, and they end where the pages end or before: no sum that could wrap.
#[tactic(auto, using(rules::proofs::Bools::leb_sub), unfolding(rules::specs::Range::pages_ok))]
fn pages_ok(range: Range) -> bool
    ensures { result ≡ pages_ok range }
{
    let pages = u64::from(range.pages);
    1 <= pages && range.first <= PAGES_END - pages
}

#[tactic(auto, unfolding(rules::specs::Range::attributes_ok))]
fn attributes_ok(range: Range) -> bool
    ensures { result ≡ attributes_ok range }
{
    range.attributes / ATTRIBUTES_UNUSED_FROM % ATTRIBUTES_UNUSED_VALUES == 0
}

// The pages of all ranges keep their rule. Each rule has its name and its number of a report, so that one function for both would be told which.
pub fn all_pages(ranges: &[Range]) -> bool
    ensures { result ≡ all_pages (length ranges.now) (range_in ranges.now) }
{
    ranges.iter().all(|range| pages_ok(*range))
}

// The attributes of all ranges keep their rule.
pub fn all_attributes(ranges: &[Range]) -> bool
    ensures { result ≡ all_attributes (length ranges.now) (range_in ranges.now) }
{
    ranges.iter().all(|range| attributes_ok(*range))
}

// The least ID that a later range of ID 0 to 7 may have, once a range has ID `id`.
pub fn least_after(least: u16, id: u16) -> u16
    ensures { result ≡ (if leb id 7 then id else least) }
{
    if id <= 7 { id } else { least }
}

// The IDs of the ranges never fall.
pub fn never_fall(ranges: &[Range]) -> bool
    ensures { result ≡ never_fall (length ranges.now) (ids_of (range_in ranges.now)) }
{
    let mut least = 0;
    for range in ranges {
        if range.id < least {
            return false;
        }
        least = least_after(least, range.id);
    }
    true
}
