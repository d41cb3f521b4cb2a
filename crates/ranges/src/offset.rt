// The MMIO reporting offset. It is a signed 64-bit number: an i64 in here, and its eight bytes' number, a u64, outside.
ghost use Rattle.std.specs.Prelude.{◌≡◌, true, ◌≤◌, ◌^◌, pos, ◌+ℤ◌};
ghost use Rattle.std.specs.Int.Signed.{mag, quot_z};
ghost use Rattle.rules.specs.Range.{most_ranges, pages_end};
ghost use Rattle.rules.specs.Lock.{page_bytes, signed, whole_pages, fitted, shifted, all_stay};
ghost use Rattle.rules.specs.Record.{range_count, range_of, ranges_ok};

use rules::place::{RANGE_BYTES, RANGE_COUNT, RANGES};
use rules::{PAGES_END, RECORD_BYTES, Range};
use wire::number::LowFirst;

const PAGE_BYTES: i64 = 4096;

// By two's complement: numbers from 2^63 on stand for those below zero, and the last, 2^64 - 1, for -1.
fn signed(x: u64) -> i64
    ensures { result ≡ signed x }
{
    x.cast_signed()
}

// The pages by which the offset moves a range: it is divided by 4096, exactly where it is a multiple.
pub fn offset_pages(x: u64) -> i64
    ensures quotient { result ≡ quot_z (signed x) (pos page_bytes) }
    ensures small { mag result ≤ 2 ^ 51 }
{
    signed(x) / PAGE_BYTES
}

// Whether the offset is a multiple of 4096.
pub fn whole_pages(x: u64) -> bool
    ensures { result ≡ whole_pages (signed x) }
{
    signed(x) % PAGE_BYTES == 0
}

// The first page moved by so many pages, at least 0 and, with the range's pages added, at most 2^52.
fn shift_by(by: i64, first: u64, pages: u32) -> Option<u64>
    requires { (first ≤ pages_end) × (mag by ≤ 2 ^ 51) }
    ensures { result ≡ fitted (pos first +ℤ by) pages }
{
    let page = u64::try_from(first as i64 + by).ok()?;
    (page + u64::from(pages) <= PAGES_END).then_some(page)
}

// What the offset makes of a range's first page.
#[tactic(auto, unfolding(rules::specs::Lock::shifted))]
pub fn shift(x: u64, range: Range) -> Option<u64>
    requires { range.first ≤ pages_end }
    ensures { result ≡ shifted (signed x) range }
{
    shift_by(offset_pages(x), range.first, range.pages)
}

// Whether the ranges of a record, which keep their rules, stay with the offset. That is a clause here and no type: here records are still judged.
pub fn all_stay(x: u64, r: &[u8; RECORD_BYTES]) -> bool
    requires { (range_count r.now ≤ most_ranges) × (ranges_ok r.now ≡ true) }
    ensures { result ≡ all_stay (signed x) (range_count r.now) (range_of r.now) }
{
    for k in 0..r[RANGE_COUNT] as usize {
        let range = Range::read(r, RANGES + k * RANGE_BYTES);
        if shift(x, range).is_none() {
            return false;
        }
    }
    true
}
