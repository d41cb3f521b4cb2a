// A report's fields, as the report reader hands them back, each beside its bytes.
ghost use Rattle.std.specs.Prelude.{◌≡◌, ◌≤◌, min};
ghost use Rattle.rules.specs.Range.{most_ranges};

use crate::field::{field, part};
use crate::form::{Hex, Number};
use rules::place::RANGE_BYTES;
use rules::report::{COUNT, LNR, MSIX, RANGES, TPH, UNUSED};
use rules::{Range, ReportFields};

// A number in so many digits.
fn in_digits(x: impl Into<u64>, digits: usize) -> Number {
    Number {
        number: x.into(),
        digits,
    }
}

// A field that is a number: its bytes, and the number in so many digits.
fn number<R: Print>(rt: &R, title: &str, bytes: &[u8], x: impl Into<u64>, digits: usize) {
    let bytes = Hex(bytes);
    let number = in_digits(x, digits);
    let _ = println!(rt; "    {title}, low byte first:{bytes} = {number}");
}

// What stands before the ranges.
fn head<R: Print>(rt: &R, f: &ReportFields, s: &[u8]) {
    number(rt, "INTERFACE_INFO", part(s, 0..UNUSED), f.info, 4);
    field(rt, "reserved", s, UNUSED..MSIX);
    number(rt, "MSI_X_MESSAGE_CONTROL", part(s, MSIX..LNR), f.msix, 4);
    number(rt, "LNR_CONTROL", part(s, LNR..TPH), f.lnr, 4);
    number(rt, "TPH_CONTROL", part(s, TPH..COUNT), f.tph, 8);
    number(rt, "MMIO_RANGE_COUNT", part(s, COUNT..RANGES), f.n, 8);
}

// Range k, and its 16 bytes: first page, pages, attributes, range ID.
fn range<R: Print>(rt: &R, k: usize, x: &Range, s: &[u8]) {
    let first = Hex(part(s, 0..8));
    let pages = Hex(part(s, 8..12));
    let attributes = Hex(part(s, 12..14));
    let id = Hex(part(s, 14..16));
    let _ = print!(rt;
        "    MMIO_RANGE {k}, low byte first: first page{first} = {}",
        in_digits(x.first, 16)
    );
    let _ = print!(rt; ", pages{pages} = {}", in_digits(x.pages, 8));
    let _ = print!(rt; ", attributes{attributes} = {}", in_digits(x.attributes, 4));
    let _ = println!(rt; ", range ID{id} = {}", in_digits(x.id, 4));
}

// The ranges that there are.
fn all_ranges<R: Print>(rt: &R, ranges: &[Range], s: &[u8]) {
    for (k, x) in ranges.iter().enumerate() {
        let at = RANGES + k * RANGE_BYTES;
        range(rt, k, x, part(s, at..at + RANGE_BYTES));
    }
}

// What stands behind n ranges.
fn information<R: Print>(rt: &R, n: usize, l: u32, s: &[u8])
    requires { n ≤ most_ranges }
{
    let at = RANGES + n * RANGE_BYTES;
    number(rt, "DEVICE_SPECIFIC_INFO_LEN", part(s, at..at + 4), l, 8);
    field(rt, "DEVICE_SPECIFIC_INFO", s, at + 4..s.len());
}

// The fields of a report of these bytes; how many ranges.
pub fn show<R: Print>(rt: &R, f: ReportFields, s: &[u8]) -> usize
    ensures { result ≡ min f.n most_ranges }
{
    let n = f.ranges.len().min(f.n as usize);
    head(rt, &f, s);
    all_ranges(rt, &f.ranges[..n], s);
    information(rt, n, f.l, s);
    n
}
