// The fields of a report, read from its bytes.
ghost use Rattle.std.specs.Prelude.{◌≡◌, ◌+◌, ◌≤◌, length};
ghost use Rattle.rules.specs.Range.{most_ranges};
ghost use Rattle.rules.specs.Record.{most_information};
ghost use Rattle.rules.specs.Report.{total_of, information_from, read_count, read_length, read_fields};

use ranges::range::ranges_from;
use rules::ReportFields;
use rules::place::RANGE_BYTES;
use rules::report::{COUNT, LNR, MSIX, RANGES, TPH};
use wire::copy::copy_over;
use wire::number::LowFirst;

// L bytes of information that stand from a place on, and zero past them.
#[tactic(auto, using(rules::proofs::Listed::information_copied))]
pub fn information_from(s: &[u8], at: usize, l: usize) -> [u8; 52]
    requires little { l ≤ most_information }
    requires inside { at + l ≤ length s.now }
    ensures { result ≡ information_from s.now at l }
{
    let mut information = [0; 52];
    let end = at + l;
    copy_over(&mut information, 0, &s[at..end]);
    information
}

// All fields of a report whose size is right.
#[tactic(auto, unfolding(rules::specs::Report::read_fields))]
pub fn read_fields(s: &[u8]) -> ReportFields
    requires few { read_count s.now ≤ most_ranges }
    requires little { read_length s.now ≤ most_information }
    requires whole { total_of (read_count s.now) (read_length s.now) ≤ length s.now }
    ensures { result ≡ read_fields s.now }
{
    let n = u32::read(s, COUNT);
    let at = RANGES + n as usize * RANGE_BYTES;
    let l = u32::read(s, at);
    ReportFields {
        info: u16::read(s, 0),
        msix: u16::read(s, MSIX),
        lnr: u16::read(s, LNR),
        tph: u32::read(s, TPH),
        n,
        ranges: ranges_from(s, RANGES, n as usize),
        l,
        information: information_from(s, at + 4, l as usize),
    }
}
