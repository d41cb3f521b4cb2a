// A record that keeps its rules, and the fields of its report: 01, "Report".
ghost use Rattle.std.specs.Prelude.{◌≡◌, true, ◌+◌, ◌*◌, ◌/◌, ◌≤◌, length, if◌then◌else◌};
ghost use Rattle.rules.specs.Bytes.{bit};
ghost use Rattle.rules.specs.Lock.{signed};
ghost use Rattle.rules.specs.Range.{most_ranges, eight_ranges, range_in, pages_ok, all_pages};
ghost use Rattle.rules.specs.Record.{most_information, range_count, information_length, record_ok};
ghost use Rattle.rules.specs.Report.{shown_attributes, shown_range, report_of};
ghost use Rattle.rules.specs.Table.{record_bytes};

use ranges::offset::shift;
use ranges::range::ranges_from;
use report::fields::information_from;
use rules::flags::LockFlags;
use rules::place::{
    FLAGS, INFORMATION, INFORMATION_LENGTH, INTERFACE_INFO, LNR_CONTROL, MSIX_CONTROL, OFFSET,
    RANGE_COUNT, RANGES, TPH_CONTROL,
};
use rules::{RECORD_BYTES, Range, ReportFields};
use wire::number::LowFirst;

// The bytes of a record that keeps its rules: a report is composed of no other.
#[derive(Clone, Copy)]
pub struct Record<'a> {
    pub bytes: &'a [u8; RECORD_BYTES],
    // The type says it too, but a proof learns it from there only where the bytes are read.
    ghost long: { length bytes.now ≡ record_bytes },
    ghost keeps_rules: { record_ok bytes.now ≡ true },
}

impl Record<'_> {
    // How many ranges it has.
    #[tactic(auto, using(rules::proofs::Kept::count_most))]
    pub(crate) fn range_count(self) -> usize
        ensures value { result ≡ range_count self.entry.bytes.now }
        ensures most { result ≤ most_ranges }
    {
        usize::from(self.bytes[RANGE_COUNT])
    }

    // How much information it has.
    #[tactic(auto, using(rules::proofs::Kept::information_most))]
    pub(crate) fn information_length(self) -> usize
        ensures value { result ≡ information_length self.entry.bytes.now }
        ensures most { result ≤ most_information }
    {
        let r = self.bytes;
        u32::read(r, INFORMATION_LENGTH) as usize
    }

    // The fields of its report.
    #[tactic(auto, using(rules::proofs::Kept::pages_known, rules::proofs::Listed::front_eight, rules::proofs::RecordReport::fields_told))]
    pub(crate) fn report_of(self) -> ReportFields
        ensures fields { result ≡ report_of self.entry.bytes.now }
        ensures few { result.n ≤ most_ranges }
        ensures little { result.l ≤ most_information }
    {
        let r = self.bytes;
        let flags = u16::read(r, FLAGS);
        let msix = LockFlags(flags).contains(LockFlags::LOCK_MSIX);
        let n = self.range_count();
        let l = self.information_length();
        let ranges = ranges_from(r, RANGES, n);
        ReportFields {
            info: shown_info(u16::read(r, INTERFACE_INFO), flags),
            msix: shown_control(msix, u16::read(r, MSIX_CONTROL)),
            lnr: u16::read(r, LNR_CONTROL),
            tph: u32::read(r, TPH_CONTROL),
            n: n as u32,
            ranges: shown_ranges(u64::read(r, OFFSET), msix, &ranges[..n]),
            l: l as u32,
            information: information_from(r, INFORMATION, l),
        }
    }
}

// Attribute bits 0 and 1 are cleared unless LOCK_MSIX.
fn shown_attributes(msix: bool, a: u16) -> u16
    ensures { result ≡ shown_attributes msix a }
{
    if msix { a } else { a / 4 * 4 }
}

// MSI-X control, 0 unless LOCK_MSIX.
fn shown_control(msix: bool, control: u16) -> u16
    ensures { result ≡ (if msix then control else 0) }
{
    if msix { control } else { 0 }
}

// INTERFACE_INFO with bit 0 from NO_FW_UPDATE.
#[tactic(auto, using(rules::proofs::Bits::flag_bit))]
fn shown_info(info: u16, flags: u16) -> u16
    ensures { result ≡ info / 2 * 2 + bit 0 flags }
{
    info / 2 * 2 + u16::from(LockFlags(flags).contains(LockFlags::NO_FW_UPDATE))
}

// A range with its first page shifted.
#[tactic(auto, using(rules::proofs::Ranges::range_end, rules::proofs::RecordReport::page_is))]
fn shown_range(offset: u64, msix: bool, range: Range) -> Range
    requires { pages_ok range ≡ true }
    ensures { result ≡ shown_range (signed offset) msix range }
{
    Range {
        first: shift(offset, range).unwrap_or(0),
        attributes: shown_attributes(msix, range.attributes),
        ..range
    }
}

#[tactic(auto, using(rules::proofs::Listed::eight_none, rules::proofs::Listed::eight_more, rules::proofs::Ranges::pages_at))]
fn shown_ranges(offset: u64, msix: bool, ranges: &[Range]) -> [Range; 8]
    requires few { length ranges.now ≤ most_ranges }
    requires pages { all_pages (length ranges.now) (range_in ranges.now) ≡ true }
    ensures { result ≡ eight_ranges (length ranges.now) (λ k. shown_range (signed offset) msix (range_in ranges.now k)) }
{
    let mut shown = [Range::default(); 8];
    for (k, range) in ranges.iter().enumerate() {
        shown[k] = shown_range(offset, msix, *range);
    }
    shown
}
