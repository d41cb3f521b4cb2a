// The reader's numbers: size, then what is in the report.
ghost use Rattle.std.specs.Prelude.{◌≡◌};
ghost use Rattle.rules.specs.Report.{report_number, size_number, read_number};

use crate::content::content_verdict;
use ranges::range::ranges_from;
use rules::ReportRefusal;
use rules::place::{MOST_INFORMATION, RANGE_BYTES};
use rules::report::{COUNT, LEAST_REPORT, RANGES, UNUSED, UNUSED_LAST};
use wire::number::LowFirst;
use wire::zero::zero;

// 20 under 20 bytes; 21 N over 8; 20 under 20 + 16N; 21 L over 52; 20 under 20 + 16N + L; 22 longer.
#[tactic(auto, unfolding(rules::specs::Report::size_number))]
fn size_verdict(s: &[u8]) -> Result<(), ReportRefusal>
    ensures { report_number result ≡ size_number s.now }
{
    let len = s.len();
    if len < LEAST_REPORT {
        return Err(ReportRefusal::Short);
    }
    let n = u32::read(s, COUNT) as usize;
    if 8 < n {
        return Err(ReportRefusal::TooMany);
    }
    if len < LEAST_REPORT + n * RANGE_BYTES {
        return Err(ReportRefusal::Short);
    }
    let l = u32::read(s, RANGES + n * RANGE_BYTES) as usize;
    if MOST_INFORMATION < l {
        return Err(ReportRefusal::TooMany);
    }
    let total = LEAST_REPORT + n * RANGE_BYTES + l;
    if len < total {
        return Err(ReportRefusal::Short);
    }
    if total < len {
        return Err(ReportRefusal::Longer);
    }
    Ok(())
}

#[tactic(auto, using(rules::proofs::Sizes::wrong_size, rules::proofs::Sizes::has_head, rules::proofs::Sizes::is_sized, rules::proofs::Sizes::not_zero, rules::proofs::Sizes::by_content, rules::proofs::Sizes::content_front, rules::proofs::Sizes::content_eight, rules::proofs::Listed::front_eight))]
pub fn read_verdict(s: &[u8]) -> Result<(), ReportRefusal>
    ensures { report_number result ≡ read_number s.now }
{
    size_verdict(s)?;
    if !zero(s, UNUSED, UNUSED_LAST) {
        return Err(ReportRefusal::Reserved);
    }
    let n = u32::read(s, COUNT) as usize;
    let ranges = ranges_from(s, RANGES, n);
    content_verdict(u16::read(s, 0), &ranges[..n])
}
