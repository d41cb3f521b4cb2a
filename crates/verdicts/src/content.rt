// What is in a report: 23 to 25.
ghost use Rattle.std.specs.Prelude.{◌≡◌, length};
ghost use Rattle.rules.specs.Range.{range_in};
ghost use Rattle.rules.specs.Report.{report_number, content_number};

use ranges::range::{all_attributes, all_pages, never_fall};
use rules::bit::{INFO_UNUSED_FROM, INFO_UNUSED_VALUES};
use rules::{Range, ReportRefusal};

// 23 over all ranges, before 24 is asked of any.
#[tactic(auto, unfolding(rules::specs::Report::content_number))]
pub fn content_verdict(info: u16, ranges: &[Range]) -> Result<(), ReportRefusal>
    ensures { report_number result ≡ content_number info (length ranges.now) (range_in ranges.now) }
{
    if info / INFO_UNUSED_FROM % INFO_UNUSED_VALUES != 0 || !all_attributes(ranges) {
        return Err(ReportRefusal::Reserved);
    }
    if !all_pages(ranges) {
        return Err(ReportRefusal::BadPages);
    }
    if !never_fall(ranges) {
        return Err(ReportRefusal::FallingIds);
    }
    Ok(())
}
