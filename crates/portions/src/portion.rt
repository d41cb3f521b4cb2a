// A portion of a record's report: 01, "Report".
ghost use Rattle.std.specs.Prelude.{◌≡◌, ◌++◌, ◌+◌, ◌≤◌, ◌<◌, length};
ghost use Rattle.rules.specs.Bytes.{bytes_of, over};
ghost use Rattle.rules.specs.Report.{most_report, most_portion, report_total, portion_length, portion_bytes};

use crate::record::Record;
use report::put::put_report;
use rules::place::RANGE_BYTES;
use rules::report::{LEAST_REPORT, MOST_PORTION, MOST_REPORT};
use wire::copy::copy_over;
use wire::number::LowFirst;

// The length of a record's report.
pub fn report_total(r: Record) -> usize
    ensures total { result ≡ report_total r.entry.bytes.now }
    ensures most { result ≤ most_report }
{
    LEAST_REPORT + r.range_count() * RANGE_BYTES + r.information_length()
}

// Portion length 2, remainder length 2.
#[tactic(auto, using(rules::proofs::Portions::lengths_written))]
fn put_lengths(portion: usize, remainder: usize, out: &mut [u8])
    requires portion { portion ≤ most_report }
    requires remainder { remainder ≤ most_report }
    requires room { 4 ≤ length out.old }
    ensures { out.new ≡ over 0 (bytes_of 2 portion ++ bytes_of 2 remainder) out.old }
{
    (portion as u16).write(out, 0);
    (remainder as u16).write(out, 2);
}

// Writes portion length, remainder length and portion at the front of `out`, and returns how many bytes that is.
pub fn put_portion(r: Record, at: usize, asked: usize, out: &mut [u8]) -> usize
    requires inside { at < report_total r.bytes.now }
    requires room { 4 + most_portion ≤ length out.old }
    ensures length { result ≡ 4 + portion_length (report_total r.entry.bytes.now) at asked }
    ensures bytes { out.new ≡ over 0 (portion_bytes r.entry.bytes.now at asked) out.old }
{
    let mut whole = [0; MOST_REPORT];
    put_report(&r.report_of(), &mut whole);
    let left = report_total(r) - at;
    let portion = asked.min(left.min(MOST_PORTION));
    let end = at + portion;
    put_lengths(portion, left - portion, out);
    copy_over(out, 4, &whole[at..end]);
    4 + portion
}
