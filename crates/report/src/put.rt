// The bytes of a report, written from its fields.
ghost use Rattle.std.specs.Prelude.{◌≡◌, ◌+◌, ◌*◌, ◌≤◌, length};
ghost use Rattle.rules.specs.Bytes.{over};
ghost use Rattle.rules.specs.Range.{most_ranges, range_bytes, range_in};
ghost use Rattle.rules.specs.Record.{most_information};
ghost use Rattle.rules.specs.Report.{most_report, bytes_of_ranges, head_of, front_of, report_bytes};

use rules::place::RANGE_BYTES;
use rules::report::{COUNT, LNR, MSIX, RANGES, TPH, UNUSED};
use rules::{Range, ReportFields};
use wire::copy::copy_over;
use wire::number::LowFirst;

// INTERFACE_INFO, two zero bytes, MSI-X control, LNR, TPH, N.
#[tactic(auto, using(rules::proofs::Written::head_written))]
fn put_head(f: &ReportFields, out: &mut [u8])
    requires { 16 ≤ length out.old }
    ensures { out.new ≡ over 0 (head_of f.now) out.old }
{
    f.info.write(out, 0);
    0u16.write(out, UNUSED);
    f.msix.write(out, MSIX);
    f.lnr.write(out, LNR);
    f.tph.write(out, TPH);
    f.n.write(out, COUNT);
}

#[tactic(auto, using(rules::proofs::Written::ranges_none, rules::proofs::Written::ranges_more))]
fn put_ranges(ranges: &[Range], out: &mut [u8])
    requires { 16 + length ranges.now * range_bytes ≤ length out.old }
    ensures { out.new ≡ over 16 (bytes_of_ranges (length ranges.now) (range_in ranges.now)) out.old }
{
    for (k, range) in ranges.iter().enumerate() {
        range.write(out, RANGES + k * RANGE_BYTES);
    }
}

#[tactic(auto, using(rules::proofs::Written::ranges_front, rules::proofs::Written::front_written))]
fn put_front(f: &ReportFields, out: &mut [u8])
    requires few { f.now.n ≤ most_ranges }
    requires room { 16 + f.now.n * range_bytes ≤ length out.old }
    ensures { out.new ≡ over 0 (front_of f.now) out.old }
{
    put_head(f, out);
    put_ranges(&f.ranges[..f.n as usize], out);
}

// The whole report at the front of the output.
#[tactic(auto, using(rules::proofs::Written::report_written))]
pub fn put_report(f: &ReportFields, out: &mut [u8])
    requires few { f.now.n ≤ most_ranges }
    requires little { f.now.l ≤ most_information }
    requires room { most_report ≤ length out.old }
    ensures { out.new ≡ over 0 (report_bytes f.now) out.old }
{
    let at = RANGES + f.n as usize * RANGE_BYTES;
    put_front(f, out);
    f.l.write(out, at);
    copy_over(out, at + 4, &f.information[..f.l as usize]);
}
