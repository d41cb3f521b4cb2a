// The report reader.
ghost use Rattle.std.specs.Prelude.{◌≡◌};
ghost use Rattle.rules.specs.Report.{read_number, handed_back};
ghost use Rattle.report.specs.Shown.{fields_of};

use report::crossing::{TdispReport, read_across};

// Reads a report. The archive for firmware exports it too: either may be linked alone.
#[unsafe(no_mangle)]
pub extern "C" fn tdisp_read_report(report: &[u8]) -> TdispReport
    ensures number { result.number ≡ read_number report.now }
    ensures fields { fields_of result ≡ handed_back report.now }
{
    read_across(report)
}
