// The report reader and writer.
ghost use Rattle.std.specs.Prelude.{◌≡◌, length};
ghost use Rattle.rules.specs.Report.{read_number, handed_back, write_number, written_length, written};
ghost use Rattle.report.specs.Shown.{fields_of};

use crate::call::TdispAnswer;
use report::crossing::{TdispReport, read_across};
use report::write::write_report;
use rules::Numbered;

// Reads a report. The archive for hosts exports it too: either may be linked alone.
#[unsafe(no_mangle)]
pub extern "C" fn tdisp_read_report(report: &[u8]) -> TdispReport
    ensures number { result.number ≡ read_number report.now }
    ensures fields { fields_of result ≡ handed_back report.now }
{
    read_across(report)
}

// Writes a report.
#[tactic(auto, using(crate::proofs::Fits::report_fits))]
#[unsafe(no_mangle)]
pub extern "C" fn tdisp_write_report(fields: TdispReport, output: &mut [u8]) -> TdispAnswer
    ensures number { result.number ≡ write_number (fields_of fields) (length output.old) }
    ensures length { result.length ≡ written_length (fields_of fields) (length output.old) }
    ensures output { output.new ≡ written (fields_of fields) output.old }
{
    let written = write_report(fields.into(), output);
    // The C interface counts in 32 bits, and a report's length fits: `report_fits`.
    TdispAnswer {
        number: written.number(),
        length: written.unwrap_or(0) as u32,
    }
}
