// The report writer: 01, "Report reader".
ghost use Rattle.std.specs.Prelude.{◌≡◌, length};
ghost use Rattle.rules.specs.Report.{report_number, write_number, value_or_0, written_length, written};

use crate::put::put_report;
use rules::place::RANGE_BYTES;
use rules::report::LEAST_REPORT;
use rules::{ReportFields, ReportRefusal};
use verdicts::write::write_verdict;

// Writes a report at the front of an output of any length and returns its length; a refusal writes nothing.
#[tactic(auto, using(rules::proofs::Sizes::reason_some, rules::proofs::Writes::no_length, rules::proofs::Writes::nothing_written, rules::proofs::Writes::few_ranges, rules::proofs::Writes::little_information, rules::proofs::Writes::room_for, rules::proofs::Writes::whole_length, rules::proofs::Writes::whole_written))]
pub fn write_report(f: ReportFields, out: &mut [u8]) -> Result<usize, ReportRefusal>
    ensures number { report_number result ≡ write_number f (length out.old) }
    ensures length { value_or_0 result ≡ written_length f (length out.old) }
    ensures output { out.new ≡ written f out.old }
{
    write_verdict(&f, out.len())?;
    put_report(&f, out);
    Ok(LEAST_REPORT + f.n as usize * RANGE_BYTES + f.l as usize)
}
