// The report reader: 01, "Report reader".
ghost use Rattle.std.specs.Prelude.{◌≡◌};
ghost use Rattle.rules.specs.Report.{report_number, read_number, fields_or_0, handed_back};

use crate::fields::read_fields;
use rules::{ReportFields, ReportRefusal};
use verdicts::read::read_verdict;

// Reads a report of any bytes: its fields. A refusal hands back no fields, which stands for zeros: C gets zeros beside its number.
#[tactic(auto, using(rules::proofs::Sizes::read_sized, rules::proofs::Sizes::reason_some, rules::proofs::Sizes::handed_fields, rules::proofs::Sizes::handed_zeros))]
pub fn read_report(s: &[u8]) -> Result<ReportFields, ReportRefusal>
    ensures number { report_number result ≡ read_number s.now }
    ensures fields { fields_or_0 result ≡ handed_back s.now }
{
    read_verdict(s)?;
    Ok(read_fields(s))
}
