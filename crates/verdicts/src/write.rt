// The writer's numbers: the output, the sizes, then what is in the report.
ghost use Rattle.std.specs.Prelude.{◌≡◌};
ghost use Rattle.rules.specs.Report.{report_number, write_number};

use crate::content::content_verdict;
use rules::report::MOST_REPORT;
use rules::{ReportFields, ReportRefusal};

// 26 for a short output, tested first; 21; then what is in the report.
#[tactic(auto, using(rules::proofs::Writes::by_fields), unfolding(rules::specs::Report::write_number))]
pub fn write_verdict(f: &ReportFields, output: usize) -> Result<(), ReportRefusal>
    ensures { report_number result ≡ write_number f.now output }
{
    if output < MOST_REPORT {
        return Err(ReportRefusal::SmallOutput);
    }
    if 8 < f.n || 52 < f.l {
        return Err(ReportRefusal::TooMany);
    }
    content_verdict(f.info, &f.ranges[..f.n as usize])
}
