// A report as it crosses to C, by both archives.
ghost use Rattle.std.specs.Prelude.{◌≡◌};
ghost use Rattle.rules.specs.Report.{report_number, fields_or_0, read_number, handed_back};
ghost use Rattle.report.specs.Shown.{fields_of};

use crate::read::read_report;
use rules::{Numbered, Range, ReportFields, ReportRefusal};

// A report's number and fields. C has them in one struct, field by field, so none of them is a `ReportFields`.
#[repr(C)]
#[derive(Clone, Copy)]
pub struct TdispReport {
    pub number: u32,
    pub info: u16,
    pub msix: u16,
    pub lnr: u16,
    pub tph: u32,
    pub n: u32,
    pub ranges: [Range; 8],
    pub l: u32,
    pub information: [u8; 52],
}

// The number beside the fields; zeros beside a refusal's.
impl From<Result<ReportFields, ReportRefusal>> for TdispReport {
    ghost from_gives = { λ read report. (report.number ≡ report_number read) × (fields_of report ≡ fields_or_0 read) };

    fn from(read: Result<ReportFields, ReportRefusal>) -> TdispReport {
        let f = read.unwrap_or_default();
        // The borrow checker takes an array into a literal only from a variable, here and below.
        let ranges = f.ranges;
        let information = f.information;
        TdispReport {
            number: read.number(),
            info: f.info,
            msix: f.msix,
            lnr: f.lnr,
            tph: f.tph,
            n: f.n,
            ranges,
            l: f.l,
            information,
        }
    }
}

// The fields, which the writer takes; the number is not read.
impl From<TdispReport> for ReportFields {
    ghost from_gives = { λ report f. f ≡ fields_of report };

    fn from(report: TdispReport) -> ReportFields {
        let ranges = report.ranges;
        let information = report.information;
        ReportFields {
            info: report.info,
            msix: report.msix,
            lnr: report.lnr,
            tph: report.tph,
            n: report.n,
            ranges,
            l: report.l,
            information,
        }
    }
}

// Reads a report: the number beside the fields.
pub fn read_across(report: &[u8]) -> TdispReport
    ensures number { result.number ≡ read_number report.now }
    ensures fields { fields_of result ≡ handed_back report.now }
{
    read_report(report).into()
}
