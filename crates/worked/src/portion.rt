// A portion of a report of 200 bytes.
use compare::case;
use compare::record::full_record;
use portions::portion::{put_portion, report_total};
use portions::record::Record;
use records::record::record_ok;
use wire::number::LowFirst;

// The lengths that a portion begins with.
fn lengths(rt: &impl Print, out: &[u8; 256], portion: u16, remainder: u16) {
    case(
        rt,
        "  OFFSET 199, LENGTH 65,535: portion",
        u64::from(u16::read(out, 0)),
        u64::from(portion),
    );
    case(
        rt,
        "  and remainder",
        u64::from(u16::read(out, 2)),
        u64::from(remainder),
    );
}

fn cut(rt: &impl Print, r: &[u8; 256], at: usize, asked: usize, portion: u16, remainder: u16) {
    if !record_ok(r) {
        return;
    }
    let record = Record { bytes: r };
    let total = report_total(record);
    // as: usize has no From into u64.
    case(rt, "the total of the fullest report", total as u64, 200);
    if total <= at {
        return;
    }
    let mut out = [0u8; 256];
    put_portion(record, at, asked, &mut out);
    lengths(rt, &out, portion, remainder);
}

pub(crate) fn last_byte(rt: &impl Print) {
    cut(rt, &full_record(), 199, 65535, 1, 0);
}
