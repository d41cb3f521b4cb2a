// The report writer's cases.
use compare::{case, front};
use report::write::write_report;
use rules::{Numbered, Range, ReportFields};

// Fields with one range that may be good or bad; every other range and all information past L is rubbish.
fn fields(n: u32, l: u32, first: u64, attributes: u16) -> ReportFields {
    let bad = Range {
        first: 1311768467463790320,
        pages: 0,
        attributes: 65535,
        id: 7,
    };
    let good = Range {
        first,
        pages: 67305985,
        attributes,
        id: 4660,
    };
    ReportFields {
        info: 3,
        msix: 258,
        lnr: 772,
        tph: 84281096,
        n,
        ranges: [good, bad, bad, bad, bad, bad, bad, bad],
        l,
        information: [170u8; 52],
    }
}

// The writer on such fields: its number and its length.
fn written(
    rt: &impl Print,
    name: &str,
    given: ReportFields,
    out: &mut [u8],
    want: u64,
    length: u64,
) {
    let result = write_report(given, out);
    case(rt, name, u64::from(result.number()), want);
    // as: usize has no From into u64.
    case(rt, "  and its length", result.unwrap_or(0) as u64, length);
}

fn too_many(rt: &impl Print, out: &mut [u8]) {
    written(rt, "N = 9", fields(9, 0, 0, 0), out, 21, 0);
    written(rt, "L = 53", fields(0, 53, 0, 0), out, 21, 0);
}

fn bad_range(rt: &impl Print, out: &mut [u8]) {
    let bit_four = fields(1, 0, 0, 16);
    written(rt, "attribute bit 4 in the range", bit_four, out, 23, 0);
    let past_the_last = fields(1, 0, 4503599627370496, 0);
    written(rt, "a first page of 2^52", past_the_last, out, 24, 0);
}

// First page 0001020304050607h, pages 04030201h, attributes Ah, ID 1234h, one byte of information.
fn accepted(rt: &impl Print, out: &mut [u8]) {
    front(
        rt,
        "the front of the output after four refusals",
        out,
        &[0xee; 40],
    );
    let rubbish_behind = fields(1, 1, 283686952306183, 10);
    written(rt, "rubbish past N and L", rubbish_behind, out, 0, 37);
    front(
        rt,
        "the front of the output",
        out,
        b"\x03\x00\x00\x00\x02\x01\x04\x03\x08\x07\x06\x05\x01\x00\x00\x00\x07\x06\x05\x04\x03\x02\x01\x00\x01\x02\x03\x04\x0a\x00\x34\x12\x01\x00\x00\x00\xaa\xee\xee\xee",
    );
}

pub(crate) fn cases(rt: &impl Print) {
    let mut short = [238u8; 199];
    let name = "an output of 199 bytes with N = 9";
    written(rt, name, fields(9, 0, 0, 0), &mut short, 26, 0);
    let mut long = [238u8; 200];
    too_many(rt, &mut long);
    bad_range(rt, &mut long);
    accepted(rt, &mut long);
}
