// The report reader's cases.
use compare::case;
use compare::record::with_bytes;
use report::read::read_report;
use rules::Numbered;
use wire::number::LowFirst;

fn read(rt: &impl Print, name: &str, s: &[u8], want: u64) {
    case(rt, name, u64::from(read_report(s).number()), want);
}

// 20 zero bytes but for one.
fn twenty(rt: &impl Print, name: &str, at: usize, value: u8, want: u64) {
    read(rt, name, &with_bytes([0u8; 20], &[(at, value)]), want);
}

fn zeros(rt: &impl Print) {
    let zeros = [0u8; 21];
    read(rt, "an empty report", &zeros[..0], 20);
    read(rt, "nineteen zero bytes", &zeros[..19], 20);
    read(rt, "twenty zero bytes", &zeros[..20], 0);
    read(rt, "21 zero bytes", &zeros, 22);
}

pub(crate) fn sizes(rt: &impl Print) {
    zeros(rt);
    twenty(rt, "N = 9 in 20 bytes", 12, 9, 21);
    let mut all = [0u8; 20];
    0xffffffffu32.write(&mut all, 12);
    read(rt, "N = FFFFFFFFh in 20 bytes", &all, 21);
    twenty(rt, "N = 1 in 20 bytes", 12, 1, 20);
    twenty(rt, "L = 53 in 20 bytes", 16, 53, 21);
    twenty(rt, "L = 1 in 20 bytes", 16, 1, 20);
    let reserved = with_bytes([0u8; 21], &[(0, 32)]);
    read(rt, "a reserved bit and one byte too many", &reserved, 22);
}

// Two ranges in 52 bytes: their pages, their IDs, and the second's attributes.
fn two_ranges(
    rt: &impl Print,
    name: &str,
    pages: [u8; 2],
    ids: [u8; 2],
    attributes: u8,
    want: u64,
) {
    let s = with_bytes(
        [0u8; 52],
        &[
            (12, 2),
            (24, pages[0]),
            (30, ids[0]),
            (40, pages[1]),
            (44, attributes),
            (46, ids[1]),
        ],
    );
    read(rt, name, &s, want);
}

// Three ranges of one page in 68 bytes, with the IDs a, b and c.
fn three_ids(rt: &impl Print, name: &str, a: u8, b: u16, c: u8, want: u64) {
    let mut s = with_bytes(
        [0u8; 68],
        &[(12, 3), (24, 1), (30, a), (40, 1), (56, 1), (62, c)],
    );
    b.write(&mut s, 46);
    read(rt, name, &s, want);
}

// One range in 36 bytes.
fn one_range(rt: &impl Print, name: &str, first: u64, pages: u8, want: u64) {
    let mut s = with_bytes([0u8; 36], &[(12, 1), (24, pages)]);
    first.write(&mut s, 16);
    read(rt, name, &s, want);
}

fn reserved(rt: &impl Print) {
    twenty(rt, "INTERFACE_INFO bit 5", 0, 32, 23);
    twenty(rt, "byte 2 not zero", 2, 1, 23);
    twenty(rt, "byte 3 not zero", 3, 128, 23);
}

fn ranges(rt: &impl Print) {
    let both = "pages 0 in range 0 and attribute bit 4 in range 1";
    two_ranges(rt, both, [0, 1], [0, 0], 16, 23);
    two_ranges(rt, "pages 0 with falling IDs", [0, 1], [5, 4], 0, 24);
    two_ranges(rt, "pages 0 in the last range", [1, 0], [0, 0], 0, 24);
    three_ids(rt, "IDs 7, FFFFh, 0", 7, 0xffff, 0, 25);
    three_ids(rt, "IDs 3, 9, 2", 3, 9, 2, 25);
    three_ids(rt, "IDs 3, 9, 3", 3, 9, 3, 0);
}

fn pages(rt: &impl Print) {
    let wraps = "a first page of FFFFFFFFFFFFFFFFh with pages 1";
    one_range(rt, wraps, 0xffffffffffffffff, 1, 24);
    one_range(
        rt,
        "first page 2^52 - 1 with pages 1",
        0xfffffffffffff,
        1,
        0,
    );
    one_range(
        rt,
        "first page 2^52 - 1 with pages 2",
        0xfffffffffffff,
        2,
        24,
    );
}

pub(crate) fn contents(rt: &impl Print) {
    reserved(rt);
    ranges(rt);
    pages(rt);
}
