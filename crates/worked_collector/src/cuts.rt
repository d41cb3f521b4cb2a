// A record's report, asked for in portions at the collector's OFFSET, by requests to the responder.
use collector::Collector;
use compare::record::with_bytes;
use compare::request::report_request;
use compare::{bytes, case};
use report::read::read_report;
use responder::respond;
use rules::{Numbered, Range, Session};
use wire::number::LowFirst;

// One ask: the collector afterwards.
fn ask(c: Collector, length: u16, table: &mut [u8; 256]) -> Collector {
    // It is 200 at most. Any other would be asked past the end, and the reply not taken.
    let offset = u16::try_from(c.next_offset()).unwrap_or(u16::MAX);
    let request = report_request(0x0100, offset, length);
    let mut reply = [0u8; 256];
    let inputs = [0u8; 32];
    let answer = respond(
        &request,
        &mut reply,
        table,
        &inputs,
        false,
        &inputs,
        Session(9),
    );
    c.take(&reply[..answer.unwrap_or(0).min(256)]).collector
}

// Asks until it is finished, 200 at most: how many.
fn ask_all(c: &mut Collector, length: u16, table: &mut [u8; 256]) -> u64 {
    for asked in 0..200 {
        if c.finished() {
            return asked;
        }
        *c = ask(*c, length, table);
    }
    200
}

// The bytes held, and that the reader accepts them.
fn held(rt: &impl Print, c: Collector, want: &[u8]) {
    let whole = c.hand_back();
    // as: u32 has no From into usize.
    let length = whole.length as usize;
    let all = &whole.bytes[..length.min(200)];
    bytes(rt, "  the report", all, want);
    case(
        rt,
        "  the reader of it",
        u64::from(read_report(all).number()),
        0,
    );
}

// How many asks of a LENGTH it takes to have a record's report, and what is held then.
fn collect(rt: &impl Print, name: &str, length: u16, record: [u8; 256], asks: u64, want: &[u8]) {
    let mut table = record;
    let mut c = Collector::new(0x0100);
    case(rt, name, ask_all(&mut c, length, &mut table), asks);
    held(rt, c, want);
}

// Eight ranges, of first page 1000h, 2001h and so on, and 1 to 8 pages; the attributes and the ID of range k are k.
fn put_ranges(r: &mut [u8; 256]) {
    for k in 0..8u16 {
        let range = Range {
            first: 0x1000 + 0x1001 * u64::from(k),
            pages: 1 + u32::from(k),
            attributes: k,
            id: k,
        };
        range.write(r, 72 + 16 * usize::from(k));
    }
}

// A0h to D3h.
fn put_information(r: &mut [u8; 256]) {
    r[200] = 52;
    for (byte, value) in r[204..].iter_mut().zip(0xa0..=0xd3) {
        *byte = value;
    }
}

// 0100h, locked with NO_FW_UPDATE and LOCK_MSIX, nothing else.
fn plain() -> [u8; 256] {
    with_bytes([0u8; 256], &[(1, 1), (4, 1), (5, 1), (6, 5)])
}

// Every field that a report shows.
fn put_fields(r: &mut [u8; 256]) {
    r[10] = 8;
    r[12] = 0x1e;
    0x8007u16.write(r, 14);
    0x1234u16.write(r, 16);
    0x01020304u32.write(r, 20);
    0xffffffffffffd000u64.write(r, 24);
}

// The same with all of them, the offset -3 pages, and 52 bytes of information: the total is 200.
fn full() -> [u8; 256] {
    let mut r = plain();
    put_fields(&mut r);
    put_ranges(&mut r);
    put_information(&mut r);
    r
}

// LENGTH, and how many asks it takes.
fn whole(rt: &impl Print, name: &str, length: u16, asks: u64) {
    collect(
        rt,
        name,
        length,
        full(),
        asks,
        b"\x1f\x00\x00\x00\x07\x80\x34\x12\x04\x03\x02\x01\x08\x00\x00\x00\xfd\x0f\x00\x00\x00\x00\x00\x00\x01\x00\x00\x00\x00\x00\x00\x00\xfe\x1f\x00\x00\x00\x00\x00\x00\x02\x00\x00\x00\x01\x00\x01\x00\xff\x2f\x00\x00\x00\x00\x00\x00\x03\x00\x00\x00\x02\x00\x02\x00\x00\x40\x00\x00\x00\x00\x00\x00\x04\x00\x00\x00\x03\x00\x03\x00\x01\x50\x00\x00\x00\x00\x00\x00\x05\x00\x00\x00\x04\x00\x04\x00\x02\x60\x00\x00\x00\x00\x00\x00\x06\x00\x00\x00\x05\x00\x05\x00\x03\x70\x00\x00\x00\x00\x00\x00\x07\x00\x00\x00\x06\x00\x06\x00\x04\x80\x00\x00\x00\x00\x00\x00\x08\x00\x00\x00\x07\x00\x07\x00\x34\x00\x00\x00\xa0\xa1\xa2\xa3\xa4\xa5\xa6\xa7\xa8\xa9\xaa\xab\xac\xad\xae\xaf\xb0\xb1\xb2\xb3\xb4\xb5\xb6\xb7\xb8\xb9\xba\xbb\xbc\xbd\xbe\xbf\xc0\xc1\xc2\xc3\xc4\xc5\xc6\xc7\xc8\xc9\xca\xcb\xcc\xcd\xce\xcf\xd0\xd1\xd2\xd3",
    );
}

pub(crate) fn cases(rt: &impl Print) {
    whole(rt, "200 bytes in portions of 1: asks", 1, 200);
    whole(rt, "200 bytes in portions of 7: asks", 7, 29);
    whole(rt, "200 bytes in portions of 128: asks", 128, 2);
    whole(rt, "200 bytes, LENGTH 65535: asks", 65535, 2);
    collect(
        rt,
        "N = 0, L = 0, LENGTH 65535: asks",
        65535,
        plain(),
        1,
        b"\x01\x00\x00\x00\x00\x00\x00\x00\x00\x00\x00\x00\x00\x00\x00\x00\x00\x00\x00\x00",
    );
}
