// Device-wide events, and class 10, which is one though it names an interface.
use crate::card::{card, moved, states, table};
use changes::event::{multicast, session_end, stream_down};
use changes::write::register_write;
use compare::record::with_bytes;
use compare::{bytes, front, unchanged};
use rules::{Session, Stream};

// Three interfaces on stream 3, the last record among them; then nobody is left on it.
fn stream(rt: &impl Print) {
    let mut table = card();
    moved(
        rt,
        "stream 3 down",
        stream_down(&mut table, Stream(3)),
        0,
        3,
    );
    states(rt, &table, b"\x03\x01\x03\x03");
    let again = stream_down(&mut table, Stream(3));
    moved(rt, "stream 3 down again", again, 0, 0);
    states(rt, &table, b"\x03\x01\x03\x03");
}

fn session(rt: &impl Print) {
    let mut table = card();
    moved(
        rt,
        "session 9 ends",
        session_end(&mut table, Session(9)),
        0,
        2,
    );
    states(rt, &table, b"\x03\x03\x02\x01");
    let three = session_end(&mut table, Session(3));
    moved(rt, "session 3 ends: stream 3 is another thing", three, 0, 0);
    states(rt, &table, b"\x03\x03\x02\x01");
}

fn all(rt: &impl Print) {
    let mut table = card();
    moved(rt, "multicast", multicast(&mut table), 0, 4);
    states(rt, &table, b"\x03\x03\x03\x03");
}

// Class 10 names 0100h, which is in CONFIG_UNLOCKED.
fn ten(rt: &impl Print) {
    let mut table = table(&[
        *b"\x00\x01\x00\x00\x00\x00\x00\x00\x00\x00",
        *b"\x01\x01\x00\x00\x01\x01\x00\x00\x05\x09",
        *b"\x02\x01\x00\x00\x03\x00\x00\x00\x00\x00",
        *b"\x03\x01\x00\x00\x02\x00\x00\x00\x03\x08",
    ]);
    let answer = register_write(&mut table, 0x100, 10);
    moved(rt, "class 10 naming an unlocked interface", answer, 0, 2);
    states(rt, &table, b"\x00\x03\x03\x03");
}

// Stream 0 and session 0, on interfaces in CONFIG_UNLOCKED and ERROR, which have zeros there.
fn nobody(rt: &impl Print) {
    let before: [u8; 1024] = table(&[
        *b"\x00\x01\x00\x00\x00\x00\x00\x00\x00\x00",
        *b"\x01\x01\x00\x00\x03\x00\x00\x00\x00\x00",
        *b"\x02\x01\x00\x00\x03\x00\x00\x00\x00\x00",
        *b"\x03\x01\x00\x00\x00\x00\x00\x00\x00\x00",
    ]);
    let mut table = before;
    let stream = stream_down(&mut table, Stream(0));
    moved(rt, "stream 0 down, nobody locked", stream, 0, 0);
    let session = session_end(&mut table, Session(0));
    moved(rt, "session 0 ends, nobody locked", session, 0, 0);
    moved(rt, "multicast, nobody locked", multicast(&mut table), 0, 0);
    let four = register_write(&mut table, 0x101, 4);
    moved(rt, "class 4 naming an interface in ERROR", four, 0, 0);
    unchanged(rt, "  the table", &table, &before);
}

// But stream 0 is a real number.
fn zero(rt: &impl Print) {
    let mut table: [u8; 256] = table(&[*b"\x00\x01\x00\x00\x02\x00\x00\x00\x00\x00"]);
    let answer = stream_down(&mut table, Stream(0));
    moved(rt, "stream 0 down, one on it", answer, 0, 1);
}

// Flags, stream, session, offset and nonce are cleared; identity, the words and the information stay.
fn fields(rt: &impl Print) {
    let mut table = with_bytes(
        table::<256>(&[*b"\x00\x01\x00\x00\x01\x01\x05\x00\x03\x09"]),
        &[
            (14, 7),
            (25, 0xf0),
            (40, 0xaa),
            (71, 0xbb),
            (200, 1),
            (204, 0xcc),
        ],
    );
    let answer = stream_down(&mut table, Stream(3));
    moved(rt, "a locked interface", answer, 0, 1);
    let cleared = with_bytes([0; 72], &[(1, 1), (4, 3), (14, 7)]);
    front(rt, "  its first 72 bytes", &table, &cleared);
    let came = [table[200], table[204]];
    bytes(rt, "  its information: length and byte", &came, b"\x01\xcc");
}

pub(crate) fn cases(rt: &impl Print) {
    stream(rt);
    session(rt);
    all(rt);
    ten(rt);
    nobody(rt);
    zero(rt);
    fields(rt);
}
