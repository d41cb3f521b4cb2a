// Tables in the memory of this program, and what a change gives. A record's first ten bytes are written out: FUNCTION_ID, state, nonce
// held, flags, default stream, session; the rest of it is zero: offset 0, no ranges, no information.
use compare::{bytes, counted};
use rules::Answer;
use wire::copy::copy_over;

// Interfaces with these first ten bytes, in a table of N bytes, one record after the other.
pub(crate) fn table<const N: usize>(heads: &[[u8; 10]]) -> [u8; N] {
    let mut table = [0u8; N];
    let (records, _) = table.as_chunks_mut::<256>();
    for (record, head) in records.iter_mut().zip(heads) {
        copy_over(record, 0, head);
    }
    table
}

// 0100h in RUN and 0101h in CONFIG_LOCKED, 0102h in RUN and 0103h in CONFIG_LOCKED; streams 3, 5, 3, 3; sessions 9, 9, 7, 8.
pub(crate) fn card() -> [u8; 1024] {
    table(&[
        *b"\x00\x01\x00\x00\x02\x00\x00\x00\x03\x09",
        *b"\x01\x01\x00\x00\x01\x01\x00\x00\x05\x09",
        *b"\x02\x01\x00\x00\x02\x00\x00\x00\x03\x07",
        *b"\x03\x01\x00\x00\x01\x01\x00\x00\x03\x08",
    ])
}

// A change's number and count.
pub(crate) fn moved(rt: &impl Print, name: &str, answer: Answer, number: u64, count: u64) {
    counted(rt, name, answer, "  records moved", number, count);
}

// The states of the four interfaces.
pub(crate) fn states(rt: &impl Print, table: &[u8; 1024], want: &[u8; 4]) {
    let came = [table[4], table[260], table[516], table[772]];
    bytes(rt, "  their states", &came, want);
}
