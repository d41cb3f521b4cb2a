// The sequence of source document 000's bind: lock, start, then the report in portions. It is asked for before the start as well, and the bytes are
// the same in both states. (The host of 000 cannot lock: it sets flag bit 4, which gets 01h. See docs/DIFFERENCES.md, 13.)
use crate::ask::{ask, unlocked};
use crate::errors::error_reply;
use crate::lock;
use crate::requests::{start, state, stop};
use compare::record::with_bytes;
use compare::request::report_request;
use compare::unchanged;

// Requester 0100h: one range, first page 16, two pages, attributes 0Fh, ID 9; four bytes of information.
fn station() -> [u8; 256] {
    with_bytes(
        unlocked(),
        &[
            (10, 1),
            (72, 16),
            (80, 2),
            (84, 0x0f),
            (86, 9),
            (200, 4),
            (204, 0x6b),
            (205, 0x50),
            (206, 0x61),
            (207, 0x2e),
        ],
    )
}

// A portion: its OFFSET and LENGTH.
fn portion(
    rt: &impl Print,
    name: &str,
    offset: u16,
    length: u16,
    table: &mut [u8; 256],
    want: &[u8],
) {
    let request = report_request(0x0100, offset, length);
    ask(rt, name, &request, table, true, want);
}

// 40 bytes: INTERFACE_INFO bit 0, N = 1; then first page 15, by the lock's offset -4096, L = 4 and the information; and past them 01h.
fn portions(rt: &impl Print, table: &mut [u8; 256]) {
    portion(
        rt,
        "its report from OFFSET 0, LENGTH 16",
        0,
        16,
        table,
        b"\x10\x04\x00\x00\x00\x01\x00\x00\x00\x00\x00\x00\x00\x00\x00\x00\x10\x00\x18\x00\x01\x00\x00\x00\x00\x00\x00\x00\x00\x00\x00\x00\x01\x00\x00\x00",
    );
    portion(
        rt,
        "its report from OFFSET 16, LENGTH 128",
        16,
        128,
        table,
        b"\x10\x04\x00\x00\x00\x01\x00\x00\x00\x00\x00\x00\x00\x00\x00\x00\x18\x00\x00\x00\x0f\x00\x00\x00\x00\x00\x00\x00\x02\x00\x00\x00\x0f\x00\x09\x00\x04\x00\x00\x00\x6b\x50\x61\x2e",
    );
    let past = error_reply(0x0100, 0x01, 0);
    portion(
        rt,
        "its report from OFFSET 40, its total",
        40,
        1,
        table,
        &past,
    );
}

// The state, the portions, and the table as it was.
fn reported(rt: &impl Print, name: &str, tells: u8, table: &mut [u8; 256]) {
    let before = *table;
    state(rt, name, table, tells);
    portions(rt, table);
    unchanged(rt, "the table after its report", table, &before);
}

pub(crate) fn in_both_states(rt: &impl Print) {
    let before = station();
    let mut table = before;
    lock::accepted(
        rt,
        "a lock, without the flag bit 4 that 000's bind sets",
        &mut table,
    );
    reported(rt, "its state is 1", 1, &mut table);
    start(rt, &mut table);
    reported(rt, "its state is 2", 2, &mut table);
    stop(rt, &mut table);
    unchanged(rt, "the table after the stop", &table, &before);
}
