// The seven requests in a row, on one table; and the last byte of the fullest report.
use crate::ask::{ask, unlocked};
use crate::lock;
use compare::record::{full_record, with_bytes};
use compare::request::{message, report_request};
use compare::unchanged;

// A request with no payload.
fn plain(rt: &impl Print, name: &str, kind: u8, table: &mut [u8; 256], want: &[u8]) {
    let request = message::<16>(kind, 0x0100);
    ask(rt, name, &request, table, true, want);
}

// GET_DEVICE_INTERFACE_STATE, and the state that it tells.
pub(crate) fn state(rt: &impl Print, name: &str, table: &mut [u8; 256], tells: u8) {
    let want = with_bytes(message::<17>(0x05, 0x0100), &[(16, tells)]);
    plain(rt, name, 0x85, table, &want);
}

// GET_DEVICE_INTERFACE_REPORT: LENGTH is 65,535.
fn report(
    rt: &impl Print,
    name: &str,
    function_id: u32,
    offset: u16,
    table: &mut [u8; 256],
    want: &[u8],
) {
    let request = report_request(function_id, offset, 65535);
    ask(rt, name, &request, table, true, want);
}

// Requests that any state serves.
fn before_the_lock(rt: &impl Print, table: &mut [u8; 256]) {
    plain(
        rt,
        "GET_TDISP_VERSION",
        0x81,
        table,
        b"\x10\x01\x00\x00\x00\x01\x00\x00\x00\x00\x00\x00\x00\x00\x00\x00\x01\x10",
    );
    ask(
        rt,
        "GET_TDISP_CAPABILITIES",
        b"\x10\x82\x00\x00\x00\x01\x00\x00\x00\x00\x00\x00\x00\x00\x00\x00\x00\x00\x00\x00",
        table,
        true,
        b"\x10\x02\x00\x00\x00\x01\x00\x00\x00\x00\x00\x00\x00\x00\x00\x00\x00\x00\x00\x00\xfe\x00\x00\x00\x00\x00\x00\x00\x00\x00\x00\x00\x00\x00\x00\x00\x05\x00\x00\x00\x00\x40\x01\x01",
    );
    state(rt, "GET_DEVICE_INTERFACE_STATE, state 0", table, 0);
}

// The report of no ranges and no information: 20 bytes, INTERFACE_INFO bit 0 from NO_FW_UPDATE.
fn while_locked(rt: &impl Print, table: &mut [u8; 256]) {
    state(rt, "GET_DEVICE_INTERFACE_STATE, state 1", table, 1);
    report(
        rt,
        "GET_DEVICE_INTERFACE_REPORT",
        0x0100,
        0,
        table,
        b"\x10\x04\x00\x00\x00\x01\x00\x00\x00\x00\x00\x00\x00\x00\x00\x00\x14\x00\x00\x00\x01\x00\x00\x00\x00\x00\x00\x00\x00\x00\x00\x00\x00\x00\x00\x00\x00\x00\x00\x00",
    );
}

// With the nonce that the lock replied.
pub(crate) fn start(rt: &impl Print, table: &mut [u8; 256]) {
    ask(
        rt,
        "START_INTERFACE",
        b"\x10\x86\x00\x00\x00\x01\x00\x00\x00\x00\x00\x00\x00\x00\x00\x00\x00\x01\x02\x03\x04\x05\x06\x07\x08\x09\x0a\x0b\x0c\x0d\x0e\x0f\x10\x11\x12\x13\x14\x15\x16\x17\x18\x19\x1a\x1b\x1c\x1d\x1e\x1f",
        table,
        true,
        b"\x10\x06\x00\x00\x00\x01\x00\x00\x00\x00\x00\x00\x00\x00\x00\x00",
    );
}

pub(crate) fn stop(rt: &impl Print, table: &mut [u8; 256]) {
    plain(
        rt,
        "STOP_INTERFACE",
        0x87,
        table,
        b"\x10\x07\x00\x00\x00\x01\x00\x00\x00\x00\x00\x00\x00\x00\x00\x00",
    );
}

fn after_the_lock(rt: &impl Print, table: &mut [u8; 256]) {
    start(rt, table);
    state(rt, "GET_DEVICE_INTERFACE_STATE, state 2", table, 2);
    stop(rt, table);
    state(rt, "GET_DEVICE_INTERFACE_STATE, state 0 again", table, 0);
}

pub(crate) fn in_a_row(rt: &impl Print) {
    let before = unlocked();
    let mut table = before;
    before_the_lock(rt, &mut table);
    unchanged(rt, "the table before the lock", &table, &before);
    lock::whole(rt, &mut table);
    while_locked(rt, &mut table);
    after_the_lock(rt, &mut table);
    unchanged(rt, "the table after the stop", &table, &before);
}

// Total 200: one byte is left at OFFSET 199, and none at 200.
pub(crate) fn last_byte(rt: &impl Print) {
    let before = full_record();
    let mut table = before;
    report(
        rt,
        "total 200, OFFSET 199, LENGTH 65,535",
        0,
        199,
        &mut table,
        b"\x10\x04\x00\x00\x00\x00\x00\x00\x00\x00\x00\x00\x00\x00\x00\x00\x01\x00\x00\x00\x00",
    );
    report(
        rt,
        "error 01h for total 200, OFFSET 200",
        0,
        200,
        &mut table,
        b"\x10\x7f\x00\x00\x00\x00\x00\x00\x00\x00\x00\x00\x00\x00\x00\x00\x01\x00\x00\x00\x00\x00\x00\x00",
    );
    unchanged(rt, "the table after both", &table, &before);
}
