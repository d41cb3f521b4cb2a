// Every error code. An error's reply is served, and leaves the table as it was.
use crate::ask::{ask, unlocked};
use compare::record::with_bytes;
use compare::request::{message, report_request};
use compare::unchanged;
use wire::number::LowFirst;

// A TDISP_ERROR, its code and its data.
pub(crate) fn error_reply(function_id: u32, code: u32, datum: u32) -> [u8; 24] {
    let mut e = message(0x7f, function_id);
    code.write(&mut e, 16);
    datum.write(&mut e, 20);
    e
}

fn error(
    rt: &impl Print,
    name: &str,
    request: &[u8],
    before: [u8; 256],
    ready: bool,
    want: [u8; 24],
) {
    let mut table = before;
    ask(rt, name, request, &mut table, ready, &want);
    unchanged(rt, "  the table", &table, &before);
}

// To the record in state 0, with nonce bytes that are ready.
fn at_first(rt: &impl Print, name: &str, request: &[u8], want: [u8; 24]) {
    error(rt, name, request, unlocked(), true, want);
}

// Version, type, length and interface, of a request that is a header.
fn header_errors(rt: &impl Print) {
    let other_version = with_bytes(message::<16>(0x81, 0x0100), &[(0, 0x11)]);
    at_first(
        rt,
        "error 41h for version 11h, type 81h",
        &other_version,
        error_reply(0x0100, 0x41, 0),
    );
    let other_type = message::<16>(0x88, 0x0100);
    at_first(
        rt,
        "error 07h with the type, for type 88h",
        &other_type,
        error_reply(0x0100, 0x07, 0x88),
    );
    let longer = message::<17>(0x81, 0x0100);
    at_first(
        rt,
        "error 01h for GET_TDISP_VERSION of 17 bytes",
        &longer,
        error_reply(0x0100, 0x01, 0),
    );
    let nobody = message::<16>(0x81, 0x0200);
    at_first(
        rt,
        "error 101h for requester 0200h, which no record has",
        &nobody,
        error_reply(0x0200, 0x101, 0),
    );
}

// A lock request for 0100h: the low bytes of its flags and of its offset, and its stream.
fn lock(flags: u8, stream: u8, offset: u8) -> [u8; 36] {
    with_bytes(
        message(0x83, 0x0100),
        &[(16, flags), (18, stream), (20, offset)],
    )
}

// The host of source document 000 sets bit 4 with every lock.
fn lock_errors(rt: &impl Print) {
    let invalid = error_reply(0x0100, 0x01, 0);
    at_first(
        rt,
        "error 01h for a lock with flag bit 1",
        &lock(2, 3, 0),
        invalid,
    );
    at_first(
        rt,
        "error 01h for a lock with flag bit 4",
        &lock(16, 3, 0),
        invalid,
    );
    at_first(
        rt,
        "error 01h for a lock with offset 1",
        &lock(0, 3, 1),
        invalid,
    );
    at_first(
        rt,
        "error 104h for a lock with stream 4, which is not secure",
        &lock(0, 4, 0),
        error_reply(0x0100, 0x104, 0),
    );
    error(
        rt,
        "error 103h for a lock with nonce bytes that are not ready",
        &lock(0, 3, 0),
        unlocked(),
        false,
        error_reply(0x0100, 0x103, 0),
    );
}

// A start for 0100h: the first and the last byte of its nonce.
fn start(first: u8, last: u8) -> [u8; 48] {
    with_bytes(message(0x86, 0x0100), &[(16, first), (47, last)])
}

// The second one is for a locked record, whose nonce, 07, thirty zeros and 01, differs in the last byte alone.
fn start_errors(rt: &impl Print) {
    at_first(
        rt,
        "error 04h for a start in state 0",
        &start(0, 0),
        error_reply(0x0100, 0x04, 0),
    );
    error(
        rt,
        "error 102h for a start with another nonce",
        &start(7, 2),
        with_bytes(unlocked(), &[(4, 1), (5, 1), (40, 7), (71, 1)]),
        true,
        error_reply(0x0100, 0x102, 0),
    );
}

// In state 0 and in state 3.
fn report_errors(rt: &impl Print) {
    let request = report_request(0x0100, 0, 16);
    let want = error_reply(0x0100, 0x04, 0);
    at_first(rt, "error 04h for a report in state 0", &request, want);
    let failed = with_bytes(unlocked(), &[(4, 3)]);
    error(
        rt,
        "error 04h for a report in state 3",
        &request,
        failed,
        true,
        want,
    );
}

pub(crate) fn cases(rt: &impl Print) {
    header_errors(rt);
    lock_errors(rt);
    start_errors(rt);
    report_errors(rt);
}
