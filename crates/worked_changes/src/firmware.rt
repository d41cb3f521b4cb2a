// The firmware question, before and after a stop and an error.
use crate::card::table;
use changes::event::multicast;
use changes::firmware::firmware_question;
use compare::counted;
use compare::request::message;
use responder::respond;
use rules::Session;

// What the question gets of a table.
fn asked(rt: &impl Print, name: &str, table: &[u8], number: u64, yes: u64) {
    let answer = firmware_question(table).map(usize::from);
    counted(rt, name, answer, "  yes is 1", number, yes);
}

fn stopped(rt: &impl Print) {
    let mut table: [u8; 256] = table(&[*b"\x00\x01\x00\x00\x02\x00\x01\x00\x03\x09"]);
    asked(rt, "firmware, in RUN under NO_FW_UPDATE", &table, 0, 0);
    let stop = message::<16>(0x87, 0x0100);
    let zeros = [0u8; 32];
    let _ = respond(
        &stop,
        &mut [0; 256],
        &mut table,
        &zeros,
        false,
        &zeros,
        Session(9),
    );
    asked(rt, "firmware, after the stop", &table, 0, 1);
}

fn failed(rt: &impl Print) {
    let mut table: [u8; 256] = table(&[*b"\x00\x01\x00\x00\x01\x01\x05\x00\x03\x09"]);
    asked(
        rt,
        "firmware, in CONFIG_LOCKED under NO_FW_UPDATE",
        &table,
        0,
        0,
    );
    let _ = multicast(&mut table);
    asked(rt, "firmware, after the error", &table, 0, 1);
}

fn other_flag(rt: &impl Print) {
    let table: [u8; 256] = table(&[*b"\x00\x01\x00\x00\x02\x00\x04\x00\x03\x09"]);
    asked(rt, "firmware, in RUN under LOCK_MSIX alone", &table, 0, 1);
}

pub(crate) fn cases(rt: &impl Print) {
    stopped(rt);
    failed(rt);
    other_flag(rt);
    asked(rt, "firmware, of a table of 255 bytes", &[0; 255], 1, 0);
}
