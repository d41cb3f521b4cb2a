// Refusals 1, 2, 3 and 7: the count is 0 and the table as it was.
use crate::card::{card, moved};
use changes::event::{multicast, session_end, stream_down};
use changes::write::register_write;
use compare::record::with_bytes;
use compare::unchanged;
use rules::{Session, Stream};

// Each call on such a table, with the number that all four give.
fn each<const N: usize>(rt: &impl Print, name: &str, before: [u8; N], number: u64) {
    let mut table = before;
    moved(rt, name, register_write(&mut table, 0x100, 1), number, 0);
    moved(rt, name, stream_down(&mut table, Stream(3)), number, 0);
    moved(rt, name, session_end(&mut table, Session(9)), number, 0);
    moved(rt, name, multicast(&mut table), number, 0);
    unchanged(rt, "  the table", &table, &before);
}

fn tables(rt: &impl Print) {
    each(rt, "255 bytes", [0; 255], 1);
    each(
        rt,
        "state 4 in the last record",
        with_bytes(card(), &[(772, 4)]),
        2,
    );
    each(rt, "0102h twice", with_bytes(card(), &[(768, 2)]), 3);
}

// A register write on such a table.
fn written(
    rt: &impl Print,
    name: &str,
    table: &mut [u8; 1024],
    function_id: u32,
    class: u8,
    number: u64,
    count: u64,
) {
    moved(
        rt,
        name,
        register_write(table, function_id, class),
        number,
        count,
    );
}

// An interface that is no record's: an allowed class, class 10 and class 4.
fn unknown(rt: &impl Print) {
    let before = card();
    let mut table = before;
    written(rt, "class 1 naming 0104h", &mut table, 0x104, 1, 7, 0);
    written(rt, "class 10 naming 0104h", &mut table, 0x104, 10, 7, 0);
    written(
        rt,
        "class 4 naming 0100h of segment 0, marked",
        &mut table,
        0x1000100,
        4,
        7,
        0,
    );
    unchanged(rt, "  the table", &table, &before);
    let unmarked = "class 4 naming 0100h with bits 31:25 and an unmarked segment";
    written(rt, unmarked, &mut table, 0xfe550100, 4, 0, 1);
}

pub(crate) fn cases(rt: &impl Print) {
    tables(rt);
    unknown(rt);
}
