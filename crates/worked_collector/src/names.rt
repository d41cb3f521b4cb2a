// The names, and which of two is the first.
use crate::by_hand::{hand, holds, reply, said};
use collector::Collector;
use compare::record::with_bytes;

// A first reply of 20 bytes, 0/0, with one byte another.
fn spoilt(rt: &impl Print, name: &str, at: usize, byte: u8, want: u64) {
    let r = with_bytes(reply(0, 0), &[(at, byte)]);
    let c = Collector::new(0x0100);
    holds(rt, hand(rt, name, c, &r, 20, want), 0, 0);
}

// Not a report reply: under 20 bytes, other version or type.
fn no_report(rt: &impl Print) {
    let c = Collector::new(0x0100);
    let r = reply(0, 0);
    hand(rt, "no bytes", c, &r, 0, 30);
    hand(rt, "19 bytes", c, &r, 19, 30);
    spoilt(rt, "type 7Fh", 1, 0x7f, 30);
    spoilt(rt, "type 05h", 1, 0x05, 30);
    spoilt(rt, "version 11h", 0, 0x11, 30);
}

// Other interface, by 01's equality: bits 31:25 and an unmarked segment are ignored.
fn interfaces(rt: &impl Print) {
    let c = Collector::new(0x0100);
    spoilt(rt, "for 0200h", 5, 2, 31);
    spoilt(rt, "for 0100h with a segment", 7, 1, 31);
    let r = with_bytes(reply(0, 20), &[(2, 0xff), (6, 7), (7, 0xfe)]);
    hand(rt, "reserved bits set, an unmarked segment", c, &r, 20, 0);
    let two = with_bytes(reply(10, 0), &[(5, 2)]);
    hand(rt, "for 0200h, and its length is wrong", c, &two, 31, 31);
    let error = with_bytes(two, &[(1, 0x7f)]);
    hand(rt, "for 0200h, and its type is 7Fh", c, &error, 31, 30);
}

// Length not as the portion says.
fn lengths(rt: &impl Print) {
    let c = Collector::new(0x0100);
    let r = reply(10, 0);
    hand(rt, "portion 10 in 31 bytes", c, &r, 31, 32);
    hand(rt, "portion 10 in 29 bytes", c, &r, 29, 32);
    hand(rt, "portion 10 in 30 bytes", c, &r, 30, 0);
    let begun = said(rt, "a first 0/200", c, 0, 200, 0);
    hand(
        rt,
        "then 10/0, a total of 10, in 31 bytes",
        begun,
        &r,
        31,
        32,
    );
}

pub(crate) fn cases(rt: &impl Print) {
    no_report(rt);
    interfaces(rt);
    lengths(rt);
}
