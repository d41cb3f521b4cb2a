// The embedded card: interface 0100h with six ranges and 20 bytes of information, 0101h in RUN on stream 5, and 0102h.
use crate::replay::run;
use show::states;
use wire::copy::copy_over;

// The calls: every kind of request, a start with a wrong nonce among them, a report collected, and a stream that goes down. The flags are
// NO_FW_UPDATE and LOCK_MSIX.
const SCRIPT: &str = "nonce 000102030405060708090a0b0c0d0e0f101112131415161718191a1b1c1d1e1f\n\
    ready 1\n\
    streams 0800000000000000000000000000000000000000000000000000000000000000 # stream 3 is secure\n\
    session 9\n\
    request 10 81 0000 00010000 0000000000000000\n\
    request 10 82 0000 00010000 0000000000000000 00000000\n\
    request 10 83 0000 00010000 0000000000000000 0500 03 00 0000ffffffffffff 0000000000000000 # two flags, stream 3, offset -65536\n\
    request 10 84 0000 00010000 0000000000000000 0000 ffff\n\
    request 10 84 0000 00010000 0000000000000000 8000 ffff\n\
    collect 100 64\n\
    request 10 86 0000 00010000 0000000000000000 0102030405060708090a0b0c0d0e0f101112131415161718191a1b1c1d1e1f20 # a wrong nonce\n\
    request 10 86 0000 00010000 0000000000000000 000102030405060708090a0b0c0d0e0f101112131415161718191a1b1c1d1e1f\n\
    stream-down 3\n\
    request 10 85 0000 00010000 0000000000000000\n\
    request 10 87 0000 00010000 0000000000000000\n";

// Bytes 72 to 223 of the first record: eight ranges, six of them there, the first with the MSI-X table; 20 bytes of information, 20h to 33h.
const FIRST: &[u8; 152] = b"\x10\0\0\0\0\0\0\0\x01\0\0\0\x01\0\0\0\
    \x20\0\0\0\0\0\0\0\x02\0\0\0\0\0\x01\0\
    \x30\0\0\0\0\0\0\0\x03\0\0\0\0\0\x02\0\
    \x40\0\0\0\0\0\0\0\x04\0\0\0\0\0\x03\0\
    \x50\0\0\0\0\0\0\0\x05\0\0\0\0\0\x04\0\
    \x60\0\0\0\0\0\0\0\x06\0\0\0\0\0\x05\0\
    \0\0\0\0\0\0\0\0\0\0\0\0\0\0\0\0\
    \0\0\0\0\0\0\0\0\0\0\0\0\0\0\0\0\
    \x14\0\0\0 !\"#$%&'()*+,-./0123";

// The table: 0100h with MSI-X control 3, six ranges and information; 0101h in RUN, stream 5, session 7; 0102h.
fn card() -> [u8; 768] {
    let mut table = [0u8; 768];
    copy_over(&mut table, 72, FIRST);
    table[1] = 1;
    table[10] = 6;
    table[14] = 3;
    table[256] = 1;
    table[257] = 1;
    table[260] = 2;
    table[264] = 5;
    table[265] = 7;
    table[512] = 2;
    table[513] = 1;
    table
}

// The card before the first call, every kind of request, a report collected, and a stream that goes down.
pub(crate) fn show<R: Print>(rt: &R) {
    let mut table = card();
    let _ = println!(rt; "the card");
    states::show(rt, &table);
    run(rt, SCRIPT.as_bytes(), &mut table);
}
