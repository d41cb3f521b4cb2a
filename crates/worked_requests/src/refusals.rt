// The refusals 1 to 6: reply buffer and table stay as they were, and the length is 0.
use crate::ask::{streams, unlocked};
use compare::record::with_bytes;
use compare::request::message;
use compare::{told, unchanged};
use responder::respond;
use rules::Session;

// How many bytes of a request, of a reply buffer, of nonce bytes and of a stream map.
#[derive(Clone, Copy)]
struct Lengths {
    request: usize,
    reply: usize,
    nonce: usize,
    map: usize,
}

const WHOLE: Lengths = Lengths {
    request: 16,
    reply: 256,
    nonce: 32,
    map: 32,
};

// A call on such a table, with the first bytes of each.
fn refused<const N: usize>(
    rt: &impl Print,
    name: &str,
    before: [u8; N],
    lengths: Lengths,
    want: u64,
) {
    let mut table = before;
    let request = message::<16>(0x81, 0x0100);
    let plain = [238u8; 256];
    let mut reply = plain;
    let nonce = [1u8; 32];
    let map = streams();
    let answer = respond(
        &request[..lengths.request.min(16)],
        &mut reply[..lengths.reply.min(256)],
        &mut table,
        &nonce[..lengths.nonce.min(32)],
        true,
        &map[..lengths.map.min(32)],
        Session(9),
    );
    told(rt, name, answer, want, 0);
    unchanged(rt, "  the reply buffer", &reply, &plain);
    unchanged(rt, "  the table", &table, &before);
}

fn tables(rt: &impl Print) {
    refused(rt, "a table of 255 bytes", [0; 255], WHOLE, 1);
    let marked = with_bytes(unlocked(), &[(11, 1)]);
    refused(rt, "a record whose byte 11 is 1", marked, WHOLE, 2);
    refused(rt, "two records with equal FUNCTION_ID", [0; 512], WHOLE, 3);
}

// An accepted table, and one of the inputs too short.
fn inputs(rt: &impl Print) {
    let table = unlocked();
    let reply = Lengths {
        reply: 255,
        ..WHOLE
    };
    refused(rt, "a reply buffer of 255 bytes", table, reply, 4);
    let request = Lengths {
        request: 15,
        ..WHOLE
    };
    refused(rt, "a request of 15 bytes", table, request, 5);
    let nonce = Lengths { nonce: 31, ..WHOLE };
    refused(rt, "nonce bytes of 31", table, nonce, 6);
    let map = Lengths { map: 31, ..WHOLE };
    refused(rt, "a stream map of 31 bytes", table, map, 6);
}

pub(crate) fn cases(rt: &impl Print) {
    tables(rt);
    inputs(rt);
}
