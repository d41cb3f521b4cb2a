// One request to the responder: with the nonce bytes 00 to 1F, stream 3 secure and session number 9.
ghost use Rattle.std.specs.Prelude.{◌≡◌, ◌∷◌};
ghost use Rattle.rules.specs.Bytes.{blank};
ghost use Rattle.rules.specs.Call.{answered};
ghost use Rattle.worked_requests.specs.Asked.{given};

use compare::record::with_bytes;
use compare::{front, rest, told};
use responder::respond;
use rules::Session;

// The record of requester 0100h, in state 0, with no ranges and no information.
pub(crate) fn unlocked() -> [u8; 256]
    ensures { result ≡ 0 ∷ 1 ∷ blank 254 }
{
    with_bytes([0u8; 256], &[(1, 1)])
}

// The stream map in which stream 3 alone is secure.
pub(crate) fn streams() -> [u8; 32]
    ensures { result ≡ 8 ∷ blank 31 }
{
    with_bytes([0u8; 32], &[(0, 8)])
}

// The reply at the front of the buffer, and the rest of the buffer.
fn replied(rt: &impl Print, reply: &[u8; 256], want: &[u8]) {
    let plain = [238u8; 256];
    front(rt, "  its reply", reply, want);
    rest(rt, "  the rest of the buffer", reply, &plain, want.len());
}

// A served request: number 0, the reply and its length.
pub(crate) fn ask(
    rt: &impl Print,
    name: &str,
    request: &[u8],
    table: &mut [u8; 256],
    ready: bool,
    want: &[u8],
)
    ensures { table.new ≡ (answered (given request.now ready) table.old).table }
{
    let mut reply = [238u8; 256];
    let map = streams();
    let answer = respond(
        request,
        &mut reply,
        table,
        b"\x00\x01\x02\x03\x04\x05\x06\x07\x08\x09\x0a\x0b\x0c\x0d\x0e\x0f\x10\x11\x12\x13\x14\x15\x16\x17\x18\x19\x1a\x1b\x1c\x1d\x1e\x1f",
        ready,
        &map,
        Session(9),
    );
    // as: usize has no From into u64.
    told(rt, name, answer, 0, want.len() as u64);
    replied(rt, &reply, want);
}
