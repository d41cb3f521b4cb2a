// The responder, given what a script has set.
ghost use Rattle.rules.specs.Call.{Request, step, Gives};
ghost use Rattle.calls.specs.Made.{lent_by, request_by, Gets};

use responder::respond;
use rules::Answer;
use script::settings::{MOST_MESSAGE, Settings};

// A request's answer, and the buffer with the reply at its front. No heap, so that no call runs out of memory: no Vec.
#[derive(Clone, Copy)]
pub(crate) struct Replied {
    pub answer: Answer,
    pub buffer: [u8; MOST_MESSAGE],
}

// The responder, given the settings: the nonce bytes and the stream map bytes that are set.
fn respond_by(request: &[u8], reply: &mut [u8], table: &mut [u8], s: &Settings) -> Answer
    ensures { Gives (step (Request (lent_by request.now reply.old s.now)) table.old) result reply.new table.new }
{
    respond(
        request,
        reply,
        table,
        s.nonce.given(),
        s.ready,
        s.streams.given(),
        s.session,
    )
}

// The responder, given a blank reply buffer of the length that is set.
pub(crate) fn reply_to(request: &[u8], s: &Settings, table: &mut [u8]) -> Replied
    ensures { Gets (step (request_by request.now s.now) table.old) result.answer result.buffer table.new }
{
    let mut buffer = [0u8; MOST_MESSAGE];
    let room = s.reply_bytes.min(MOST_MESSAGE);
    let answer = respond_by(request, &mut buffer[..room], table, s);
    Replied { answer, buffer }
}
