// Requests, changes and the firmware question.
ghost use Rattle.std.specs.Prelude.{◌≡◌, not, [], ◌≤◌, eqb};
ghost use Rattle.rules.specs.Call.{answer_number, answer_value, Request, RegisterWrite, DeviceWide, FirmwareQuestion, step};
ghost use Rattle.rules.specs.Request.{lent};
ghost use Rattle.rules.specs.declared.Event.TheVariants.{Multicast, StreamDown, SessionEnd};
ghost use Rattle.tdisp.specs.Shown.{Shows};

use changes::event::{multicast, session_end, stream_down};
use changes::firmware::firmware_question;
use changes::write::register_write;
use responder::respond;
use rules::{Answer, Numbered, Session, Stream};

// A request's number and the reply's length. This and the next two are one for each name that c/tdisp.h has for the value.
#[repr(C)]
#[derive(Clone, Copy)]
pub struct TdispAnswer {
    pub number: u32,
    pub length: u32,
}

// A change's number and how many records moved.
#[repr(C)]
#[derive(Clone, Copy)]
pub struct TdispMoved {
    pub number: u32,
    pub count: u32,
}

// The firmware question's number, and 1 for yes.
#[repr(C)]
#[derive(Clone, Copy)]
pub struct TdispYes {
    pub number: u32,
    pub yes: u32,
}

// Answers a request.
#[tactic(auto, using(rules::proofs::Values::reply_small))]
#[unsafe(no_mangle)]
pub extern "C" fn tdisp_respond(
    request: &[u8],
    reply: &mut [u8],
    table: &mut [u8],
    nonce: &[u8],
    ready: u8,
    streams: &[u8],
    session: u8,
) -> TdispAnswer
    ensures { Shows (step (Request (lent request.now reply.old nonce.now (not (eqb ready 0)) streams.now (record { 0 = session }))) table.old) result.number result.length reply.new table.new }
{
    let answer = respond(
        request,
        reply,
        table,
        nonce,
        ready != 0,
        streams,
        Session(session),
    );
    // The C interface counts in 32 bits, and a reply's length fits: `reply_small`. So below for a count.
    TdispAnswer {
        number: answer.number(),
        length: answer.unwrap_or(0) as u32,
    }
}

// A register of this class was written, of the interface with this FUNCTION_ID.
#[tactic(auto, using(rules::proofs::Values::written_small))]
#[unsafe(no_mangle)]
pub extern "C" fn tdisp_register_write(table: &mut [u8], function_id: u32, class: u8) -> TdispMoved
    ensures { Shows (step (RegisterWrite function_id class) table.old) result.number result.count [] table.new }
{
    moved(register_write(table, function_id, class))
}

// A stream went down.
#[tactic(auto, using(rules::proofs::Values::happened_small))]
#[unsafe(no_mangle)]
pub extern "C" fn tdisp_stream_down(table: &mut [u8], stream: u8) -> TdispMoved
    ensures { Shows (step (DeviceWide (StreamDown (record { 0 = stream }))) table.old) result.number result.count [] table.new }
{
    moved(stream_down(table, Stream(stream)))
}

// A session ended.
#[tactic(auto, using(rules::proofs::Values::happened_small))]
#[unsafe(no_mangle)]
pub extern "C" fn tdisp_session_end(table: &mut [u8], session: u8) -> TdispMoved
    ensures { Shows (step (DeviceWide (SessionEnd (record { 0 = session }))) table.old) result.number result.count [] table.new }
{
    moved(session_end(table, Session(session)))
}

// A multicast register was written.
#[tactic(auto, using(rules::proofs::Values::happened_small))]
#[unsafe(no_mangle)]
pub extern "C" fn tdisp_multicast(table: &mut [u8]) -> TdispMoved
    ensures { Shows (step (DeviceWide Multicast) table.old) result.number result.count [] table.new }
{
    moved(multicast(table))
}

// What a change gives, as C has it.
fn moved(answer: Answer) -> TdispMoved
    requires { answer_value answer ≤ 256 }
    ensures number { result.number ≡ answer_number answer }
    ensures count { result.count ≡ answer_value answer }
{
    TdispMoved {
        number: answer.number(),
        count: answer.unwrap_or(0) as u32,
    }
}

// The firmware question.
#[unsafe(no_mangle)]
pub extern "C" fn tdisp_firmware(table: &[u8]) -> TdispYes
    ensures number { result.number ≡ (step FirmwareQuestion table.now).number }
    ensures yes { result.yes ≡ (step FirmwareQuestion table.now).value }
{
    let answer = firmware_question(table);
    TdispYes {
        number: answer.number(),
        yes: answer.unwrap_or(false).into(),
    }
}
