// A request, answered: the call that a requester's message makes on a table.
#![tactic(auto)]

ghost use Rattle.std.specs.Prelude.{◌≡◌, ◌≤◌, ◌<◌, ◌/◌, length, Ok};
ghost use Rattle.rules.specs.Call.{Request, carried_out, step, Gives};
ghost use Rattle.rules.specs.Request.{kind_of, exact_length, verdict, lent};
ghost use Rattle.rules.specs.Table.{records, record_bytes, table_number};
ghost use Rattle.locks.specs.Does.{lent_with};

use checks::check_request;
use handlers::serve::serve;
use replies::put_failure;
use rules::request::{HEADER, LEAST_REPLY};
use rules::{Answer, Inputs, RECORD_BYTES, Refusal, Session};
use table::judge::judge;
use wire::message::Message;

// Lends record k on, to be written; no other byte of the table is lent. That the table is accepted is a clause, and so is the reply's room: tried, a struct
// around the `&mut` proves only where it goes in by value, and then the promise reads `table.entry.bytes.now` and `table.exit.0.now`.
fn serve_at(
    k: usize,
    request: &Message,
    reply: &mut [u8],
    table: &mut [u8],
    inputs: &Inputs,
) -> usize
    requires exact { length request.now ≡ exact_length (kind_of request.now) }
    requires room { 256 ≤ length reply.old }
    requires accepted { table_number table.old ≡ 0 }
    requires in_table { k < length table.old / record_bytes }
    ensures { Gives (carried_out (Ok k) (lent_with request.now reply.old inputs.now) table.old) (Ok result) reply.new table.new }
{
    let (_, rest) = table.split_at_mut(k * RECORD_BYTES);
    serve(request, reply, rest.first_chunk_mut().unwrap(), inputs)
}

// A request that no refusal stops: the checks, which write nothing, and then the reply. Its length.
#[tactic(auto, using(rules::proofs::Checks::right_length, rules::proofs::Checks::within))]
fn carry_out(request: &Message, reply: &mut [u8], table: &mut [u8], inputs: &Inputs) -> usize
    requires room { 256 ≤ length reply.old }
    requires accepted { table_number table.old ≡ 0 }
    ensures { Gives (carried_out (verdict request.now (records table.old)) (lent_with request.now reply.old inputs.now) table.old) (Ok result) reply.new table.new }
{
    match check_request(request, table) {
        Ok(k) => serve_at(k, request, reply, table, inputs),
        Err(why) => put_failure(why, request, reply),
    }
}

// Answers a request, whatever bytes arrive: refusals 1 to 3, 4, 5 and 6, which write nothing; then what the request gets. What it is lent comes one by one, as
// C gives it.
#[tactic(auto, using(rules::proofs::Refusals::judged_accepted, rules::proofs::Refusals::judged_refused), unfolding(rules::specs::Call::answered))]
pub fn respond(
    request: &[u8],
    reply: &mut [u8],
    table: &mut [u8],
    nonce: &[u8],
    ready: bool,
    streams: &[u8],
    session: Session,
) -> Answer
    ensures { Gives (step (Request (lent request.now reply.old nonce.now ready streams.now session)) table.old) result reply.new table.new }
{
    judge(table)?;
    if reply.len() < LEAST_REPLY {
        return Err(Refusal::ReplyShort);
    }
    if request.len() < HEADER {
        return Err(Refusal::RequestShort);
    }
    let inputs = Inputs {
        nonce: nonce.as_array().ok_or(Refusal::Inputs)?,
        ready,
        streams: streams.as_array().ok_or(Refusal::Inputs)?,
        session,
    };
    Ok(carry_out(&Message { bytes: request }, reply, table, &inputs))
}
