// The checks of a request, in document 01's order: version, type, length, interface; state. They write nothing.
#![tactic(auto)]

ghost use Rattle.std.specs.Prelude.{◌≡◌, None, Some, eqb, if◌then◌else◌};
ghost use Rattle.rules.specs.Request.{exact_length, legal_in, verdict};
ghost use Rattle.rules.specs.Table.{records};

use rules::RequestError;
use rules::request::{
    GET_DEVICE_INTERFACE_REPORT, GET_DEVICE_INTERFACE_STATE, GET_TDISP_CAPABILITIES,
    GET_TDISP_VERSION, INTERFACE_ID, LOCK_INTERFACE, START_INTERFACE, STOP_INTERFACE, VERSION,
};
use rules::state::{CONFIG_LOCKED, CONFIG_UNLOCKED, RUN};
use table::find::find;
use wire::identity::identity_at;
use wire::message::Message;

// The request table: the exact length of a request, where its type is listed.
#[tactic(auto, unfolding(rules::specs::Request::exact_length))]
fn exact_length(kind: u8) -> Option<usize>
    ensures { result ≡ (if eqb (exact_length kind) 0 then None else Some (exact_length kind)) }
{
    match kind {
        GET_TDISP_VERSION => Some(16),
        GET_TDISP_CAPABILITIES => Some(20),
        LOCK_INTERFACE => Some(36),
        GET_DEVICE_INTERFACE_REPORT => Some(20),
        GET_DEVICE_INTERFACE_STATE => Some(16),
        START_INTERFACE => Some(48),
        STOP_INTERFACE => Some(16),
        _ => None,
    }
}

// The place of the record to serve, or the error.
#[tactic(auto, unfolding(rules::specs::Request::verdict))]
pub fn check_request(request: &Message, table: &[u8]) -> Result<usize, RequestError>
    ensures { result ≡ verdict request.now (records table.now) }
{
    if request.bytes[0] != VERSION {
        return Err(RequestError::VersionMismatch);
    }
    let kind = request.kind();
    let exact = exact_length(kind).ok_or(RequestError::UnsupportedRequest(kind))?;
    if request.bytes.len() != exact {
        return Err(RequestError::InvalidRequest);
    }
    find(table, identity_at(request.bytes, INTERFACE_ID)).ok_or(RequestError::InvalidInterface)
}

// The request table: the states in which a request is legal. Lock in state 0, report in 1 and 2, start in 1, any other in any state.
#[tactic(auto, unfolding(rules::specs::Request::legal_in))]
pub fn legal(kind: u8, state: u8) -> bool
    ensures { result ≡ legal_in kind state }
{
    match kind {
        LOCK_INTERFACE => state == CONFIG_UNLOCKED,
        GET_DEVICE_INTERFACE_REPORT => state == CONFIG_LOCKED || state == RUN,
        START_INTERFACE => state == CONFIG_LOCKED,
        _ => true,
    }
}
