// Messages as the programs make them: version 1.0, a type, and the interface that they are for.
ghost use Rattle.std.specs.Prelude.{◌≡◌, ◌≤◌};
ghost use Rattle.compare.specs.Requests.{message, report_request};

use rules::request::{
    GET_DEVICE_INTERFACE_REPORT, INTERFACE_ID, REPORT_LENGTH, REPORT_OFFSET, VERSION,
};
use wire::number::LowFirst;

// A header and zeros behind it, N bytes in all.
#[tactic(auto, using(crate::proofs::Messages::is_message))]
pub fn message<const N: usize>(kind: u8, function_id: u32) -> [u8; N]
    requires { 16 ≤ N }
    ensures { result ≡ message N kind function_id }
{
    let mut bytes = [0u8; N];
    bytes[0] = VERSION;
    bytes[1] = kind;
    function_id.write(&mut bytes, INTERFACE_ID);
    bytes
}

// GET_DEVICE_INTERFACE_REPORT: at most LENGTH bytes from an OFFSET on.
#[tactic(auto, using(crate::proofs::Messages::is_report_request))]
pub fn report_request(function_id: u32, offset: u16, length: u16) -> [u8; 20]
    ensures { result ≡ report_request function_id offset length }
{
    let mut bytes = message(GET_DEVICE_INTERFACE_REPORT, function_id);
    offset.write(&mut bytes, REPORT_OFFSET);
    length.write(&mut bytes, REPORT_LENGTH);
    bytes
}
