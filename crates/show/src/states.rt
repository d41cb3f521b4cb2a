// Every interface's state.
ghost use Rattle.std.specs.Prelude.{◌≡◌, ◌/◌, length};
ghost use Rattle.rules.specs.Table.{record_bytes};

use crate::form::{FunctionId, State};
use crate::say::say;
use rules::place::{FUNCTION_ID, STATE};
use wire::number::LowFirst;
use wire::record::records;

// The states in the table's order; how many. Bytes past the last whole record are none.
#[tactic(auto, using(rules::proofs::Records::length_records))]
pub fn show<R: Print>(rt: &R, table: &[u8]) -> usize
    ensures { result ≡ length table.now / record_bytes }
{
    let records = records(table);
    say(rt, b"  states:");
    for record in records {
        let id = FunctionId(u32::read(record, FUNCTION_ID));
        let _ = print!(rt; " {id} {};", State(record[STATE]));
    }
    let _ = println!(rt);
    records.len()
}
