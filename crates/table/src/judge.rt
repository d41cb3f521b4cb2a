// What a table alone decides: refusals 1 to 3, the lowest first.
ghost use Rattle.std.specs.Prelude.{◌≡◌, ◌<◌};
ghost use Rattle.rules.specs.Record.{record_ok};
ghost use Rattle.rules.specs.Table.{all, names_not, distinct, length_ok, table_number, judgement_number};
ghost use Rattle.table.specs.Slots.{slot};

use crate::find::find_in;
use crate::identity::identity;
use records::record::record_ok;
use rules::{Identity, MOST_RECORDS, RECORD_BYTES, Refusal};
use wire::record::records;

// Slots of marks: enough that few of 64 interfaces share one.
const SLOTS: usize = 1024;

#[tactic(auto, unfolding(rules::specs::Table::length_ok))]
fn length_ok(n: usize) -> bool
    ensures { result ≡ length_ok n }
{
    (RECORD_BYTES <= n) & (n <= MOST_RECORDS * RECORD_BYTES) & (n % RECORD_BYTES == 0)
}

fn records_ok(rs: &[[u8; RECORD_BYTES]]) -> bool
    ensures { result ≡ all record_ok rs.now }
{
    rs.iter().all(|r| record_ok(r))
}

// Where an interface is marked: records for one interface share a slot.
fn slot_of(who: Identity) -> usize
    ensures slot { result ≡ slot who }
    ensures within { result < 1024 }
{
    usize::from(who.requester.0) % SLOTS
}

// None of these records is for an interface.
#[tactic(auto, using(crate::proofs::Scans::none_all))]
fn none_for(who: Identity, rs: &[[u8; RECORD_BYTES]]) -> bool
    ensures { result ≡ all (names_not who) rs.now }
{
    find_in(rs, who).is_none()
}

// From the last record to the first; the slots of those passed are marked. An interface whose slot is not marked is none of theirs, any other is
// looked up.
fn identities_differ(rs: &[[u8; RECORD_BYTES]]) -> bool
    ensures { result ≡ distinct rs.now }
{
    let mut marks = [false; SLOTS];
    for k in (0..rs.len()).rev() {
        let who = identity(&rs[k]);
        let slot = slot_of(who);
        if marks[slot] && !none_for(who, &rs[k + 1..]) {
            return false;
        }
        marks[slot] = true;
    }
    true
}

// What a table alone decides. It reads the table and changes nothing.
#[tactic(auto, unfolding(rules::specs::Table::table_number))]
pub fn judge(t: &[u8]) -> Result<(), Refusal>
    ensures { judgement_number result ≡ table_number t.now }
{
    let rs = records(t);
    if !length_ok(t.len()) {
        return Err(Refusal::TableLength);
    }
    if !records_ok(rs) {
        return Err(Refusal::TableRecord);
    }
    if !identities_differ(rs) {
        return Err(Refusal::TableIdentities);
    }
    Ok(())
}
