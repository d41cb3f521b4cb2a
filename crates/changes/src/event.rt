// Device-wide events: multicast, stream down, session end.
ghost use Rattle.std.specs.Prelude.{◌≡◌, [], Ok};
ghost use Rattle.rules.specs.Call.{DeviceWide, changed, step, Gives};
ghost use Rattle.rules.specs.Change.{hits};
ghost use Rattle.rules.specs.Table.{table_number};
ghost use Rattle.rules.specs.declared.Event.TheVariants.{Multicast, StreamDown, SessionEnd};

use crate::record::change_at;
use rules::{Answer, Event, RECORD_BYTES, Session, Stream};
use table::judge::judge;

// Every record, lent in turn; how many moved. By its index: of a slice's `chunks_exact_mut` no contract says what the slice ends as. (That the table is accepted
// is a clause for the reason that stands at `responder::serve_at`.)
pub fn sweep(event: Event, table: &mut [u8]) -> usize
    requires { table_number table.old ≡ 0 }
    ensures { Gives (changed (hits event) table.old) (Ok result) [] table.new }
{
    let mut count = 0;
    for k in 0..table.len() / RECORD_BYTES {
        count += change_at(event, k, table);
    }
    count
}

// An event, on any table. A refusal writes nothing.
#[tactic(auto, using(rules::proofs::Refusals::judged_accepted, rules::proofs::Refusals::judged_refused), unfolding(rules::specs::Call::happened))]
pub fn happen(table: &mut [u8], event: Event) -> Answer
    ensures { Gives (step (DeviceWide event) table.old) result [] table.new }
{
    judge(table)?;
    Ok(sweep(event, table))
}

// An event each, of a type of its own, so that a stream's number and a session's cannot be mixed up: `docs/INSPECTION.md` names the three.

// A stream goes down: the interfaces whose default stream it is.
pub fn stream_down(table: &mut [u8], stream: Stream) -> Answer
    ensures { Gives (step (DeviceWide (StreamDown stream)) table.old) result [] table.new }
{
    happen(table, Event::StreamDown(stream))
}

// A session ends: the interfaces that were locked in it.
pub fn session_end(table: &mut [u8], session: Session) -> Answer
    ensures { Gives (step (DeviceWide (SessionEnd session)) table.old) result [] table.new }
{
    happen(table, Event::SessionEnd(session))
}

// A multicast register is written: all interfaces.
pub fn multicast(table: &mut [u8]) -> Answer
    ensures { Gives (step (DeviceWide Multicast) table.old) result [] table.new }
{
    happen(table, Event::Multicast)
}
