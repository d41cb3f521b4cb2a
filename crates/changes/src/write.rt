// Register writes.
ghost use Rattle.std.specs.Prelude.{◌≡◌, [], Ok, Some};
ghost use Rattle.rules.specs.Call.{RegisterWrite, changed, written_by, step, Gives};
ghost use Rattle.rules.specs.Change.{write_hits};
ghost use Rattle.rules.specs.Table.{records, find, table_number};

use crate::event::sweep;
use crate::record::change_at;
use classes::class::rule_of;
use rules::{Answer, Event, Identity, Refusal, Rule};
use table::find::find;
use table::judge::judge;

// That the table is accepted is a clause, here and below, for the reason that stands at `responder::serve_at`.
// A write by a rule that names record k: class 10 is a device-wide event.
fn write_by(rule: Rule, who: Identity, k: usize, table: &mut [u8]) -> usize
    requires accepted { table_number table.old ≡ 0 }
    requires found { find who (records table.old) ≡ Some k }
    ensures { Gives (changed (write_hits rule who) table.old) (Ok result) [] table.new }
{
    match rule {
        Rule::DeviceWide => sweep(Event::Multicast, table),
        Rule::Allowed | Rule::MsixRule | Rule::Error => change_at(rule, k, table),
    }
}

// A register write on an accepted table. Number 7 comes before the class is asked.
fn write(table: &mut [u8], who: Identity, rule: Rule) -> Answer
    requires { table_number table.old ≡ 0 }
    ensures { Gives (written_by rule who table.old) result [] table.new }
{
    let k = find(table, who).ok_or(Refusal::Interface)?;
    Ok(write_by(rule, who, k, table))
}

// A register write names an interface, by its FUNCTION_ID, and a class. A refusal writes nothing.
#[tactic(auto, using(rules::proofs::Refusals::judged_accepted, rules::proofs::Refusals::judged_refused), unfolding(rules::specs::Call::register_written))]
pub fn register_write(table: &mut [u8], function_id: u32, class: u8) -> Answer
    ensures { Gives (step (RegisterWrite function_id class) table.old) result [] table.new }
{
    judge(table)?;
    write(table, function_id.into(), rule_of(class))
}
