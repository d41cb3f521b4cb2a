// The firmware question: may the card's firmware be updated now?
ghost use Rattle.std.specs.Prelude.{◌≡◌};
ghost use Rattle.rules.specs.Call.{FirmwareQuestion, step, Says};
ghost use Rattle.rules.specs.Change.{firmware_yes};
ghost use Rattle.rules.specs.Table.{records};

use classes::firmware::lets;
use rules::FirmwareAnswer;
use table::judge::judge;
use wire::record::records;

fn all_let(t: &[u8]) -> bool
    ensures { result ≡ firmware_yes (records t.now) }
{
    records(t).iter().all(|r| lets(r))
}

// Yes exactly if no interface in state 1 or 2 holds NO_FW_UPDATE. It reads the table and changes nothing.
#[tactic(auto, using(rules::proofs::Refusals::judged_accepted, rules::proofs::Refusals::judged_refused), unfolding(rules::specs::Call::firmware_asked))]
pub fn firmware_question(table: &[u8]) -> FirmwareAnswer
    ensures { Says (step FirmwareQuestion table.now) result }
{
    judge(table)?;
    Ok(all_let(table))
}
