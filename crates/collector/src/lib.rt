// A collector for reports that come in portions: 02, 2/12.
#![tactic(auto)]

mod reply;

ghost use Rattle.std.specs.Prelude.{◌≡◌, ◌+◌, false, length, take, Ok, Err};
ghost use Rattle.std.specs.Result.{IfOk, IfErr};
ghost use Rattle.rules.specs.Collector.{fresh, next_offset, held_bytes, finished, portion_verdict, is_taken, collected};
ghost use Rattle.collector.specs.Kept.{kept};
ghost use Rattle.collector.specs.Says.{Says};

use crate::reply::Said;
use rules::PortionRefusal;
use rules::report::{MOST_REPORT, PORTION};
use table::identity::same_identity;
use wire::copy::copy_over;

// The bytes of a report so far and how many; of the interface with this FUNCTION_ID; and the total that the first reply taken said. `begun` is 0
// while no reply was taken, and then the total says nothing. Every value of it is legal. It crosses to C as it stands.
#[repr(C)]
#[derive(Clone, Copy)]
pub struct Collector {
    pub function_id: u32,
    pub held: u32,
    pub total: u32,
    pub begun: u32,
    pub bytes: [u8; 200],
}

// What became of a reply, and the collector afterwards: as it was beside a refusal. It goes in and comes back by value (docs/FORMS.md).
#[derive(Clone, Copy)]
pub struct TakenReply {
    pub verdict: Result<(), PortionRefusal>,
    pub collector: Collector,
}

// What is held: that many bytes count. It crosses to C as it stands.
#[repr(C)]
#[derive(Clone, Copy)]
pub struct Whole {
    pub length: u32,
    pub bytes: [u8; 200],
}

impl Collector {
    // One that has nothing yet, for the interface with this FUNCTION_ID.
    pub fn new(function_id: u32) -> Self
        ensures { kept result ≡ fresh function_id }
    {
        Collector {
            function_id,
            held: 0,
            total: 0,
            begun: 0,
            bytes: [0; MOST_REPORT],
        }
    }

    // The OFFSET to ask for next.
    pub fn next_offset(self) -> u32
        ensures { result ≡ next_offset (kept self) }
    {
        self.held
    }

    // Whether all of the report is there.
    pub fn finished(self) -> bool
        ensures { result ≡ finished (kept self) }
    {
        self.begun != 0 && self.held == self.total
    }

    // The bytes so far, and how many: 200 at most, whatever `held` says. The C interface counts in 32 bits.
    pub fn hand_back(self) -> Whole
        ensures counted { result.length ≡ length (held_bytes (kept self)) }
        ensures front { take result.length result.bytes ≡ held_bytes (kept self) }
        ensures all { result.bytes ≡ self.bytes }
    {
        // The borrow checker takes an array into a literal only from a variable.
        let bytes = self.bytes;
        Whole {
            length: self.held.min(MOST_REPORT as u32),
            bytes,
        }
    }

    // The bytes held plus portion plus remainder: a sum that cannot wrap.
    fn total_said(self, said: Said) -> u64
        ensures { result ≡ self.held + said.portion + said.remainder }
    {
        u64::from(self.held) + u64::from(said.portion) + u64::from(said.remainder)
    }

    // What a reply that is taken says of itself, or the first name that applies. Nothing is written.
    #[tactic(auto, using(std::proofs::lemmas::Bool::Decides::nat_tests), unfolding(rules::specs::Collector::portion_verdict))]
    fn judge(self, reply: &[u8]) -> Result<Said, PortionRefusal>
        ensures taken { IfOk result (λ s. Says reply.now s × (portion_verdict (kept self) reply.now ≡ Ok tt)) }
        ensures refused { IfErr result (λ why. portion_verdict (kept self) reply.now ≡ Err why) }
    {
        let Some(said) = Said::read(reply) else {
            return Err(PortionRefusal::NotReport);
        };
        if !same_identity(self.function_id.into(), said.interface) {
            return Err(PortionRefusal::OtherInterface);
        }
        if reply.len() != PORTION + usize::from(said.portion) {
            return Err(PortionRefusal::OtherLength);
        }
        let total = self.total_said(said);
        if self.begun != 0 && total != u64::from(self.total) {
            return Err(PortionRefusal::TotalDifferent);
        }
        if total > MOST_REPORT as u64 {
            return Err(PortionRefusal::TotalOver);
        }
        Ok(said)
    }

    // A reply to what was asked last: judged and, if it is taken, put behind the bytes held. One that is taken fits there, whatever `held` says;
    // a refused one leaves every byte of the collector.
    pub fn take(mut self, reply: &[u8]) -> TakenReply
        ensures verdict { result.verdict ≡ portion_verdict (kept self) reply.now }
        ensures collected { kept result.collector ≡ collected (kept self) reply.now }
        ensures refused { is_taken (portion_verdict (kept self) reply.now) ≡ false → result.collector ≡ self }
    {
        match self.judge(reply) {
            Err(why) => TakenReply {
                verdict: Err(why),
                collector: self,
            },
            Ok(said) => {
                let at = self.held as usize;
                copy_over(&mut self.bytes, at, &reply[PORTION..]);
                self.held += u32::from(said.portion);
                self.total = self.held + u32::from(said.remainder);
                self.begun = 1;
                TakenReply {
                    verdict: Ok(()),
                    collector: self,
                }
            }
        }
    }
}
