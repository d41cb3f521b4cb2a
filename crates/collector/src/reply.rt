// What a reply says of itself.
ghost use Rattle.std.specs.Prelude.{◌≡◌, false, None};
ghost use Rattle.std.specs.Option.{IfSome};
ghost use Rattle.rules.specs.Collector.{is_report_reply};
ghost use Rattle.collector.specs.Says.{Says};

use rules::Identity;
use rules::report::{PORTION, PORTION_LENGTH, REMAINDER_LENGTH};
use rules::request::{DEVICE_INTERFACE_REPORT, INTERFACE_ID, VERSION};
use wire::identity::identity_at;
use wire::number::LowFirst;

// Whose interface's it is, how long its portion is, and how much is left of the report behind it.
#[derive(Clone, Copy)]
pub(crate) struct Said {
    pub(crate) interface: Identity,
    pub(crate) portion: u16,
    pub(crate) remainder: u16,
}

impl Said {
    // Nothing, if it is not of type 04h: 20 bytes or more, version 10h.
    #[tactic(auto, unfolding(rules::specs::Collector::is_report_reply))]
    pub(crate) fn read(reply: &[u8]) -> Option<Said>
        ensures says { IfSome result (Says reply.now) }
        ensures nothing { result ≡ None → is_report_reply reply.now ≡ false }
    {
        if reply.len() < PORTION || reply[0] != VERSION || reply[1] != DEVICE_INTERFACE_REPORT {
            return None;
        }
        Some(Said {
            interface: identity_at(reply, INTERFACE_ID),
            portion: u16::read(reply, PORTION_LENGTH),
            remainder: u16::read(reply, REMAINDER_LENGTH),
        })
    }
}
