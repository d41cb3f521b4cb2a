// Device-wide events: whom they are for.
ghost use Rattle.std.specs.Prelude.{◌≡◌};
ghost use Rattle.rules.specs.Change.{hits};

use crate::record::Change;
use rules::place::{SESSION, STREAM};
use rules::{Event, RECORD_BYTES, Session, Stream};

#[tactic(auto, unfolding(rules::specs::Change::hits))]
impl Change for Event {
    ghost is_for = { hits };

    fn hits(self, r: &[u8; RECORD_BYTES]) -> bool {
        match self {
            Event::Multicast => true,
            Event::StreamDown(stream) => Stream(r[STREAM]) == stream,
            Event::SessionEnd(session) => Session(r[SESSION]) == session,
        }
    }
}
