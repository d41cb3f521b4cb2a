// The collector of a report's portions.
ghost use Rattle.std.specs.Prelude.{◌≡◌, false, length, take, if◌then◌else◌};
ghost use Rattle.rules.specs.Collector.{fresh, next_offset, held_bytes, finished, portion_number, portion_verdict, is_taken, collected};
ghost use Rattle.collector.specs.Kept.{kept};

use collector::{Collector, Whole};
use rules::Numbered;

// A reply's number, and the collector afterwards: the C interface gives the two in one struct.
#[repr(C)]
#[derive(Clone, Copy)]
pub struct TdispTaken {
    pub number: u32,
    pub collector: Collector,
}

// A collector that has nothing yet, for the interface with this FUNCTION_ID.
#[unsafe(no_mangle)]
pub extern "C" fn tdisp_collector_new(function_id: u32) -> Collector
    ensures { kept result ≡ fresh function_id }
{
    Collector::new(function_id)
}

// The OFFSET to ask for next.
#[unsafe(no_mangle)]
pub extern "C" fn tdisp_collector_next(c: Collector) -> u32
    ensures { result ≡ next_offset (kept c) }
{
    c.next_offset()
}

// Takes a reply, or refuses it and hands back what it was given.
#[unsafe(no_mangle)]
pub extern "C" fn tdisp_collector_take(c: Collector, reply: &[u8]) -> TdispTaken
    ensures number { result.number ≡ portion_number (portion_verdict (kept c) reply.now) }
    ensures collected { kept result.collector ≡ collected (kept c) reply.now }
    ensures refused { is_taken (portion_verdict (kept c) reply.now) ≡ false → result.collector ≡ c }
{
    let taken = c.take(reply);
    TdispTaken {
        number: taken.verdict.number(),
        collector: taken.collector,
    }
}

// Whether all of the report is there: 1 or 0.
#[unsafe(no_mangle)]
pub extern "C" fn tdisp_collector_finished(c: Collector) -> u32
    ensures { result ≡ (if finished (kept c) then 1 else 0) }
{
    c.finished().into()
}

// What is held.
#[unsafe(no_mangle)]
pub extern "C" fn tdisp_collector_bytes(c: Collector) -> Whole
    ensures counted { result.length ≡ length (held_bytes (kept c)) }
    ensures front { take result.length result.bytes ≡ held_bytes (kept c) }
    ensures all { result.bytes ≡ c.bytes }
{
    c.hand_back()
}
