// Replies of type 04h, and a collector that is handed one.
use collector::Collector;
use compare::case;
use rules::Numbered;
use wire::copy::copy_over;
use wire::number::LowFirst;

// One for 0100h: what it says of portion and remainder; bytes of 5Ah behind.
pub(crate) fn reply(portion: u16, remainder: u16) -> [u8; 256] {
    let mut r = [0x5au8; 256];
    copy_over(&mut r, 0, &[0x10, 0x04, 0, 0]);
    0x0100u32.write(&mut r, 4);
    portion.write(&mut r, 16);
    remainder.write(&mut r, 18);
    r
}

// The first n of its bytes, handed to a collector: by which number it is refused, 0 where it is taken. The reply and n apart: tried as one slice,
// and what a call gave leaves its bound open where it is cut.
pub(crate) fn hand(
    rt: &impl Print,
    name: &str,
    c: Collector,
    reply: &[u8; 256],
    n: usize,
    want: u64,
) -> Collector {
    let taken = c.take(&reply[..n.min(256)]);
    case(rt, name, u64::from(taken.verdict.number()), want);
    taken.collector
}

// A reply that says so and is so long.
pub(crate) fn said(
    rt: &impl Print,
    name: &str,
    c: Collector,
    portion: u16,
    remainder: u16,
    want: u64,
) -> Collector {
    let r = reply(portion, remainder);
    hand(rt, name, c, &r, 20 + usize::from(portion), want)
}

// What is held, whether it is finished, and the OFFSET to ask for.
pub(crate) fn holds(rt: &impl Print, c: Collector, held: u64, finished: u64) {
    case(rt, "  bytes held", u64::from(c.hand_back().length), held);
    case(rt, "  the next OFFSET", u64::from(c.next_offset()), held);
    case(rt, "  finished", u64::from(c.finished()), finished);
}
