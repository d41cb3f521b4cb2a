// Totals: different from before, over 200; portions of 0; a collector that is finished, and one that no reply led to.
use crate::by_hand::{holds, said};
use collector::Collector;
use compare::case;
use report::read::read_report;
use rules::Numbered;

fn new() -> Collector {
    Collector::new(0x0100)
}

// "Before" is the total of the first reply taken.
fn different(rt: &impl Print) {
    let c = said(rt, "a first 0/200", new(), 0, 200, 0);
    holds(rt, c, 0, 0);
    let d = said(rt, "then 0/150", c, 0, 150, 33);
    holds(rt, d, 0, 0);
    said(rt, "then 128/73, over 200 too", c, 128, 73, 33);
    let half = said(rt, "a first 128/72", new(), 128, 72, 0);
    holds(rt, half, 128, 0);
    let twice = said(rt, "128/72 again", half, 128, 72, 33);
    holds(rt, twice, 128, 0);
    let whole = said(rt, "then 72/0", twice, 72, 0, 0);
    holds(rt, whole, 200, 1);
}

// Total over 200. A refused first reply fixes nothing.
fn over(rt: &impl Print) {
    let c = said(rt, "a first 128/73", new(), 128, 73, 34);
    holds(rt, c, 0, 0);
    let d = said(rt, "then 20/0", c, 20, 0, 0);
    holds(rt, d, 20, 1);
    said(rt, "a first 0/65535", new(), 0, 65535, 34);
}

// Finished with nothing; what is finished stays.
fn finished(rt: &impl Print) {
    let c = said(rt, "a first 0/0", new(), 0, 0, 0);
    holds(rt, c, 0, 1);
    let bytes = c.hand_back().bytes;
    let number = read_report(&bytes[..0]).number();
    case(rt, "  the reader of what it holds", u64::from(number), 20);
    holds(rt, said(rt, "then 20/0", c, 20, 0, 33), 0, 1);
    let full = said(rt, "a first 20/0", new(), 20, 0, 0);
    holds(rt, said(rt, "then 0/0", full, 0, 0, 0), 20, 1);
    holds(rt, said(rt, "then 1/0", full, 1, 0, 33), 20, 1);
}

// Sums that would wrap in 16 or 32 bits.
fn made_up(rt: &impl Print) {
    let mut c = new();
    c.held = 1;
    said(rt, "1 byte held, none taken, and 0/65535", c, 0, 65535, 34);
    c.held = 0xffffffff;
    said(rt, "2^32 - 1 bytes held, none taken, and 1/0", c, 1, 0, 34);
    case(
        rt,
        "  bytes handed back",
        u64::from(c.hand_back().length),
        200,
    );
    c.begun = 2;
    c.total = 0;
    said(rt, "with a before of 0", c, 1, 0, 33);
}

pub(crate) fn cases(rt: &impl Print) {
    different(rt);
    over(rt);
    finished(rt);
    made_up(rt);
}
