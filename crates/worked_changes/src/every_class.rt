// All 256 classes against a running interface, with LOCK_MSIX and without: how many records each moves, and the state afterwards.
use crate::card::table;
use changes::write::register_write;
use compare::bytes;
use compare::record::with_bytes;

// What a function gives for each class; the loop is written once, for the paper's columns and the crate's.
fn column<F: Fn(u8) -> u8>(of: F) -> [u8; 256]
    requires { F.IsAlwaysCallable of }
{
    let mut column = [0u8; 256];
    for class in 0..=u8::MAX {
        column[usize::from(class)] = of(class);
    }
    column
}

// The paper's column: allowed are 1, 3, 9 and 11 to 15; 2 is as said; any other class moves the one interface.
fn paper(moves: u8, stays: u8, two: u8) -> [u8; 256] {
    column(|class| match class {
        1 | 3 | 9 | 11..=15 => stays,
        2 => two,
        _ => moves,
    })
}

// A write of the class on requester 0100h in RUN, on a table of its own: the count, which is far below 255 here, and the state.
fn write(flags: u8, class: u8) -> (u8, u8) {
    let running = table::<256>(&[*b"\x00\x01\x00\x00\x02\x00\x00\x00\x03\x09"]);
    let mut table = with_bytes(running, &[(6, flags)]);
    let count = register_write(&mut table, 0x100, class).unwrap_or(0);
    (u8::try_from(count).unwrap_or(255), table[4])
}

// Sixteen classes a line, from 0 on.
fn compare(rt: &impl Print, name: &str, came: [u8; 256], paper: [u8; 256]) {
    for (came, paper) in came.chunks(16).zip(paper.chunks(16)) {
        bytes(rt, name, came, paper);
    }
}

// How many records each class moves, and the state that each leaves.
fn moved(flags: u8) -> [u8; 256] {
    column(|class| write(flags, class).0)
}

fn state(flags: u8) -> [u8; 256] {
    column(|class| write(flags, class).1)
}

// Four columns by name: a loop over them would say each all the same, in a list.
pub(crate) fn cases(rt: &impl Print) {
    compare(
        rt,
        "sixteen classes, without LOCK_MSIX: moved",
        moved(0),
        paper(1, 0, 0),
    );
    compare(
        rt,
        "sixteen classes, without LOCK_MSIX: state",
        state(0),
        paper(3, 2, 2),
    );
    compare(
        rt,
        "sixteen classes, with LOCK_MSIX: moved",
        moved(4),
        paper(1, 0, 1),
    );
    compare(
        rt,
        "sixteen classes, with LOCK_MSIX: state",
        state(4),
        paper(3, 2, 3),
    );
}
