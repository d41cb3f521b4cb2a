// A script, replayed: every line is read before the first is run.
use crate::files::{Failure, load, save};
use calls::run::{good, run_line};
use script::settings::start;
use std::rt::{Env, Files};

// No heap, so that the program does not run out of memory: its buffers have the sizes below.
// The longest table that is accepted; what is read of a table file, so that a longer one is refused by its length.
const MOST_TABLE: usize = 16384;

const TABLE_READ: usize = 16385;

// The longest script.
const MOST_SCRIPT: usize = 65536;

// Whether every line is good; the first bad one is named. What stands behind the last line's end is an empty line, which says nothing.
fn all_good<E: Eprint>(errors: &E, script: &[u8]) -> bool {
    for (number, line) in (1..u64::MAX).zip(script.split(|byte| *byte == b'\n')) {
        if !good(errors, line, number) {
            return false;
        }
    }
    true
}

// Every line, in order.
pub(crate) fn run<R: Print>(rt: &R, script: &[u8], table: &mut [u8]) {
    let mut settings = start();
    for line in script.split(|byte| *byte == b'\n') {
        settings = run_line(rt, line, settings, table);
    }
}

// The script that the second argument names, on a table.
fn script<R: Env + Files + Print, E: Eprint>(
    rt: &R,
    errors: &E,
    table: &mut [u8],
) -> Result<(), Failure> {
    let mut bytes = [0u8; MOST_SCRIPT];
    let loaded = load(rt, 2, &mut bytes)?;
    if !loaded.whole {
        return Err(Failure::LongScript);
    }
    let lines = &bytes[..loaded.count];
    if !all_good(errors, lines) {
        return Err(Failure::BadLine);
    }
    run(rt, lines, table);
    Ok(())
}

// The table after the script, in the file that the third argument names.
fn after<R: Env + Files + Print>(rt: &R, table: &[u8]) -> Result<(), Failure> {
    if table.len() > MOST_TABLE {
        return Err(Failure::LongTable);
    }
    save(rt, 3, table)
}

// The script on the table that the first argument names, and the table after it, where that is asked for.
fn replay<R: Env + Files + Print, E: Print + Eprint>(
    rt: &R,
    errors: &E,
    keeps: bool,
) -> Result<(), Failure> {
    let mut bytes = [0u8; TABLE_READ];
    let n = load(rt, 1, &mut bytes)?.count;
    let table = &mut bytes[..n];
    script(rt, errors, table)?;
    if keeps && let Err(failure) = after(rt, table) {
        failure.tell(rt, errors);
    }
    let _ = println!(rt; "end of the script");
    Ok(())
}

// The files that the arguments name: the table, the script and, if there is one, the table after it. What goes wrong is said.
pub(crate) fn files<R: Env + Files + Print, E: Print + Eprint>(rt: &R, errors: &E, keeps: bool) {
    if let Err(failure) = replay(rt, errors, keeps) {
        failure.tell(rt, errors);
    }
}
