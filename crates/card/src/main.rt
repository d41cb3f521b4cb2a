// A card in memory: without arguments an embedded one of three interfaces is shown; with a table file and a script its calls are replayed.
#![tactic(auto)]

mod demo;
mod files;
mod replay;

use std::env::FillError;
use std::rt::Env;

// How many arguments there are, the program's name among them; 5 where there are more. `env::args` would allocate, and refuse one that is no text.
fn arg_count<R: Env>(rt: &R) -> usize {
    (0..5)
        .take_while(|&n| !matches!(rt.arg(n, &mut []), Err(FillError::NotPresent)))
        .count()
}

// The demo, a replay, or how the program is called.
fn main(rt: HostRuntime) {
    let errors = rt.stderr();
    match arg_count(&rt) {
        0 | 1 => demo::show(&rt),
        3 => replay::files(&rt, &errors, false),
        4 => replay::files(&rt, &errors, true),
        _ => {
            let _ = eprintln!(rt; "usage: card [TABLE SCRIPT [TABLE-AFTER]]");
        }
    }
}
