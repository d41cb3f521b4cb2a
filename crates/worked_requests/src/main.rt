// Runs the worked lines of document 01 on requests that are not marked (P), and cases beside them, and compares each with what the paper says.
#![tactic(auto)]

mod ask;
mod bind;
mod errors;
mod lock;
mod refusals;
mod requests;

use compare::screen::Screen;

fn main() {
    requests::in_a_row(&Screen);
    requests::last_byte(&Screen);
    bind::in_both_states(&Screen);
    errors::cases(&Screen);
    refusals::cases(&Screen);
}
