// Runs the worked lines of document 01 on reports that are not marked (P), and cases beside them, and compares each with what the paper says.
#![tactic(auto)]

mod portion;
mod reader;
mod writer;

use compare::screen::Screen;

fn main() {
    reader::sizes(&Screen);
    reader::contents(&Screen);
    writer::cases(&Screen);
    portion::last_byte(&Screen);
}
