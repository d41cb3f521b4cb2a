// Hands a collector replies made by hand, and a record's report in portions, and compares what comes with what 02's 2/12 says.
#![tactic(auto)]

mod by_hand;
mod cuts;
mod names;
mod totals;

use compare::screen::Screen;

fn main() {
    names::cases(&Screen);
    totals::cases(&Screen);
    cuts::cases(&Screen);
}
