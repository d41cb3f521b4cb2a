// Runs changes and the firmware question on small tables, and compares each answer and each state with what document 01 says.
#![tactic(auto)]

mod card;
mod device;
mod every_class;
mod firmware;
mod refusals;

use compare::screen::Screen;

fn main() {
    every_class::cases(&Screen);
    device::cases(&Screen);
    firmware::cases(&Screen);
    refusals::cases(&Screen);
}
