// A script, read: places in a text, numbers and bytes, what a line says, and the settings that lines make. Nothing is printed.
#![tactic(auto)]

pub mod digits;
pub mod line;
pub mod settings;
pub mod text;
mod word;
