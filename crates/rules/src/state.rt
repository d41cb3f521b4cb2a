// An interface's states: 01, "The table". Numbers and no enum: a table's byte is any of 256, `legal` and `clear` take any, and `r[STATE] == RUN` is plainer than
// a conversion that can fail.
pub const CONFIG_UNLOCKED: u8 = 0;

pub const CONFIG_LOCKED: u8 = 1;

pub const RUN: u8 = 2;

pub const ERROR: u8 = 3;
