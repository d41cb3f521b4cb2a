// A line of a script: judged, and run.
ghost use Rattle.std.specs.Prelude.{◌≡◌};
ghost use Rattle.calls.specs.Made.{is_good, settings_after, table_after};
ghost use Rattle.rules.specs.Bytes.{blank};
ghost use Rattle.script.specs.Line.{line_of};

use crate::make::make;
use script::line::{Line, read};
use script::settings::{Settings, set};
use show::names;

// Whether a line is good; a bad one is named by its number.
pub fn good<R: Eprint>(rt: &R, line: &[u8], number: u64) -> bool
    ensures { result ≡ is_good (line_of line.now (blank 512)) }
{
    // No heap, here and below: a line's bytes stand in an array of the longest request's length.
    let mut bytes = [0u8; 512];
    match read(line, &mut bytes) {
        Ok(_) => true,
        Err(why) => {
            let _ = eprintln!(rt;
                "script line {number}: {}; nothing was run",
                names::wrong(why)
            );
            false
        }
    }
}

// A line, run: the settings after it, and the table after it. A bad one does nothing.
pub fn run_line<R: Print>(rt: &R, line: &[u8], s: Settings, table: &mut [u8]) -> Settings
    ensures settings { result ≡ settings_after (line_of line.now (blank 512)) s }
    ensures table { table.new ≡ table_after (line_of line.now (blank 512)) s table.old }
{
    let mut bytes = [0u8; 512];
    match read(line, &mut bytes) {
        Ok(Line::Empty) | Err(_) => s,
        Ok(Line::Set(setting)) => set(setting, &bytes, s),
        Ok(Line::Do(call)) => {
            make(rt, call, &bytes, s, table);
            s
        }
    }
}
