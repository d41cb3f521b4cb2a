// Standard output and standard error, by the kit's `io`. Nothing is asked of C but to write, where std's printing asks for errno too; and a print that
// fails is ignored, so that the run goes on.
use std::fmt;
use std::fmt::Write;
use std::io::Result;

// Standard output's number.
pub const STDOUT: i32 = 1;

// Standard error's.
pub const STDERR: i32 = 2;

// The most bytes of a print that wait to be written.
const MOST_HELD: usize = 1024;

// What the programs print on.
#[derive(Clone, Copy)]
pub struct Screen;

impl Write for Screen {
    fn write_str(&mut self, text: &str) -> fmt::Result {
        io::write_all(STDOUT, text.as_bytes());
        Ok(())
    }
}

// The bytes of a print that wait, so many at the front: a short print is one write.
#[derive(Drop)]
struct Held {
    stream: i32,
    bytes: [u8; MOST_HELD],
    count: usize,
}

impl Held {
    // Writes them.
    fn flush(&mut self) {
        io::write_all(self.stream, &self.bytes[..self.count.min(MOST_HELD)]);
        self.count = 0;
    }

    // One more of them.
    fn push(&mut self, byte: u8) {
        if self.count >= MOST_HELD {
            self.flush();
        }
        if self.count < MOST_HELD {
            self.bytes[self.count] = byte;
            self.count += 1;
        }
    }
}

impl Write for Held {
    fn write_str(&mut self, text: &str) -> fmt::Result {
        for byte in text.as_bytes() {
            self.push(*byte);
        }
        Ok(())
    }
}

// A value and what ends it, on a stream.
fn print_on<D: fmt::Display + Drop>(stream: i32, value: D, end: &str) {
    let mut held = Held {
        stream,
        bytes: [0; MOST_HELD],
        count: 0,
    };
    let _ = write!(held, "{value}{end}");
    held.flush();
}

impl Print for Screen {
    fn print<D: fmt::Display + Drop>(&self, value: D) -> Result<()> {
        print_on(STDOUT, value, "");
        Ok(())
    }

    fn println<D: fmt::Display + Drop>(&self, value: D) -> Result<()> {
        print_on(STDOUT, value, "\n");
        Ok(())
    }

    fn write_all(&self, bytes: &[u8]) -> Result<()> {
        io::write_all(STDOUT, bytes);
        Ok(())
    }
}

impl Eprint for Screen {
    fn eprint<D: fmt::Display + Drop>(&self, value: D) -> Result<()> {
        print_on(STDERR, value, "");
        Ok(())
    }

    fn eprintln<D: fmt::Display + Drop>(&self, value: D) -> Result<()> {
        print_on(STDERR, value, "\n");
        Ok(())
    }
}
