// Files that the arguments name, and what goes wrong with them.
ghost use Rattle.std.specs.Prelude.{◌≤◌, length, IfOk};

use std::env::FillError;
use std::io::{Cursor, Error, Read, Write};
use std::rt::{Env, Files};
use std::str::from_utf8;
use std::{fmt, fs, io};

// The system's numbers of what is wrong with an argument: there is none, it is too long, it is no text.
const INVALID: i32 = 22;

const TOO_LONG: i32 = 36;

const NO_TEXT: i32 = 84;

// The longest name of a file. No heap: its buffer has this size.
const MOST_NAME: usize = 4096;

// What goes wrong: an argument, the file that the argument of this number names, a script, a table.
#[derive(Clone, Copy)]
pub(crate) enum Failure {
    Argument(Error),
    File(usize, Error),
    LongScript,
    // A bad line is named where it is found.
    BadLine,
    LongTable,
}

// The system's reason, without its number in brackets.
#[derive(Clone, Copy)]
struct Reason(Error);

impl fmt::Display for Reason {
    fn fmt<W: fmt::Write>(&self, f: &mut fmt::Formatter<W>) -> fmt::Result {
        // No heap: a buffer of fixed size in place of a String.
        let mut out = Cursor::new([b' '; 256]);
        let _ = write!(out, "{}", self.0);
        let bytes = out.into_inner();
        let text = from_utf8(&bytes).unwrap_or("");
        let reason = text.split_once('(').map_or(text, |(front, _)| front);
        f.write_str(reason.trim_end())
    }
}

impl From<FillError> for Failure {
    fn from(why: FillError) -> Failure {
        Failure::Argument(Error::from_raw_os_error(match why {
            FillError::NotPresent => INVALID,
            FillError::TooLong => TOO_LONG,
        }))
    }
}

impl Failure {
    // On standard error, in a line; a name that is no text by its bytes.
    pub(crate) fn tell<R: Env, E: Print>(self, rt: &R, errors: &E) {
        let _ = match self {
            Failure::Argument(error) => println!(errors; "argument: {}", Reason(error)),
            Failure::File(argument, error) => {
                tell_name(rt, errors, argument);
                println!(errors; ": {}", Reason(error))
            }
            Failure::LongScript => println!(errors; "script: over 65536 bytes"),
            Failure::BadLine => Ok(()),
            Failure::LongTable => println!(errors; "table: over 16384 bytes, not written"),
        };
    }
}

// The name that an argument gives, which need not be text.
fn tell_name<R: Env, E: Print>(rt: &R, errors: &E, argument: usize) {
    let mut name = [0u8; MOST_NAME];
    if let Ok(n) = rt.arg(argument, &mut name) {
        let _ = errors.write_all(&name[..n]);
    }
}

// The name of a file that an argument gives.
fn named<'a, R: Env>(rt: &R, argument: usize, name: &'a mut [u8]) -> Result<&'a str, Failure> {
    let n = rt.arg(argument, name)?;
    from_utf8(&name[..n]).map_err(|_| Failure::File(argument, Error::from_raw_os_error(NO_TEXT)))
}

// Of a file that was read: how many bytes there was room for, and whether that was all of it; both always say something, so no enum.
#[derive(Clone, Copy)]
pub(crate) struct Loaded {
    pub count: usize,
    pub whole: bool,
}

// Reads until the buffer is full, the file ends or a read fails; how many bytes it put at the front of the buffer. No method of std fills a buffer as far
// as a file goes.
fn read_full<F: Read>(file: &mut F, buffer: &mut [u8]) -> usize
    ensures { result ≤ length buffer.new }
{
    let mut done = 0;
    while done < buffer.len() {
        match file.read(&mut buffer[done..]) {
            Ok(0) | Err(_) => break,
            Ok(n) => done += n,
        }
    }
    done
}

// A file's first bytes, as many as there is room for. A read that failed is tried again for one byte more, and then told.
fn read<R: Files>(rt: &R, path: &str, buffer: &mut [u8]) -> io::Result<Loaded>
    ensures { IfOk result (λ loaded. loaded.count ≤ length buffer.new) }
{
    let mut file = fs::open(rt, path)?;
    let count = read_full(&mut file, buffer);
    let whole = file.read(&mut [0u8; 1])? == 0;
    Ok(Loaded { count, whole })
}

// The first bytes of the file that an argument names.
pub(crate) fn load<R: Env + Files>(
    rt: &R,
    argument: usize,
    buffer: &mut [u8],
) -> Result<Loaded, Failure>
    ensures { IfOk result (λ loaded. loaded.count ≤ length buffer.new) }
{
    let mut name = [0u8; MOST_NAME];
    let path = named(rt, argument, &mut name)?;
    read(rt, path, buffer).map_err(|error| Failure::File(argument, error))
}

// Bytes put into the file that an argument names, in place of what it had.
pub(crate) fn save<R: Env + Files + Print>(
    rt: &R,
    argument: usize,
    bytes: &[u8],
) -> Result<(), Failure> {
    let mut name = [0u8; MOST_NAME];
    let path = named(rt, argument, &mut name)?;
    fs::write(rt, path, bytes).map_err(|error| Failure::File(argument, error))?;
    let _ = println!(rt; "table written, {} bytes", bytes.len());
    Ok(())
}
