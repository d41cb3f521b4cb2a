// A line of a script.
ghost use Rattle.std.specs.Prelude.{◌≡◌, ◌≤◌, IfOk};
ghost use Rattle.script.specs.Digits.{hex_bytes};
ghost use Rattle.script.specs.Line.{capped_to, size_of, bytes_of, id_and_size, alone_of, line_by, words_of, line_of};

use crate::digits::{Wrong, hex_bytes, spelled};
use crate::settings::{MOST_INPUT, MOST_MESSAGE, Setting};
use crate::text::{find, split_word, trimmed, without_space};
use crate::word::{Word, word_of};
use rules::{Event, Session, Stream};

// The longest line, without what ends it.
const MOST_LINE: usize = 1024;

// A call of a script; a request's bytes stand beside it, and their number in it: `read` promises of its whole `out` what it holds.
#[derive(Clone, Copy)]
pub enum Call {
    Request(usize),
    RegisterWrite(u32, u8),
    Collect(u32, u16),
    Happen(Event),
    Firmware,
}

// What a line says.
#[derive(Clone, Copy)]
pub enum Line {
    Empty,
    Set(Setting),
    Do(Call),
}

// A number, at most a most; `wrong` says that it is more.
fn capped(n: usize, most: usize, wrong: Wrong) -> Result<usize, Wrong>
    ensures value { result ≡ capped_to most wrong n }
    ensures within { IfOk result (λ m. m ≤ most) }
{
    if n > most { Err(wrong) } else { Ok(n) }
}

// A decimal number that must be there, at most a most.
#[tactic(auto, unfolding(crate::specs::Line::size_of))]
fn size(rest: &[u8], most: usize) -> Result<usize, Wrong>
    ensures value { result ≡ size_of most rest.now }
    ensures within { IfOk result (λ n. n ≤ most) }
{
    if rest.is_empty() {
        return Err(Wrong::Missing);
    }
    let n = spelled(rest, 10, u16::MAX as usize, Wrong::DecimalDigit)?;
    capped(n, most, Wrong::Large)
}

// The bytes that a line gives, at most a most.
fn bytes(rest: &[u8], out: &mut [u8; 512], most: usize) -> Result<usize, Wrong>
    ensures number { result ≡ bytes_of most rest.now out.old }
    ensures out { out.new ≡ (hex_bytes rest.now out.old).out }
    ensures within { IfOk result (λ n. n ≤ most) }
{
    capped(hex_bytes(rest, out)?, most, Wrong::Long)
}

// A FUNCTION_ID, a hex number, and a decimal number after it, at most a most.
#[tactic(auto, unfolding(crate::specs::Line::id_and_size))]
fn id_and_size(rest: &[u8], most: usize) -> Result<(u32, usize), Wrong>
    ensures value { result ≡ id_and_size most rest.now }
    ensures within { IfOk result (λ both. both.1 ≤ most) }
{
    if rest.is_empty() {
        return Err(Wrong::Missing);
    }
    let (id, number) = split_word(rest);
    let id = spelled(id, 16, u32::MAX as usize, Wrong::HexDigit)?;
    Ok((id as u32, size(number, most)?))
}

// A word that stands alone.
fn alone(call: Call, rest: &[u8]) -> Result<Line, Wrong>
    ensures { result ≡ alone_of call rest.now }
{
    if !rest.is_empty() {
        return Err(Wrong::Extra);
    }
    Ok(Line::Do(call))
}

// By its first word and what follows it.
fn by_word(word: Word, rest: &[u8], out: &mut [u8; 512]) -> Result<Line, Wrong>
    ensures line { result ≡ (line_by word rest.now out.old).line }
    ensures out { out.new ≡ (line_by word rest.now out.old).out }
{
    Ok(match word {
        Word::Request => Line::Do(Call::Request(bytes(rest, out, MOST_MESSAGE)?)),
        Word::Nonce => Line::Set(Setting::Nonce(bytes(rest, out, MOST_INPUT)?)),
        Word::Streams => Line::Set(Setting::Streams(bytes(rest, out, MOST_INPUT)?)),
        Word::StreamDown => Line::Do(Call::Happen(Event::StreamDown(Stream(
            size(rest, 255)? as u8,
        )))),
        Word::SessionEnd => Line::Do(Call::Happen(Event::SessionEnd(Session(
            size(rest, 255)? as u8,
        )))),
        Word::Session => Line::Set(Setting::Session(size(rest, 255)? as u8)),
        Word::Ready => Line::Set(Setting::Ready(size(rest, 1)? == 1)),
        Word::ReplyLength => Line::Set(Setting::ReplyLength(size(rest, MOST_MESSAGE)?)),
        Word::RegisterWrite => {
            let (id, class) = id_and_size(rest, 255)?;
            Line::Do(Call::RegisterWrite(id, class as u8))
        }
        Word::Collect => {
            let (id, length) = id_and_size(rest, 65535)?;
            Line::Do(Call::Collect(id, length as u16))
        }
        Word::Multicast => alone(Call::Happen(Event::Multicast), rest)?,
        Word::Firmware => alone(Call::Firmware, rest)?,
    })
}

// The first word of a text, and what follows it.
#[tactic(auto, unfolding(crate::specs::Line::words_of))]
fn words(text: &[u8], out: &mut [u8; 512]) -> Result<Line, Wrong>
    ensures line { result ≡ (words_of text.now out.old).line }
    ensures out { out.new ≡ (words_of text.now out.old).out }
{
    let said = without_space(text);
    if said.is_empty() {
        return Ok(Line::Empty);
    }
    let (word, rest) = split_word(said);
    by_word(word_of(word).ok_or(Wrong::Word)?, rest, out)
}

// A line, read: what it says, or what is wrong first; the bytes that it gives stand at the front of `out`.
#[tactic(auto, unfolding(crate::specs::Line::line_of))]
pub fn read(line: &[u8], out: &mut [u8; 512]) -> Result<Line, Wrong>
    ensures line { result ≡ (line_of line.now out.old).line }
    ensures out { out.new ≡ (line_of line.now out.old).out }
{
    if line.len() > MOST_LINE {
        return Err(Wrong::LongLine);
    }
    let text = &line[..find(line, 0, b'#')];
    words(&text[..trimmed(text)], out)
}
