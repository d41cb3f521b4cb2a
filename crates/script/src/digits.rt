// Numbers and bytes that a text spells.
ghost use Rattle.std.specs.Prelude.{◌≡◌, ◌<◌, ◌≤◌, IfOk, IfSome};
ghost use Rattle.script.specs.Digits.{digit_of, spelled, pair_of, hex_bytes};

use crate::text::is_space;

// What is wrong with a line.
#[derive(Clone, Copy)]
pub enum Wrong {
    LongLine,
    Word,
    Missing,
    Extra,
    DecimalDigit,
    HexDigit,
    Odd,
    Large,
    Long,
}

// What a hex digit is worth; nothing, where a byte is none.
#[tactic(auto, using(crate::proofs::Spelling::digit_is), unfolding(crate::specs::Digits::digit_of))]
fn digit(c: u8) -> Option<usize>
    ensures value { result ≡ digit_of c }
    ensures within { IfSome result (λ d. d < 16) }
{
    char::from(c).to_digit(16).map(|d| d as usize)
}

// A number in digits of a base, at most a most; `wrong` says that a byte is no such digit.
#[tactic(auto, using(crate::proofs::Spelling::spelled_more, crate::proofs::Spelling::spelled_all))]
pub(crate) fn spelled(s: &[u8], base: usize, most: usize, wrong: Wrong) -> Result<usize, Wrong>
    requires base { base ≤ 16 }
    requires most { most ≤ 4294967295 }
    ensures value { result ≡ spelled base most wrong 0 s.now }
    ensures within { IfOk result (λ n. n ≤ most) }
{
    let mut value = 0;
    for c in s {
        let d = digit(*c).filter(|d| *d < base).ok_or(wrong)?;
        value = value * base + d;
        if value > most {
            return Err(Wrong::Large);
        }
    }
    Ok(value)
}

// Two hex digits as a byte; nothing, where one of them is none.
#[tactic(auto, unfolding(crate::specs::Digits::pair_of))]
fn pair(high: u8, low: u8) -> Option<u8>
    ensures { result ≡ pair_of high low }
{
    let high = digit(high)?;
    let low = digit(low)?;
    Some((high * 16 + low) as u8)
}

// Bytes of two hex digits each, spaces between them or not: put at the front of `out`, and their number.
#[tactic(auto, unfolding(crate::specs::Digits::hexed))]
pub(crate) fn hex_bytes(s: &[u8], out: &mut [u8; 512]) -> Result<usize, Wrong>
    ensures number { result ≡ (hex_bytes s.now out.old).number }
    ensures out { out.new ≡ (hex_bytes s.now out.old).out }
{
    let mut n = 0;
    // A step is one byte or two, so it is no iterator's.
    let mut rest = s;
    while let [high, after @ ..] = rest {
        let [low, later @ ..] = after else {
            return Err(Wrong::Odd);
        };
        if is_space(*high) {
            rest = after;
            continue;
        }
        let byte = pair(*high, *low).ok_or(Wrong::HexDigit)?;
        if n >= out.len() {
            return Err(Wrong::Long);
        }
        out[n] = byte;
        n += 1;
        rest = later;
    }
    Ok(n)
}
