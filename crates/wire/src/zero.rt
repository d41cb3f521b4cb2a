// Whether bytes are zero. Neither loop has an exit of its own, so that the compiler makes vector code.
ghost use Rattle.std.specs.Prelude.{◌≡◌, ◌+◌, ◌≤◌, ◌<◌, [], eqb, get_or, length};
ghost use Rattle.rules.specs.Bytes.{every, num, zero_at, zeros};

use crate::number::LowFirst;

// Whether words of 8 bytes are zero: eight bytes a test, which docs/SPEED.md counts; the bytes' own loop takes what is left.
#[tactic(auto, using(rules::proofs::Every::every_none, rules::proofs::Every::every_more))]
fn words_zero(words: &[[u8; 8]]) -> bool
    ensures { result ≡ every (length words.now) (λ k. eqb (num (get_or words.now k []) 0 8) 0) }
{
    let mut zero = true;
    for word in words {
        zero &= u64::read(word, 0) == 0;
    }
    zero
}

// Whether bytes are zero, one by one.
#[tactic(auto, using(rules::proofs::Every::every_none, rules::proofs::Every::every_more))]
fn bytes_zero(bytes: &[u8]) -> bool
    ensures { result ≡ every (length bytes.now) (zero_at bytes.now 0) }
{
    let mut zero = true;
    for byte in bytes {
        zero &= *byte == 0;
    }
    zero
}

// Whether the bytes from first to last, both counted, are zero: whole words first, then the bytes that are left.
#[tactic(auto, using(crate::proofs::Zeros::words_and_bytes))]
pub fn zero(s: &[u8], first: usize, last: usize) -> bool
    requires { (first ≤ last + 1) × (last < length s.now) }
    ensures { result ≡ zeros s.now first last }
{
    let end = last + 1;
    let (words, bytes) = s[first..end].as_chunks();
    words_zero(words) & bytes_zero(bytes)
}
