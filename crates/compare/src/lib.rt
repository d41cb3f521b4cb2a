// One line a case: what it is, what came, what the paper says. What prints a case returns whether the two are the same.
#![tactic(auto)]

pub mod form;
pub mod record;
pub mod request;
pub mod screen;

ghost use Rattle.std.specs.Prelude.{◌≡◌, ◌&&◌, eqb, length, take, drop};
ghost use Rattle.rules.specs.Bytes.{same_bytes};
ghost use Rattle.rules.specs.Call.{answer_number, answer_value};

use form::Hex;
use rules::{Answer, Numbered};
use std::convert::AsSlice;

// What ends the line of a case.
fn mark(same: bool) -> &'static str {
    if same { "" } else { " WRONG" }
}

// A number.
pub fn case(rt: &impl Print, name: impl AsSlice<u8> + Drop, got: u64, want: u64) -> bool
    ensures { result ≡ eqb got want }
{
    let same = got == want;
    let _ = rt.write_all(name.as_slice());
    let _ = println!(rt; ": {got}, the paper says {want}{}", mark(same));
    same
}

// Bytes, on a line of their own above the paper's.
#[tactic(auto, using(crate::proofs::Same::told_same))]
pub fn bytes(rt: &impl Print, name: impl AsSlice<u8> + Drop, got: &[u8], want: &[u8]) -> bool
    ensures { result ≡ same_bytes got.now want.now }
{
    let same = got == want;
    let (came, paper) = (Hex(got), Hex(want));
    let _ = rt.write_all(name.as_slice());
    let _ = println!(rt; "\n  came: {came}\n  paper:{paper}{}", mark(same));
    same
}

// Bytes that stay as they were.
#[tactic(auto, using(crate::proofs::Same::told_same))]
pub fn unchanged(rt: &impl Print, name: impl AsSlice<u8> + Drop, got: &[u8], want: &[u8]) -> bool
    ensures { result ≡ same_bytes got.now want.now }
{
    let same = got == want;
    let said = if same { "unchanged" } else { "changed, WRONG" };
    let _ = rt.write_all(name.as_slice());
    let _ = println!(rt; ": {said}");
    same
}

// The bytes at the front, as many as the paper has.
#[tactic(auto, using(std::proofs::lemmas::List::take_min))]
pub fn front(rt: &impl Print, name: impl AsSlice<u8> + Drop, got: &[u8], want: &[u8]) -> bool
    ensures { result ≡ same_bytes (take (length want.now) got.now) want.now }
{
    let end = want.len().min(got.len());
    bytes(rt, name, &got[..end], want)
}

// The bytes from a place on, which stay as they were.
#[tactic(auto, using(std::proofs::lemmas::List::drop_min))]
pub fn rest(
    rt: &impl Print,
    name: impl AsSlice<u8> + Drop,
    got: &[u8],
    want: &[u8],
    from: usize,
) -> bool
    ensures { result ≡ same_bytes (drop from got.now) (drop from want.now) }
{
    let at = from.min(got.len());
    let beside = from.min(want.len());
    unchanged(rt, name, &got[at..], &want[beside..])
}

// A call's number, and on the next line what it counts: bytes, records.
pub fn counted(
    rt: &impl Print,
    name: impl AsSlice<u8> + Drop,
    answer: Answer,
    what: impl AsSlice<u8> + Drop,
    number: u64,
    count: u64,
) -> bool
    ensures { result ≡ eqb (answer_number answer) number && eqb (answer_value answer) count }
{
    let same = case(rt, name, u64::from(answer.number()), number);
    // as: usize has no From into u64.
    let as_many = case(rt, what, answer.unwrap_or(0) as u64, count);
    same & as_many
}

// A call's number, and its length.
pub fn told(
    rt: &impl Print,
    name: impl AsSlice<u8> + Drop,
    answer: Answer,
    number: u64,
    value: u64,
) -> bool
    ensures { result ≡ eqb (answer_number answer) number && eqb (answer_value answer) value }
{
    counted(rt, name, answer, "  its length", number, value)
}
