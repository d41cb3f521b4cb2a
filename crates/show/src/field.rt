// A field, on a line of its own: its name, its bytes in their order and, where it is a number, the number.
use crate::form::{Hex, LowByteFirst};
use std::ops::Range;

// The bytes of a range, as far as they are there.
pub(crate) fn part(s: &[u8], range: Range<usize>) -> &[u8] {
    let end = range.end.min(s.len());
    &s[range.start.min(end)..end]
}

// A field of bytes.
pub(crate) fn field<R: Print>(rt: &R, title: &str, s: &[u8], range: Range<usize>) {
    let _ = println!(rt; "    {title}:{}", Hex(part(s, range)));
}

// A field that is a number, where all its bytes are there.
pub(crate) fn numeral<R: Print>(rt: &R, title: &str, s: &[u8], range: Range<usize>) {
    if let Some(bytes) = s.get(range) {
        let _ = println!(rt; "    {title}, low byte first:{}", LowByteFirst(bytes));
    }
}
