// What is shown of a call and of its answer.
use rules::report::{PORTION_LENGTH, REMAINDER_LENGTH};
use rules::{
    Answer, Event, FirmwareAnswer, Numbered, PortionRefusal, Refusal, ReportFields, ReportRefusal,
};
use show::form::{FunctionId, Hex};
use show::{names, reply, states};
use std::fmt;
use wire::number::LowFirst;

// A call's number, and why it is refused, if it is.
#[derive(Clone, Copy)]
struct Verdict(Option<Refusal>);

impl fmt::Display for Verdict {
    fn fmt<W: fmt::Write>(&self, f: &mut fmt::Formatter<W>) -> fmt::Result {
        match self.0 {
            None => f.write_str("number 0, served"),
            Some(why) => write!(
                f,
                "number {}, refused: {}",
                why.number(),
                names::refusal(why)
            ),
        }
    }
}

// The answer's number, why if it is a refusal, and the length or count.
pub(crate) fn answered<R: Print>(rt: &R, answer: Answer, what: &str) {
    let verdict = Verdict(answer.err());
    let _ = println!(rt; "  {verdict}; {what} {}", answer.unwrap_or(0));
}

// A change's answer, and the states after it.
pub(crate) fn moved<R: Print>(rt: &R, answer: Answer, table: &[u8]) {
    answered(rt, answer, "moved");
    states::show(rt, table);
}

// The firmware question's number, why if it is a refusal, and the answer.
pub(crate) fn asked<R: Print>(rt: &R, answer: FirmwareAnswer) {
    let verdict = Verdict(answer.err());
    let word = if answer.unwrap_or(false) { "yes" } else { "no" };
    let _ = println!(rt; "  {verdict}; answer {word}");
}

// A request's name, length and bytes.
pub(crate) fn request<R: Print>(rt: &R, bytes: &[u8]) {
    let _ = print!(rt; "request ");
    if let Some(kind) = bytes.get(1) {
        let _ = print!(rt; "{}, ", names::request(*kind));
    }
    let _ = println!(rt; "{} bytes:{}", bytes.len(), Hex(bytes));
}

// A register write's interface and class.
pub(crate) fn write<R: Print>(rt: &R, function_id: u32, class: u8) {
    let _ = println!(rt; "register-write {} class {class}", FunctionId(function_id));
}

// A device-wide event.
pub(crate) fn event<R: Print>(rt: &R, event: Event) {
    let _ = match event {
        Event::Multicast => println!(rt; "multicast"),
        Event::StreamDown(stream) => println!(rt; "stream-down {}", stream.0),
        Event::SessionEnd(session) => println!(rt; "session-end {}", session.0),
    };
}

// The firmware question.
pub(crate) fn firmware<R: Print>(rt: &R) {
    let _ = println!(rt; "firmware");
}

// A collect's interface and LENGTH.
pub(crate) fn collect<R: Print>(rt: &R, function_id: u32, length: u16) {
    let _ = println!(rt; "collect {} LENGTH {length}", FunctionId(function_id));
}

// A portion that was taken. One of no bytes moves nothing, and asked again would be the same.
fn portion<R: Print>(rt: &R, buffer: &[u8; 512]) {
    let n = u16::read(buffer, PORTION_LENGTH);
    let _ = println!(rt;
        "portion {n}, remainder {}",
        u16::read(buffer, REMAINDER_LENGTH)
    );
    if n == 0 {
        let _ = println!(rt; "  nothing moved, so no more is asked");
    }
}

// A reply that the collector refused, with its fields.
fn untaken<R: Print>(rt: &R, answer: Answer, why: PortionRefusal, buffer: &[u8; 512]) {
    let _ = println!(rt; "refused by the collector: {}", names::portion(Err(why)));
    answered(rt, answer, "length");
    reply::show(rt, buffer, answer.unwrap_or(0));
}

// What came of a collect's ask: no reply, a portion, or a reply that was refused.
pub(crate) fn ask<R: Print>(
    rt: &R,
    offset: u16,
    answer: Answer,
    verdict: Result<(), PortionRefusal>,
    buffer: &[u8; 512],
) {
    let _ = print!(rt; "  OFFSET {offset}: ");
    match (answer, verdict) {
        (Err(_), _) => {
            let _ = println!(rt; "no reply");
            answered(rt, answer, "length");
        }
        (_, Ok(())) => portion(rt, buffer),
        (_, Err(why)) => untaken(rt, answer, why, buffer),
    }
}

// A report's bytes, and its fields as they were read, or the number of the reader's refusal.
pub(crate) fn whole<R: Print>(rt: &R, s: &[u8], read: Result<ReportFields, ReportRefusal>) {
    let _ = println!(rt; "  report, {} bytes:{}", s.len(), Hex(s));
    match read {
        Ok(fields) => {
            show::report::show(rt, fields, s);
        }
        Err(why) => {
            let _ = println!(rt; "    refused by the reader: number {}", why.number());
        }
    }
}
