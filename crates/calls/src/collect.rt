// A report, collected: asked for in portions by the collector of 02's 2/12, each ask shown, and read where all of it came.
ghost use Rattle.std.specs.Prelude.{◌≡◌, ◌≤◌};
ghost use Rattle.rules.specs.Collector.{fresh};
ghost use Rattle.rules.specs.Report.{most_report};
ghost use Rattle.collector.specs.Kept.{kept};
ghost use Rattle.calls.specs.Made.{asked_once, Asks};

use crate::given::reply_to;
use crate::told;
use collector::Collector;
use compare::request::report_request;
use report::read::read_report;
use script::settings::Settings;
use show::states;

// One ask, at the OFFSET that the collector names; the collector afterwards. There is no reply beside a refusal, whose length is 0.
fn ask<R: Print>(rt: &R, c: Collector, length: u16, s: &Settings, table: &mut [u8]) -> Collector
    requires { c.held ≤ most_report }
    ensures collector { kept result ≡ asked_once (kept c) length s.now table.old }
    ensures table { table.new ≡ table.old }
{
    // It is 200 at most, so that the cast keeps it: a conversion that can fail would need an answer for what cannot be.
    let offset = c.next_offset() as u16;
    let request = report_request(c.function_id, offset, length);
    let got = reply_to(&request, s, table);
    let reply = &got.buffer[..got.answer.unwrap_or(0).min(got.buffer.len())];
    let taken = c.take(reply);
    told::ask(rt, offset, got.answer, taken.verdict, &got.buffer);
    taken.collector
}

// Asks until the report is all there or an ask moves nothing. Any other makes what is held grow, up to 200, so that there is an end.
fn ask_all<R: Print>(
    rt: &R,
    function_id: u32,
    length: u16,
    s: &Settings,
    table: &mut [u8],
) -> Collector
    ensures collector { Asks length s.now table.old (fresh function_id) (kept result) }
    ensures table { table.new ≡ table.old }
{
    let mut c = Collector::new(function_id);
    loop {
        let before = c.held;
        c = ask(rt, c, length, s, table);
        if c.held <= before {
            return c;
        }
        if c.finished() {
            return c;
        }
    }
}

// What the collector holds, shown as the report reader has it.
fn read_all<R: Print>(rt: &R, c: Collector) {
    let whole = c.hand_back();
    let report = &whole.bytes[..whole.bytes.len().min(whole.length as usize)];
    told::whole(rt, report, read_report(report));
}

// Every ask, the report if all of it came, and the states. The table stays as it was.
pub(crate) fn collect<R: Print>(
    rt: &R,
    function_id: u32,
    length: u16,
    s: &Settings,
    table: &mut [u8],
)
    ensures { table.new ≡ table.old }
{
    told::collect(rt, function_id, length);
    let c = ask_all(rt, function_id, length, s, table);
    if c.finished() {
        read_all(rt, c);
    }
    states::show(rt, table);
}
