// A call of a script, made: shown, made on the table, and its answer and the states after it shown.
ghost use Rattle.std.specs.Prelude.{◌≡◌, take};
ghost use Rattle.rules.specs.Call.{RegisterWrite, DeviceWide, step};
ghost use Rattle.calls.specs.Made.{request_by, table_left};

use crate::collect::collect;
use crate::given::reply_to;
use crate::told;
use changes::event::happen;
use changes::firmware::firmware_question;
use changes::write::register_write;
use rules::Event;
use script::line::Call;
use script::settings::Settings;
use show::{reply, states};

// A request: the first n of a line's bytes.
fn ask<R: Print>(rt: &R, bytes: &[u8; 512], n: usize, s: &Settings, table: &mut [u8])
    ensures { table.new ≡ (step (request_by (take n bytes.now) s.now) table.old).table }
{
    let request = &bytes[..n.min(bytes.len())];
    told::request(rt, request);
    let got = reply_to(request, s, table);
    told::answered(rt, got.answer, "length");
    reply::show(rt, &got.buffer, got.answer.unwrap_or(0));
    states::show(rt, table);
}

// A register write.
fn write<R: Print>(rt: &R, function_id: u32, class: u8, table: &mut [u8])
    ensures { table.new ≡ (step (RegisterWrite function_id class) table.old).table }
{
    told::write(rt, function_id, class);
    let answer = register_write(table, function_id, class);
    told::moved(rt, answer, table);
}

// A device-wide event.
fn event<R: Print>(rt: &R, event: Event, table: &mut [u8])
    ensures { table.new ≡ (step (DeviceWide event) table.old).table }
{
    told::event(rt, event);
    let answer = happen(table, event);
    told::moved(rt, answer, table);
}

// The firmware question, which changes nothing.
fn firmware<R: Print>(rt: &R, table: &[u8]) {
    told::firmware(rt);
    told::asked(rt, firmware_question(table));
    states::show(rt, table);
}

// Any call: the table afterwards is what the call leaves. A request's bytes are the first of those beside it.
#[tactic(auto, using(crate::proofs::Making::made_firmware))]
pub fn make<R: Print>(rt: &R, call: Call, bytes: &[u8; 512], s: Settings, table: &mut [u8])
    ensures { table.new ≡ table_left call bytes.now s table.old }
{
    match call {
        Call::Request(n) => ask(rt, bytes, n, &s, table),
        Call::RegisterWrite(function_id, class) => write(rt, function_id, class, table),
        Call::Collect(function_id, length) => collect(rt, function_id, length, &s, table),
        Call::Happen(what) => event(rt, what, table),
        Call::Firmware => firmware(rt, table),
    }
}
