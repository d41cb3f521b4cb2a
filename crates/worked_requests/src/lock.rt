// The whole lock for 0100h: NO_FW_UPDATE and LOCK_MSIX, stream 3, offset -4096.
ghost use Rattle.std.specs.Prelude.{◌≡◌, true};
ghost use Rattle.rules.specs.Call.{answered};
ghost use Rattle.worked_requests.specs.Asked.{given, whole_lock};

use crate::ask::ask;
use compare::{front, rest};

// The locked record: its first 72 bytes, to the nonce's last, and the rest, which is zero.
fn locked(rt: &impl Print, table: &[u8; 256]) {
    front(
        rt,
        "  the record's first 72 bytes",
        table,
        b"\x00\x01\x00\x00\x01\x01\x05\x00\x03\x09\x00\x00\x00\x00\x00\x00\x00\x00\x00\x00\x00\x00\x00\x00\x00\xf0\xff\xff\xff\xff\xff\xff\x00\x00\x00\x00\x00\x00\x00\x00\x00\x01\x02\x03\x04\x05\x06\x07\x08\x09\x0a\x0b\x0c\x0d\x0e\x0f\x10\x11\x12\x13\x14\x15\x16\x17\x18\x19\x1a\x1b\x1c\x1d\x1e\x1f",
    );
    rest(rt, "  the record's other bytes", table, &[0; 256], 72);
}

// Accepted, on the record of 0100h in state 0, whatever its ranges.
pub(crate) fn accepted(rt: &impl Print, name: &str, table: &mut [u8; 256])
    ensures { table.new ≡ (answered (given whole_lock true) table.old).table }
{
    ask(
        rt,
        name,
        b"\x10\x83\x00\x00\x00\x01\x00\x00\x00\x00\x00\x00\x00\x00\x00\x00\x05\x00\x03\x00\x00\xf0\xff\xff\xff\xff\xff\xff\x00\x00\x00\x00\x00\x00\x00\x00",
        table,
        true,
        b"\x10\x03\x00\x00\x00\x01\x00\x00\x00\x00\x00\x00\x00\x00\x00\x00\x00\x01\x02\x03\x04\x05\x06\x07\x08\x09\x0a\x0b\x0c\x0d\x0e\x0f\x10\x11\x12\x13\x14\x15\x16\x17\x18\x19\x1a\x1b\x1c\x1d\x1e\x1f",
    );
}

pub(crate) fn whole(rt: &impl Print, table: &mut [u8; 256])
    ensures { table.new ≡ (answered (given whole_lock true) table.old).table }
{
    accepted(rt, "the whole lock", table);
    locked(rt, table);
}
