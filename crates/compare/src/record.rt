// Bytes written at their places, and the record with the fullest report.
ghost use Rattle.std.specs.Prelude.{◌≡◌};
ghost use Rattle.compare.specs.Full.{full_record, put_each};

// Writes bytes over what stands at their places, one after the other; one whose place is past the end is left out.
#[tactic(auto, using(crate::proofs::Puts::puts))]
pub fn put_each(s: &mut [u8], bytes: &[(usize, u8)])
    ensures { s.new ≡ put_each s.old bytes.now }
{
    for &(at, byte) in bytes {
        if at < s.len() {
            s[at] = byte;
        }
    }
}

// An array with such bytes.
pub fn with_bytes<const N: usize>(mut array: [u8; N], bytes: &[(usize, u8)]) -> [u8; N]
    ensures { result ≡ put_each array.entry bytes.now }
{
    put_each(&mut array, bytes);
    array
}

// A locked record with eight ranges of one page, whose number stands at byte 80 + 16k of the record, and 52 bytes of information.
#[tactic(auto, unfolding(crate::specs::Full::full_record))]
pub fn full_record() -> [u8; 256]
    ensures { result ≡ full_record }
{
    with_bytes(
        [0u8; 256],
        &[
            (4, 1),
            (5, 1),
            (10, 8),
            (80, 1),
            (96, 1),
            (112, 1),
            (128, 1),
            (144, 1),
            (160, 1),
            (176, 1),
            (192, 1),
            (200, 52),
        ],
    )
}
