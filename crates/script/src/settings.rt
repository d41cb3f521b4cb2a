// What the calls to come are given beside the request and the table.
ghost use Rattle.std.specs.Prelude.{◌≡◌};
ghost use Rattle.script.specs.Settings.{at_start, set_by, zeros, front, given};

use rules::Session;
use wire::copy::copy_over;

// The longest request and the longest reply buffer.
pub const MOST_MESSAGE: usize = 512;

// The most nonce bytes and stream map bytes; 32 is what a call wants.
pub const MOST_INPUT: usize = 64;

// Bytes that are set, so many at the front: there is no heap for a Vec.
#[derive(Clone, Copy)]
pub struct Input {
    pub bytes: [u8; MOST_INPUT],
    pub count: usize,
}

impl Input {
    // Zeros, so many.
    fn zeros(count: usize) -> Input
        ensures { result ≡ zeros count }
    {
        Input {
            bytes: [0; MOST_INPUT],
            count,
        }
    }

    // The front of a line's bytes.
    #[tactic(auto, using(rules::proofs::Parts::over_all))]
    fn front(bytes: &[u8; MOST_MESSAGE], count: usize) -> Input
        ensures { result ≡ front bytes.now count }
    {
        let mut kept = [0; MOST_INPUT];
        copy_over(&mut kept, 0, &bytes[..MOST_INPUT]);
        Input { bytes: kept, count }
    }

    // The bytes that are set.
    pub fn given(&self) -> &[u8]
        ensures { result.now ≡ given self.now }
    {
        &self.bytes[..self.count.min(MOST_INPUT)]
    }
}

// The nonce bytes and the ready mark, the stream map, the session, the reply buffer's length.
#[derive(Clone, Copy)]
pub struct Settings {
    pub nonce: Input,
    pub ready: bool,
    pub streams: Input,
    pub session: Session,
    pub reply_bytes: usize,
}

// What a setting line sets: the bytes stand beside it, and their number in it, as in a call.
#[derive(Clone, Copy)]
pub enum Setting {
    Nonce(usize),
    Ready(bool),
    Streams(usize),
    Session(u8),
    ReplyLength(usize),
}

// At the start: 32 zero bytes that are not ready, no secure stream, session 0, a reply buffer of 256 bytes.
pub fn start() -> Settings
    ensures { result ≡ at_start }
{
    Settings {
        nonce: Input::zeros(32),
        ready: false,
        streams: Input::zeros(32),
        session: Session(0),
        reply_bytes: 256,
    }
}

// The settings with one of them set.
pub fn set(setting: Setting, bytes: &[u8; 512], old: Settings) -> Settings
    ensures { result ≡ set_by setting bytes.now old }
{
    match setting {
        Setting::Nonce(n) => Settings {
            nonce: Input::front(bytes, n),
            ..old
        },
        Setting::Ready(ready) => Settings { ready, ..old },
        Setting::Streams(n) => Settings {
            streams: Input::front(bytes, n),
            ..old
        },
        Setting::Session(n) => Settings {
            session: Session(n),
            ..old
        },
        Setting::ReplyLength(n) => Settings {
            reply_bytes: n,
            ..old
        },
    }
}
