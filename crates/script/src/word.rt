// The word that a line begins with.
ghost use Rattle.std.specs.Prelude.{◌≡◌};
ghost use Rattle.script.specs.Line.{name_of, word_of};

// The word that a line begins with.
#[derive(Clone, Copy)]
pub(crate) enum Word {
    Request,
    Nonce,
    Streams,
    StreamDown,
    SessionEnd,
    Session,
    Ready,
    ReplyLength,
    RegisterWrite,
    Collect,
    Multicast,
    Firmware,
}

impl Word {
    // All of them.
    const ALL: [Word; 12] = [
        Word::Request,
        Word::Nonce,
        Word::Streams,
        Word::StreamDown,
        Word::SessionEnd,
        Word::Session,
        Word::Ready,
        Word::ReplyLength,
        Word::RegisterWrite,
        Word::Collect,
        Word::Multicast,
        Word::Firmware,
    ];

    // How it is written.
    fn name(self) -> &'static [u8]
        ensures { result.now ≡ name_of self }
    {
        match self {
            Word::Request => b"request",
            Word::Nonce => b"nonce",
            Word::Streams => b"streams",
            Word::StreamDown => b"stream-down",
            Word::SessionEnd => b"session-end",
            Word::Session => b"session",
            Word::Ready => b"ready",
            Word::ReplyLength => b"reply-length",
            Word::RegisterWrite => b"register-write",
            Word::Collect => b"collect",
            Word::Multicast => b"multicast",
            Word::Firmware => b"firmware",
        }
    }
}

// The word that these bytes are, if they are one.
pub(crate) fn word_of(word: &[u8]) -> Option<Word>
    ensures { result ≡ word_of word.now }
{
    Word::ALL.iter().copied().find(|w| w.name() == word)
}
