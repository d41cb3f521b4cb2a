// Text, printed.
ghost use Rattle.std.specs.Prelude.{◌≡◌, length};

// Text as it stands, on standard output; how many bytes. Where it cannot be printed, the run goes on, here and in all that is shown.
pub fn say<R: Print>(rt: &R, text: &[u8]) -> usize
    ensures { result ≡ length text.now }
{
    let _ = rt.write_all(text);
    text.len()
}
