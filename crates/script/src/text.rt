// Places in a text: ends of lines and words.
ghost use Rattle.std.specs.Prelude.{◌≡◌, ◌≤◌, Bool, ℕ, eqb, length};
ghost use Rattle.script.specs.Text.{is_space, before, first_word, after_word, without_space, First, trimmed};

// A space, a tab, or the carriage return of a line that ends in two bytes.
pub(crate) fn is_space(c: u8) -> bool
    ensures { result ≡ is_space c }
{
    matches!(c, b' ' | b'\t' | b'\r')
}

// How many bytes stand before the first of which a test holds.
fn count_before<F: Fn(u8) -> bool>(s: &[u8], test: F) -> usize
    requires { F.IsAlwaysCallable test }
    ensures count { (p : ℕ → Bool) → ((c : ℕ) (yes : Bool) → F.post test c yes → yes ≡ p c) → result ≡ before p s.now }
    ensures within { result ≤ length s.now }
{
    s.iter().position(|c| test(*c)).unwrap_or(s.len())
}

// The first place of a byte, from a place on; the end where there is none, up to which its callers cut.
pub fn find(s: &[u8], from: usize, byte: u8) -> usize
    requires { from ≤ length s.now }
    ensures { First (λ c. eqb c byte) s.now from result }
{
    from + count_before(&s[from..], |c| c == byte)
}

// The text from its first byte on that is no space.
pub(crate) fn without_space(s: &[u8]) -> &[u8]
    ensures { result.now ≡ without_space s.now }
{
    let n = count_before(s, |c| !is_space(c));
    &s[n..]
}

// The word that a text begins with, up to the first space, and what follows it.
pub(crate) fn split_word(s: &[u8]) -> (&[u8], &[u8])
    ensures word { result.0.now ≡ first_word s.now }
    ensures rest { result.1.now ≡ after_word s.now }
{
    let n = count_before(s, is_space);
    (&s[..n], without_space(&s[n..]))
}

// The length without the spaces at the end.
pub fn trimmed(s: &[u8]) -> usize
    ensures value { result ≡ trimmed s.now (length s.now) }
    ensures within { result ≤ length s.now }
{
    match s.iter().rposition(|c| !is_space(*c)) {
        Some(n) => n + 1,
        None => 0,
    }
}
