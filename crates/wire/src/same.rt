// Whether bytes are the same.
ghost use Rattle.std.specs.Prelude.{◌≡◌, length};
ghost use Rattle.rules.specs.Bytes.{same_bytes};

// Whether two slices of one length have the same bytes. Every byte is looked at, whatever was found before: `==` stops at the first that differs.
#[tactic(auto, using(rules::proofs::Every::every_none, rules::proofs::Every::every_more), unfolding(rules::specs::Bytes::same_bytes))]
pub fn same_bytes(a: &[u8], b: &[u8]) -> bool
    requires { length a.now ≡ length b.now }
    ensures { result ≡ same_bytes a.now b.now }
{
    let mut same = true;
    for (x, y) in a.iter().zip(b) {
        same &= x == y;
    }
    same
}
