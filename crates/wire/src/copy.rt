// Parts of bytes, and bytes copied over a place.
ghost use Rattle.std.specs.Prelude.{◌≡◌, ◌+◌, ◌≤◌, length};
ghost use Rattle.rules.specs.Bytes.{over, part};

// So many bytes from a place on, as the type that is wanted says.
#[tactic(auto, using(rules::proofs::Parts::lent_part))]
pub fn part<const N: usize>(s: &[u8], at: usize) -> &[u8; N]
    requires { at + N ≤ length s.now }
    ensures { result.now ≡ part s.now at N }
{
    let end = at + N;
    s[at..end].as_array().unwrap()
}

// Writes all of `new` over what stands from a place on.
#[tactic(auto, using(rules::proofs::Lending::part_back))]
pub fn copy_over(s: &mut [u8], at: usize, new: &[u8])
    requires { at + length new.now ≤ length s.old }
    ensures { s.new ≡ over at new.now s.old }
{
    let end = at + new.len();
    s[at..end].copy_from_slice(new);
}
