// The lock flags: 01, "Lock".
ghost use Rattle.std.specs.Prelude.{◌≡◌};
ghost use Rattle.rules.specs.Lock.{contains, supported, stored};

#[derive(Clone, Copy)]
pub struct LockFlags(pub u16);

impl LockFlags {
    pub const NO_FW_UPDATE: LockFlags = LockFlags(1);

    pub const LOCK_MSIX: LockFlags = LockFlags(4);

    // Every flag of the other is set here.
    pub fn contains(self, other: LockFlags) -> bool
        ensures { result ≡ contains self.0 other.0 }
    {
        let have = self.0;
        let want = other.0;
        have & want == want
    }

    // None of bits 1, 3 and 4 is set.
    #[tactic(auto, using(crate::proofs::Bits::supported_mask))]
    pub fn supported(self) -> bool
        ensures { result ≡ supported self.0 }
    {
        let have = self.0;
        have & 26 == 0
    }

    // Bits 0 and 2; all others as zero.
    pub fn stored(self) -> LockFlags
        ensures { result.0 ≡ stored self.0 }
    {
        let have = self.0;
        LockFlags(have % 2 + have / 4 % 2 * 4)
    }
}
