//! Bullets.
ghost use Rattle.std.specs.Prelude.{◌≡◌};
ghost use Rattle.fol_theory.specs.Syntax.{is_name};
ghost use Rattle.proof_state.specs.Marks.{bytes};

/// A bullet: one byte, so many times. Bullets of other lengths are other bullets.
#[derive(Clone, Copy, Debug)]
pub struct Bullet {
    pub byte: u8,
    pub length: u64,
}

impl Bullet {
    /// Whether both have the same bytes.
    #[tactic(auto, using(crate::proofs::Bytes::same_bytes))]
    pub(crate) fn same(self, other: Bullet) -> bool
        ensures { result ≡ is_name (bytes self) (bytes other) }
    {
        self.length == other.length && (self.length == 0 || self.byte == other.byte)
    }
}
