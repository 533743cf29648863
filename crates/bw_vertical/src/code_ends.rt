//! The least and the greatest of some codes.

ghost use Rattle.std.specs.Prelude.{Bool, false, ℕ, ◌+◌, ◌<◌, ◌≡◌};
ghost use Rattle.bw_vertical.specs.Descents.{AreCodeEnds};

/// The least and the greatest of some codes.
#[derive(Clone, Copy)]
pub struct CodeEnds {
    /// Whether there is any code.
    pub any: bool,
    pub least: u64,
    pub greatest: u64,
}

impl CodeEnds {
    /// The ends of no codes.
    pub fn none() -> CodeEnds
        ensures { (has : ℕ → Bool) (code : ℕ → ℕ) (n : ℕ) → ((i : ℕ) → i < n → has i ≡ false) → AreCodeEnds has code n result }
    {
        CodeEnds {
            any: false,
            least: 0,
            greatest: 0,
        }
    }

    /// The ends of these codes and of those of the rows after theirs.
    pub fn with(self, more: CodeEnds) -> CodeEnds
        ensures { (has f : ℕ → Bool) (code g : ℕ → ℕ) (n m : ℕ) → ((r : ℕ) → r < m → has (n + r) ≡ f r) → ((r : ℕ) → r < m → code (n + r) ≡ g r)
            → AreCodeEnds has code n self → AreCodeEnds f g m more → AreCodeEnds has code (n + m) result }
    {
        if !self.any {
            return more;
        }
        if !more.any {
            return self;
        }
        CodeEnds {
            any: true,
            least: self.least.min(more.least),
            greatest: self.greatest.max(more.greatest),
        }
    }
}
