ghost use Rattle.std.specs.Prelude.{◌≡◌, ◌<◌, ℕ, true, false, ⊤};
ghost use Rattle.book_share.specs.Gated.{most_attempts};

use std::marker::Brand;

/// Which attempt it is to let an ask start, from 0. It is for proofs alone, and whoever asks picks it.
pub trait Attempt {
    ghost number: { ℕ };
}

impl Attempt for Brand {
    ghost number = { 0 };
}

/// Says when an ask may start, and is told when it was answered. A gate may wait inside. Its ghost members say what it was
/// asked and told, and each may be left out.
pub trait Gate: Sync {
    // it let the ask of this number start
    ghost started: { Self → ℕ → Type 0 } = { λ _ _. ⊤ };

    // it refused to let the ask start, at this attempt
    ghost refused: { Self → ℕ → ℕ → Type 0 } = { λ _ _ _. ⊤ };

    // it was told that the ask was answered
    ghost told: { Self → ℕ → Type 0 } = { λ _ _. ⊤ };

    /// Whether this ask may start now. Where it may not, it is asked again, at most 1,000,000 times in all.
    fn may_start<A: Attempt>(&self, ask: usize) -> bool
        requires { A.number < most_attempts }
        ensures started { result ≡ true → Self.started self.now ask }
        ensures refused { result ≡ false → Self.refused self.now ask A.number };

    /// The ask was answered. It was let start before.
    fn answered(&self, ask: usize)
        requires { Self.started self.now ask }
        ensures { Self.told self.now ask };
}

/// The gate that lets each ask start at once.
#[derive(Clone, Copy, Debug, PartialEq, Eq)]
pub struct OpenGate;

impl Gate for OpenGate {
    ghost refused = { λ _ _ _. ⊥ };

    fn may_start<A: Attempt>(&self, _ask: usize) -> bool {
        true
    }

    fn answered(&self, _ask: usize) {}
}
