//! When a stream goes on.
ghost use Rattle.std.specs.Prelude.{◌≡◌, ◌<◌, ℕ, Bool, ◌||◌, is_none, IfSome};

/// Tells when there is a snapshot with a higher number. Contracts see what asking makes of it, and whether it is closed: it
/// has answered None.
pub trait NextNumber {
    // It has answered None.
    ghost is_closed: { Self → Bool };

    // What it was, the number that it was asked to be above, and what it then is.
    ghost asked: { Self → ℕ → Self → Type 0 };

    /// A number above `after`, once there is one; None once there will be none. It may wait.
    fn next(&mut self, after: u64) -> Option<u64>
        ensures above { IfSome result (λ n. after < n) }
        ensures asked { asked self.old after self.new }
        ensures closed { is_closed self.new ≡ (is_closed self.old || is_none result) };
}
