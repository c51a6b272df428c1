//! What is known of every refusal that a command may end with.
ghost use Rattle.std.specs.Prelude.{◌≡◌, true, ℕ, Bool, List, IfOk, string_bytes};
ghost use Rattle.flagops_shell.specs.Report.{IsFileLine};

use std::alloc::{AllocError, Global};

/// A refusal of a family of commands.
pub trait CommandRefusal: Drop {
    // Memory ran out.
    ghost is_want: { Self → Bool };

    // A file could not be read or written.
    ghost is_unread: { Self → Bool };

    // The line that it is written as.
    ghost line_of: { Self → List ℕ };

    /// Whether memory ran out.
    fn is_want(&self) -> bool
        ensures { result ≡ is_want self.now };

    /// The line that the refusal is written as.
    fn line(&self, alloc: Global) -> Result<String, AllocError>
        ensures { IfOk result (λ s. string_bytes s ≡ line_of self.now) };

    // A file that could not be read or written is told by one of two lines.
    ghost unread_lines: { (e : Self) → is_unread e ≡ true → IsFileLine (line_of e) };
}
