//! What the definitions of kept lines amount to.
ghost use Rattle.std.specs.Prelude.{◌≡◌, ◌≤◌, ℕ, List, false, length};
ghost use Rattle.std.specs.List.{AllByRecursion, Contains, IsDistinct, concat};
ghost use Rattle.std.specs.Str.{bytes_eq};
ghost use Rattle.library_seat.specs.Kept.{Kept, IsOneOf, with_lines};

/// No line is lost in silence: unless it is told that one was left out, each line that came is kept. Those that were kept
/// before still are, none is that did not come, each is kept once, and they have no more bytes than they may.
pub fn no_line_is_lost_in_silence()
    ensures kept { (kept : Kept) (lines : List (List ℕ)) → (with_lines kept lines).full ≡ false → AllByRecursion (Contains (with_lines kept lines).lines) lines }
    ensures stay { (kept : Kept) (lines : List (List ℕ)) (line : List ℕ) → Contains kept.lines line → Contains (with_lines kept lines).lines line }
    ensures only { (kept : Kept) (lines : List (List ℕ)) (line : List ℕ) → Contains (with_lines kept lines).lines line → IsOneOf kept.lines lines line }
    ensures once { (kept : Kept) (lines : List (List ℕ)) → IsDistinct bytes_eq kept.lines → IsDistinct bytes_eq (with_lines kept lines).lines }
    ensures within { (kept : Kept) (lines : List (List ℕ)) → length (concat kept.lines) ≤ kept.most → length (concat (with_lines kept lines).lines) ≤ kept.most }
{}
