//! What a person is told beside an answer, in parts: one remark behind another.
ghost use Rattle.std.specs.Prelude.{◌≡◌, ◌||◌, is_some, Some};
ghost use Rattle.flagops_rollouts.specs.Beside.{AreBoth};

use flagops_shell::Remark;
use std::alloc::AllocError;

/// What is told first, and what is told behind it.
pub fn behind(first: Option<Remark>, more: Option<Remark>) -> Option<Remark>
    ensures both { AreBoth first more result }
    ensures told { is_some result ≡ (is_some first || is_some more) }
{
    match first {
        Some(first) => Some(joined(first, more)),
        None => more,
    }
}

/// A remark, and another behind it where there is one. Where memory ran out for one of them, or for both in one, the fixed sentence
/// stands for both.
pub fn joined(first: Remark, more: Option<Remark>) -> Remark
    ensures { AreBoth (Some first) more (Some result) }
{
    match (first, more) {
        (first, None) => first,
        (Remark::Lines(mut lines), Some(Remark::Lines(more))) => {
            match lines.push_str(more.as_str()) {
                Ok(()) => Remark::Lines(lines),
                Err(AllocError) => Remark::Short,
            }
        }
        (Remark::Short, Some(_)) | (_, Some(Remark::Short)) => Remark::Short,
    }
}
