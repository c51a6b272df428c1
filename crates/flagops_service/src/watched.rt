//! Documents, with what was last read of each.
ghost use Rattle.std.specs.Prelude.{◌≡◌, length};

use crate::asked::OnBroken;
use source_merge::Sources;
use std::alloc::Global;

/// Documents by their paths, with what was last read of each.
#[derive(Drop)]
pub(crate) struct Watched<'a> {
    pub(crate) alloc: Global,
    pub(crate) sources: Sources,
    pub(crate) paths: &'a [&'a str],
    pub(crate) broken: OnBroken,
    /// What was accepted last of each, and what was refused of it since, where something was.
    pub(crate) accepted: Vec<Vec<u8>>,
    pub(crate) refused: Vec<Option<Vec<u8>>>,
    /// A bit for each that could not be read the last time.
    pub(crate) missing: u32,
    ghost all_accepted: { length accepted.items ≡ length paths.now },
    ghost all_refused: { length refused.items ≡ length paths.now },
}
