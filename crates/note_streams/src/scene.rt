//! What a recorder holds.
ghost use Rattle.std.specs.Prelude.{◌<◌, ◌^◌};

use book_core::Page;
use flag_defs::Flags;

/// Records what the evaluation of one flag reaches at one moment.
#[derive(Drop)]
pub struct Recorder<'a> {
    pub(crate) flags: &'a Flags,
    pub(crate) key: &'a str,
    pub(crate) moment: u64,
    pub(crate) pages: Vec<Page>,
    ghost small: { moment < 2 ^ 53 },
}
