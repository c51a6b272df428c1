//! What is tallied.
ghost use Rattle.std.specs.Prelude.{◌<◌, ◌≤◌};

use book_core::Page;

/// The inputs of a page, in so many points.
#[derive(Drop)]
pub(crate) struct Target {
    pub(crate) page: Page,
    pub(crate) total: u32,
    ghost some: { 0 < total },
    ghost few: { total ≤ 1000000 },
}
