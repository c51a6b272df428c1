//! What is tallied.
ghost use Rattle.std.specs.Prelude.{◌<◌, ◌≤◌};

use book_core::Page;

/// What is tallied: the inputs of a page, in so many points.
#[derive(Drop)]
pub struct Target {
    pub page: Page,
    pub total: u32,
    ghost some: { 0 < total },
    ghost few: { total ≤ 1000000 },
}
