//! The tests of a running service: its sources and events, the snapshots that seats read, the streams that they are written
//! to, and the book that workers share. They stand in a crate of their own, so that the crates below are proved once.
#![tactic(auto)]

#[cfg(test)]
mod book_tests;
#[cfg(test)]
mod drive_tests;
#[cfg(test)]
mod event_tests;
#[cfg(test)]
mod frame_tests;
#[cfg(test)]
mod memory;
#[cfg(test)]
mod read_tests;
#[cfg(test)]
mod serve_tests;
#[cfg(test)]
mod snapshot_tests;
#[cfg(test)]
mod source_tests;
#[cfg(test)]
mod thread_tests;
