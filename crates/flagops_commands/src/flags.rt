//! The commands on flag documents.

pub mod resolve;
mod unresolved;
