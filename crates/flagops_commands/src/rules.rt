//! The commands on rules.

pub mod bucket;
pub mod price;
mod price_diagnostics;
mod totals;
