//! Tests of the libraries from `murmur_core` to `note_tallies` and `picture` by what no command shows, in a crate of their own, so that each of those
//! is proved once. `tests/` shows all else on the built program.
#![tactic(auto)]

#[cfg(test)]
mod book_tests;
#[cfg(test)]
mod evaluation_tests;
#[cfg(test)]
mod expression_tests;
#[cfg(test)]
mod float_flag_tests;
#[cfg(test)]
mod float_tests;
#[cfg(test)]
mod kept_tests;
#[cfg(test)]
mod line_tests;
#[cfg(test)]
mod metadata_tests;
#[cfg(test)]
mod murmur_tests;
#[cfg(test)]
mod note_tests;
#[cfg(test)]
mod resolution_tests;
#[cfg(test)]
mod rows;
#[cfg(test)]
mod rule_tests;
#[cfg(test)]
mod text_tests;
#[cfg(test)]
mod tree_tests;
