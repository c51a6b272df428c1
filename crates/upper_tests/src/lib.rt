//! The tests of the crates from the planning problem to the program's files: what no command shows of them. They stand in a
//! crate of their own, so that those are proved once.
#![tactic(auto)]

#[cfg(test)]
mod endings;
#[cfg(test)]
mod faults;
#[cfg(test)]
mod files;
#[cfg(test)]
mod memory;
#[cfg(test)]
mod plan_files;
#[cfg(test)]
mod posed;
#[cfg(test)]
mod prices;
#[cfg(test)]
mod problems;
#[cfg(test)]
mod rows;
#[cfg(test)]
mod sealed;
#[cfg(test)]
mod seats;
