//! What a service tells of its flags to whoever plans rollouts: their definitions as they are merged, the kind of each, which are
//! broken and which are doubted, and each site with its page, its rule, and how many inputs are recorded there.
//!
//! ```rust
//! use control_flags::{FlagsAsked, flags_answer};
//!
//! let asked = FlagsAsked { number: 3, flags: &flags, remarks: "", sources: &["shop.json"], recorded: &recorded, may_apply: false };
//! let body = flags_answer(alloc, &asked)?;
//! ```
//!
//! Proved, over the definitions of `specs/`: the body is the text of `Flags`, with the document that `flag_defs` prints, in which each
//! number stands as it is spelled; a row for each site of each targeting, in the order of keys and sites, with the site's page, rule and
//! total, and the number of inputs that is told for that page (`Sites`); the doubts that `flag_doubts` finds in targetings (`Doubts`);
//! and the kind of each flag that is not broken (`Kinds`).
//!
//! # What a listener for operations is asked of rollouts
//!
//! [`ControlPlace::of`] says what the path of a request leads to, [`ControlPlace::method`] the one method that is taken there, and
//! [`record_asked`] which site's record a query asks for.
//!
//! Proved, over the definitions of `specs/Calls`: all three answers are exact, the last unless memory runs out; that a query has other
//! parts takes none.
#![tactic(auto)]

mod answer;
mod doubts;
mod joined;
mod kinds;
mod place;
mod record;
mod rules;
mod sites;

pub use answer::{FlagsAsked, flags_answer};
pub use place::ControlPlace;
pub use record::{RecordAsked, record_asked};
pub use rules::push_rule;
