//! Names that are easily taken for one another, for diagnostics of a name that is not known.
//!
//! ```rust
//! use near_names::is_near;
//!
//! assert!(rt; is_near("checkout-buton", "checkout-button"));
//! assert!(rt; is_near("checkoutButton", "checkout-button"));
//! ```
//!
//! Two names are near where one edit leads from one to the other (a letter is missing, one too many or another one, or two neighbours
//! are exchanged), or one begins with the other; upper and lower case count as one. Proved, over the definitions of `specs/`: which
//! names are near. A test takes time in the shorter of the two names, and no memory.
#![tactic(auto)]

mod near;

pub use near::is_near;
