//! What a change of a rollout asks for, and what it costs.
//!
//! A [`Request`] asks for a new rule at a `fractional` operation of flagd's targeting: limits on the total of each
//! variant, a price for each change from one variant to another, and changes that are forbidden. The cost of a new rule
//! is the sum, over the recorded hash inputs, of the price of the change from the variant that the old rule gives the
//! input to the variant that the new one gives it.
//!
//! ```rust
//! use price_core::Request;
//!
//! let request = br#"{"plan":1,"flag":"color","totals":{"red":3,"blue":7},
//!     "prices":[["red","blue",5]],"forbid":[["blue","red"]]}"#;
//! let request = Request::read(alloc, request)?;
//! let prices = request.prices();
//! assert!(rt; request.flag() == "color" && request.site() == 0);
//! assert!(rt; prices.price("red", "blue") == 5 && prices.price("red", "green") == 1);
//! assert!(rt; prices.forbidden("blue", "red") && !prices.forbidden("red", "blue"));
//! ```
//!
//! Proved, over the definitions of `specs/`: which request a text stands for, with each refusal in its order
//! (`Request`); what keeps a tree from being one (`Misfit`), or refuses one (`RequestError`), and where; which limits the
//! variants of a site have (`Limits`); what a change costs and which are forbidden (`Pricing`); the least forbidden point
//! of two rules, and the cost of a new rule: over inputs, which is added up by as many threads as there are processors,
//! and over the numbers of inputs that fall on the points (`Cost`). Where both are asked of the same rules, a
//! [`Switching`] numbers their names once.
#![tactic(auto)]

mod change;
mod cost;
mod draft;
mod fault;
mod laws;
mod misfit;
mod numbering;
mod prices;
mod request;
mod request_error;
mod switching;
mod totals;

pub use cost::{first_forbidden, switch_cost, switch_cost_of};
pub use draft::limit_of;
pub use fault::PriceFault;
pub use laws::a_misfit_is_all_that_refuses;
pub use misfit::{Misfit, change_in};
pub use prices::Prices;
pub use request::Request;
pub use request_error::RequestError;
pub use switching::Switching;
pub use totals::{Limit, Totals};
