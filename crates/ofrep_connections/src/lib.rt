//! Many connections on one thread, for a service whose answers rest on something that is to stand before they are given.
//!
//! A `Recording` service says what each of its answers rests on. [`answer_connections_with`] serves the
//! connections of a listener by readiness (`mio`), each a `Connection` of `http_server`: nothing is handed to a socket unless
//! what every answer of the connection rests on stands by then. Workers that share a listener take its connections in turn by
//! what they hold of their common [`Load`]. How long connections are kept is their [`Patience`]; a request that does not come whole in
//! time is answered 408. A request that is none is refused with the date behind the answers of those before it, and what still comes is
//! dropped for a moment, so that the client sees the refusal.
//!
//! Proved: the one function that writes answers to a socket has this as its condition, so that each write meets it; a socket is given
//! what its own connection sends, and then at most, with its date, the text of 408, where nothing else is being sent, or that of the
//! refusal, where no answer waits before it (`TellsRefusal`); what the connection received came from its socket; and what the service
//! did is turns, each a look and then answers. `http_server` proves of each connection that its bytes answer the requests that it read.
#![tactic(auto)]

mod admission;
mod closing;
mod load;
mod moment;
mod patience;
mod peer;
mod refusals;
mod served;
mod socket;
mod waiting;
mod work;

pub use load::Load;
pub use patience::Patience;
pub use served::Served;
pub use work::{answer_connections, answer_connections_with};
