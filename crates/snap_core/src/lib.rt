//! Numbered snapshots, their subscribers, and a flag service as a machine of events.
//!
//! A [`Hub`] keeps the last published flags with their number, and the number that each subscriber took last. A [`World`] is
//! a service: sources whose merge is published, a hub, and the book of hash inputs. [`run_events`] runs a list of [`Event`]s.
//!
//! ```rust
//! use flag_defs::read_flags;
//! use snap_core::Hub;
//!
//! let mut hub = Hub::new(alloc);
//! let subscriber = hub.join()?;
//! assert!(rt; hub.publish(read_flags(alloc, br#"{"flags":{}}"#)?)? == 1);
//! assert!(rt; hub.take(alloc, subscriber)?.is_some_and(|snapshot| snapshot.number == 1));
//! assert!(rt; hub.take(alloc, subscriber)?.is_none());
//! ```
//!
//! What is proved, over the definitions in `specs/`:
//! - [`Hub::publish`], [`Hub::join`], [`Hub::take`] and [`Hub::leave`] answer and leave what `Hub` says, or refuse and leave
//!   the hub as it was.
//! - [`World::new`] opens a service or gives the first refusal (`Opening`).
//! - [`run_events`] is a run of the machine that `World` defines, event by event, from each state that agrees with what was
//!   stored (`Agreement`); where memory runs out, the events before ran and no others.
//! - [`a_subscriber_takes_a_history`] is the law of the machine on what each subscriber takes (`History`).
#![tactic(auto)]

mod book;
mod event;
mod fault;
mod hub;
mod laws;
mod names;
mod run;
mod snapshot;
mod subscribers;
mod supply;
mod world;

pub use event::{Answer, Event, Refusal};
pub use fault::{HubFault, WorldFault};
pub use hub::{Hub, SubId};
pub use laws::a_subscriber_takes_a_history;
pub use run::{Short, run_events};
pub use snapshot::Snapshot;
pub use world::World;
