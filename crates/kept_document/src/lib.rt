//! A rule put into a document in the place of a site's buckets, with all other bytes as they were, and where these buckets stand.
//!
//! [`keep`] gives the bytes of the document with the buckets of one site replaced. What is given was read again: it means
//! the flags that were wanted of it. A document may have floats, or may not, and is read as it was.
//!
//! What is proved, over the definitions of `specs/Kept.antt`: what is given is the document up to the first byte of the
//! site's first bucket, the rule's entries, and the document from the last byte of the site's last bucket on (`kept`); it
//! means the flags that were wanted (`means`); and each refusal comes only where its condition holds (`refused`), so that where
//! such a text means these flags want of memory is all that can hinder it.
//!
//! # Where the buckets of a site stand in the document that a flag was read from
//!
//! A targeting may refer to shared evaluators, so that what is evaluated stands in several places of a document. The sites of
//! a flag are numbered in its targeting as it is with these references replaced. [`place_of_site`] leads from a site's number
//! to the list in the document whose items are its buckets, or tells in which evaluator they stand.
//!
//! What is proved: the answer is `site_place` of `specs/Place.antt`, the way to the site in the targeting's written form
//! followed through the document, as long as it meets no reference. The way to a site's number leads to the arguments of the
//! targeting's site of this number ([`the_way_leads_to_the_site`]), and past the written form as many sites are passed as the
//! targeting has ([`a_form_has_the_sites_of_its_expression`]).
#![tactic(auto)]

mod buckets;
mod checking;
mod editing;
mod fault;
mod following;
mod keeping;
mod laws;
mod locating;
mod seeking;

pub use fault::KeepFault;
pub use keeping::{keep, tree_as};
pub use laws::{a_form_has_the_sites_of_its_expression, the_way_leads_to_the_site};
pub use locating::{SitePlace, place_of_site};
