//! Members of JSON objects by their names: those that nobody reads, those that stand twice, and the tree of those that are asked for.
//!
//! # Members that nobody reads, which are mostly misspelled
//!
//! A [`Reader`] is one of the calls that read an object by the names of its members; [`Reader::unread`] gives the first
//! member that it passes over, and [`Reader::meant`] the member that it takes and whose name is near.
//!
//! ```rust
//! use member_names::Reader;
//!
//! let tree = read_tree(alloc, br#"{"plan":1,"flag":"k","totals":{},"forbidden":[]}"#, 1000)?;
//! assert!(rt; Reader::Request.unread(&tree) == Some("forbidden"));
//! assert!(rt; Reader::Request.meant("forbidden") == Some("forbid"));
//! ```
//!
//! Proved, over the definitions of `specs/`: which members a reader takes, and which member is the first that it does not.
//!
//! # Names that stand more than once in an object of a JSON text
//!
//! Of two members of one name the last counts, and a tree keeps that one alone: so the first is lost without a word, unless
//! somebody looks for it in the tokens of the text. [`repeated_place`] tells where such a name stands:
//!
//! ```rust
//! use member_names::repeated_place;
//!
//! let place = repeated_place(alloc, br#"{"totals":{"on":5,"off":90,"on":10}}"#)?;
//! assert!(rt; place.unwrap().as_str() == ".totals.on");
//! ```
//!
//! A crate above that passes the tokens of a document itself takes the steps of the walk: [`begin`], [`place_in`],
//! [`with_members`] and [`twin_or`].
//!
//! What is proved, over the grammar that `json` states (RFC 8259): a place is told exactly where an object of the text has a name
//! twice, compared as the texts that names stand for (`Repeated`), and it is that of the first such name (`Places`); what a walk
//! passes is what the grammar reads (`Passed`). A walk goes over each token once, and looks the names of a large object up in a
//! set.
//!
//! # The tree of a JSON text of whole numbers, of which only the members of given names are read
//!
//! Who reads an object by the names of its members needs no tree of the others. [`read_named`] passes over those by their
//! tokens, so that they take no memory:
//!
//! ```rust
//! use member_names::read_named;
//!
//! let tree = read_named(alloc, br#"{"plan":1,"note":["unread",{}]}"#, 1000, &["plan"])?;
//! assert!(rt; tree.member("plan").and_then(Tree::as_whole) == Some(1));
//! ```
//!
//! What is proved, over the definitions of `flag_text` and of `specs/`: a text is refused exactly where `read_tree` refuses it,
//! and as that does; and each member of the names is that of the tree that `read_tree` gives (`Keeps`). Where the text is no
//! object, or what is passed over has a number that is not whole, nests too deep or is no JSON, the whole text is read as a tree.
#![tactic(auto)]

mod laws;
mod near;
mod passing;
mod places;
mod reader;
mod reading;
mod texts;
mod twins;
mod walk;

pub use laws::a_kept_member_is_the_same;
pub use places::{member_place, within};
pub use reader::Reader;
pub use reading::read_named;
pub use texts::repeated_place;
pub use walk::{Next, Stop, begin, place_in, twin_or, with_members};
