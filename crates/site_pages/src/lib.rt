//! The pages of a flag's sites, made together or one at a time.
//!
//! Each `fractional` operation of a targeting is a site, and has a page of a book: the flag's key, the site's number and the
//! text of its bucketing expression. [`pages_of`] makes those of a targeting in one walk, for whoever notes many inputs:
//! the page of one site, by [`page_at`] or `book_core`'s `Page::of`, is a walk for itself.
//!
//! ```rust
//! use flag_text::read_tree;
//! use logic_ast::read_expr;
//! use site_pages::pages_of;
//!
//! let tree = read_tree(alloc, br#"{"fractional":[{"var":"key"},["red",5],["blue",5]]}"#, 1000)?;
//! let pages = pages_of(alloc, "color", &read_expr(alloc, &tree)?)?;
//! assert!(rt; pages.len() == 1);
//! assert!(rt; pages[0].by.as_ref().is_some_and(|by| by.as_str() == r#"{"var":["key"]}"#));
//! ```
//!
//! Proved, over the definitions of `specs/`: there is a page for each site, in the sites' order, and it is the page of the
//! site of its number (`Pages`); and [`page_at`] makes the page of a site of the flag of a key (`Keyed`).
#![tactic(auto)]

mod keyed;
mod pages;
mod sites;
mod text;

pub use keyed::{page_at, targeting_of};
pub use pages::pages_of;
