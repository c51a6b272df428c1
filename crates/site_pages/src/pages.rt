//! The pages of the sites of a targeting.
ghost use Rattle.std.specs.Prelude.{◌≡◌, true, All, IfOk, map, string_bytes};
ghost use Rattle.flag_text.specs.Printing.{text_of};
ghost use Rattle.flag_text.specs.Shape.{is_whole};
ghost use Rattle.logic_ast.specs.Expr.{view};
ghost use Rattle.logic_ast.specs.View.{node_view};
ghost use Rattle.logic_ast.specs.Writing.{written};
ghost use Rattle.site_pages.specs.Pages.{ArePages, page_with};
ghost use Rattle.site_pages.specs.Sites.{by_view, place_view};
ghost use Rattle.site_pages.specs.Text.{by_is_whole};

use crate::sites::{Place, visit};
use crate::text::push_node;
use book_core::Page;
use logic_ast::{Expr, Node};
use std::alloc::{AllocError, Global};

/// The pages of the sites of a flag's targeting, at the sites' numbers: each is as `Page::of` makes it. It fails only where
/// memory runs out. Cost: a walk over the targeting, and the texts of the bucketing expressions.
pub fn pages_of(alloc: Global, flag: &str, targeting: &Expr) -> Result<Vec<Page>, AllocError>
    ensures { IfOk result (λ pages. ArePages flag.now (view targeting.now) pages.items) }
{
    let mut places = Vec::new(alloc);
    visit(targeting.root(), &mut places)?;
    pages_at(alloc, flag, places.as_slice())
}

/// The pages of a flag's sites.
fn pages_at(alloc: Global, flag: &str, places: &[Place<'_>]) -> Result<Vec<Page>, AllocError>
    requires { All (λ place. by_is_whole (by_view place.by) ≡ true) places.now }
    ensures { IfOk result (λ pages. pages.items ≡ map (λ place. page_with flag.now (place_view place)) places.now) }
{
    let mut pages = Vec::with_capacity(alloc, places.len())?;
    for place in places {
        pages.push(page_on(alloc, flag, place)?)?;
    }
    Ok(pages)
}

/// The page of a flag's site.
fn page_on(alloc: Global, flag: &str, place: &Place<'_>) -> Result<Page, AllocError>
    requires { by_is_whole (by_view place.now.by) ≡ true }
    ensures { IfOk result (λ page. page ≡ page_with flag.now (place_view place.now)) }
{
    let by = match place.by {
        None => None,
        Some(node) => Some(text_of(alloc, node)?),
    };
    let flag = String::from_str(alloc, flag)?;
    Ok(Page {
        flag,
        site: place.site,
        by,
    })
}

/// The text that a node is written with.
#[tactic(auto, unfolding(flag_text::specs::Printing::text_of))]
fn text_of(alloc: Global, node: &Node) -> Result<String, AllocError>
    requires { is_whole (written (node_view node.now)) ≡ true }
    ensures { IfOk result (λ text. string_bytes text ≡ text_of (written (node_view node.now))) }
{
    let mut text = String::new(alloc);
    push_node(alloc, &mut text, node)?;
    Ok(text)
}
