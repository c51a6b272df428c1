//! What an edit does on pages, with the sums of all.
ghost use Rattle.std.specs.Prelude.{◌≡◌, ◌+◌, ◌<◌, ◌≤◌, ◌^◌, ◌++◌, [], ◌∷◌, OnOk, if◌then◌else◌};
ghost use Rattle.rule_switches.specs.Found.{AreSums, found_view, inputs_in, is_left, pages_view, switches_in};

use crate::Switch;
use crate::fault::NoRule;
use crate::page_edit::Side;
use book_core::Page;
use std::alloc::{AllocError, Global};

/// What an edit does to the inputs of a page.
#[derive(Drop)]
pub enum Found {
    /// How many inputs the page has, how many of them get another name, and how many go from each name to each other one.
    Counted(u64, u64, Vec<Switch>),
    /// The first document that has no rule to compare, and why.
    Left(Side, NoRule),
}

/// A page with what an edit does there.
#[derive(Drop)]
pub struct PageFound {
    pub page: Page,
    pub found: Found,
}

/// What an edit does on pages, in their order, with the sums over those that were compared.
#[derive(Drop)]
pub struct Comparison {
    pub pages: Vec<PageFound>,
    /// The inputs of the pages that were compared.
    pub inputs: u64,
    /// How many of them switch.
    pub switched: u64,
    /// How many pages have no rules to compare.
    pub left: u64,
}

impl Comparison {
    /// No page yet.
    pub(crate) fn new(alloc: Global) -> Comparison
        ensures pages { pages_view result.pages.items ≡ [] }
        ensures sums { AreSums result }
        ensures none { (result.inputs ≡ 0) × (result.switched ≡ 0) × (result.left ≡ 0) }
    {
        Comparison {
            pages: Vec::new(alloc),
            inputs: 0,
            switched: 0,
            left: 0,
        }
    }

    /// With a page more.
    #[tactic(auto, using(crate::proofs::Sums::added))]
    pub(crate) fn add(&mut self, page: Page, found: Found) -> Result<(), AllocError>
        requires inputs { self.old.inputs + inputs_in (found_view found) < 2 ^ 64 }
        requires switched { self.old.switched + switches_in (found_view found) < 2 ^ 64 }
        requires left { self.old.left + 1 < 2 ^ 64 }
        ensures pages { OnOk result (pages_view self.new.pages.items ≡ pages_view self.old.pages.items ++ record { page = page; found = found_view found } ∷ []) }
        ensures inputs { OnOk result (self.new.inputs ≡ self.old.inputs + inputs_in (found_view found)) }
        ensures switched { OnOk result (self.new.switched ≡ self.old.switched + switches_in (found_view found)) }
        ensures left { OnOk result (self.new.left ≡ self.old.left + (if is_left (found_view found) then 1 else 0)) }
        ensures sums { OnOk result (AreSums self.old → AreSums self.new) }
    {
        self.inputs += inputs_in(&found);
        self.switched += switches_in(&found);
        self.left += left_in(&found);
        self.pages.push(PageFound { page, found })?;
        Ok(())
    }
}

/// How many inputs were compared.
fn inputs_in(found: &Found) -> u64
    ensures { result ≡ inputs_in (found_view found.now) }
{
    match found {
        Found::Counted(inputs, _, _) => *inputs,
        Found::Left(_, _) => 0,
    }
}

/// How many of them switch.
fn switches_in(found: &Found) -> u64
    ensures { result ≡ switches_in (found_view found.now) }
{
    match found {
        Found::Counted(_, users, _) => *users,
        Found::Left(_, _) => 0,
    }
}

/// How many pages were not compared: this one, or none.
fn left_in(found: &Found) -> u64
    ensures left { result ≡ (if is_left (found_view found.now) then 1 else 0) }
    ensures one { result ≤ 1 }
{
    match found {
        Found::Counted(_, _, _) => 0,
        Found::Left(_, _) => 1,
    }
}
