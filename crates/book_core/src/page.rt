ghost use Rattle.std.specs.Prelude.{◌≡◌, None, IfOk, IsErrOf};
ghost use Rattle.flag_text.specs.Outcome.{GivesUnless};
ghost use Rattle.logic_ast.specs.Expr.{view};
ghost use Rattle.logic_ast.specs.Sites.{site_at};
ghost use Rattle.book_core.specs.Site.{page_at};

use logic_ast::{Expr, LogicFault, by_text};
use std::alloc::{AllocError, Global};
use std::cmp::Ordering;
use std::marker::Model;

/// The place of a `fractional` operation, whose inputs stand on one page. Pages are ordered by these three, texts by
/// their bytes and none before any.
#[derive(Debug, Drop)]
pub struct Page {
    /// The key of the flag.
    pub flag: String,
    /// The number of the operation in the flag's targeting, from 0 in preorder.
    pub site: u32,
    /// The text of its bucketing expression, where it has one.
    pub by: Option<String>,
}

impl Model for Page {
    ghost use Rattle.std.specs.Prelude.{string_bytes, option_map};
    ghost use Rattle.book_core.specs.Page.{PageName};

    ghost Value = { PageName };

    ghost view = { λ p. record { flag = string_bytes p.flag; site = p.site; by = option_map string_bytes p.by } };
}

impl Page {
    /// The page of a site of a flag's targeting, with the compact text of its bucketing expression. NoSite where the
    /// targeting has no such site.
    #[tactic(auto, unfolding(crate::specs::Site::page_at))]
    pub fn of(alloc: Global, flag: &str, targeting: &Expr, site: u32) -> Result<Page, LogicFault>
        ensures exact { GivesUnless LogicFault.WantOfMemory (λ page. page) result (page_at flag.now site (view targeting.now)) }
        ensures no_site { site_at site (view targeting.now) ≡ None → IsErrOf result LogicFault.NoSite }
    {
        let by = by_text(alloc, targeting, site)?;
        let flag = String::from_str(alloc, flag)?;
        Ok(Page { flag, site, by })
    }

    /// An equal page. Want of memory is its one fault.
    pub fn copy(&self, alloc: Global) -> Result<Page, AllocError>
        ensures { IfOk result (λ page. page ≡ self.now) }
    {
        let flag = String::from_str(alloc, self.flag.as_str())?;
        let by = match &self.by {
            None => None,
            Some(text) => Some(String::from_str(alloc, text.as_str())?),
        };
        Ok(Page {
            flag,
            site: self.site,
            by,
        })
    }
}

impl Ord for Page {
    ghost use Rattle.book_core.specs.Page.{page_cmp};
    ghost use Rattle.book_core.specs.PageOrder.{pages_total, pages_match, pages_tie};

    ghost cmp = { page_cmp };

    ghost total = { pages_total };

    ghost matches_partial_cmp = { pages_match };

    ghost matches_eq = { pages_tie };

    fn cmp(&self, other: &Page) -> Ordering {
        self.flag
            .cmp(&other.flag)
            .then_with(|| self.site.cmp(&other.site))
            .then_with(|| self.by.cmp(&other.by))
    }
}

impl PartialOrd for Page {
    ghost use Rattle.std.specs.Prelude.{Some};
    ghost use Rattle.book_core.specs.Page.{page_cmp};
    ghost use Rattle.book_core.specs.PageOrder.{pages_partial};

    ghost partial_cmp = { λ a b. Some (page_cmp a b) };

    ghost laws = { pages_partial };

    fn partial_cmp(&self, other: &Page) -> Option<Ordering> {
        Some(self.cmp(other))
    }
}

impl PartialEq for Page {
    ghost use Rattle.std.specs.Ordering.{eq_by_cmp};
    ghost use Rattle.book_core.specs.Page.{page_cmp};
    ghost use Rattle.book_core.specs.PageOrder.{pages_partly_equal};

    ghost eq = { eq_by_cmp page_cmp };

    ghost laws = { pages_partly_equal };

    fn eq(&self, other: &Page) -> bool {
        self.cmp(other).is_eq()
    }
}

impl Eq for Page {
    ghost use Rattle.book_core.specs.PageOrder.{pages_equal};

    ghost laws = { pages_equal };
}
