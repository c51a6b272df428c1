//! The page of one site, by the key of its flag.
ghost use Rattle.std.specs.Prelude.{◌≡◌, Some, IfOk, option_map, string_bytes};
ghost use Rattle.logic_ast.specs.Expr.{view};
ghost use Rattle.flag_defs.specs.Flags.{flags_view};
ghost use Rattle.site_pages.specs.Keyed.{by_at, page_of, targeting_of as targeting_named};

use book_core::Page;
use flag_defs::Flags;
use logic_ast::{Expr, LogicFault, by_text};
use std::alloc::{AllocError, Global};

/// The targeting of the flag of a key.
pub fn targeting_of<'a>(flags: &'a Flags, key: &str) -> Option<&'a Expr>
    ensures { option_map (λ e. view e.now) result ≡ targeting_named (flags_view flags.now) key.now }
{
    flags.get(key)?.targeting()
}

/// The page of a site of the flag of a key with this targeting: that of the site's bucketing expression, where the targeting
/// has such a site with one. It fails only where memory runs out.
pub fn page_at(
    alloc: Global,
    key: &str,
    targeting: Option<&Expr>,
    site: u32,
) -> Result<Page, AllocError>
    ensures { IfOk result (λ page. page ≡ page_of key.now (option_map (λ e. view e.now) targeting.entry) site) }
{
    let by = match targeting {
        Some(targeting) => text_at(alloc, targeting, site)?,
        None => None,
    };
    let flag = String::from_str(alloc, key)?;
    Ok(Page { flag, site, by })
}

/// The text of the bucketing expression at a site, where it has one.
fn text_at(alloc: Global, targeting: &Expr, site: u32) -> Result<Option<String>, AllocError>
    ensures { IfOk result (λ by. option_map string_bytes by ≡ by_at (Some (view targeting.now)) site) }
{
    match by_text(alloc, targeting, site) {
        Ok(by) => Ok(by),
        Err(LogicFault::WantOfMemory) => Err(AllocError),
        Err(_) => Ok(None),
    }
}
