//! The picture of an edit.
ghost use Rattle.std.specs.Prelude.{◌≡◌, IfOk, string_bytes};
ghost use Rattle.flag_defs.specs.Flags.{flags_view};
ghost use Rattle.flagops_compare.specs.Drawn.{compared_drawn, drawn_on, or_no_page, page_drawn, pages_drawn};
ghost use Rattle.rule_switches.specs.Found.{counted, page_view, pages_view};
ghost use Rattle.rule_switches.specs.Rules.{rules_on, rules_view};
ghost use Rattle.rule_switches.specs.Switches.{rows_view};
ghost use Rattle.picture.specs.Spelling.{Continues, IsBody, IsPicture, Pictures, depth};

use book_core::Page;
use picture::{EditedRule, Title, draw_edit, draw_no_page, page};
use rule_switches::{Edit, Found, PageFound, Rules, Switch, rules_on};
use std::alloc::{AllocError, Global};

/// The page that has the picture of each page of the book that was compared, one below the other, or that none was.
pub(crate) fn drawn(
    alloc: Global,
    edit: Edit<'_>,
    pages: &[PageFound],
) -> Result<String, AllocError>
    ensures { IfOk result (λ s. IsPicture Title.Edit (pages_drawn (flags_view edit.entry.old.now) (flags_view edit.entry.new.now) (pages_view pages.now)) (string_bytes s)) }
{
    let mut pictures = String::new(alloc);
    let end = add_pages(alloc, &mut pictures, edit, pages)?;
    let height = add_no_page(alloc, &mut pictures, end)?;
    let text = page(alloc, Title::Edit, height, pictures.as_str())?;
    Ok(text)
}

/// Adds that no page was compared to the pictures of a page which end this far below its top, where there is none, and gives how
/// far below the top they end.
fn add_no_page(alloc: Global, pictures: &mut String, end: u64) -> Result<u64, AllocError>
    ensures { IfOk result (λ height. (ps : Pictures) → IsBody ps (string_bytes pictures.old) → end ≡ depth ps → IsBody (or_no_page ps) (string_bytes pictures.new) × (height ≡ depth (or_no_page ps))) }
{
    if pictures.is_empty() {
        draw_no_page(alloc, pictures, 0)
    } else {
        Ok(end)
    }
}

/// Adds the pictures of pages, from the top on, and gives how far below it they end.
fn add_pages(
    alloc: Global,
    pictures: &mut String,
    edit: Edit<'_>,
    pages: &[PageFound],
) -> Result<u64, AllocError>
    ensures { IfOk result (λ end. Continues (compared_drawn (flags_view edit.entry.old.now) (flags_view edit.entry.new.now) (pages_view pages.now)) 0 end (string_bytes pictures.old) (string_bytes pictures.new)) }
{
    let mut y = 0u64;
    for page in pages {
        y = add_page(alloc, pictures, y, edit, page)?;
    }
    Ok(y)
}

/// Adds the picture of a page, where it was compared, so far below the top, and gives how far below it that ends.
#[tactic(auto, using(picture::proofs::Bodies::continues_one, picture::proofs::Bodies::continues_none))]
fn add_page(
    alloc: Global,
    pictures: &mut String,
    y: u64,
    edit: Edit<'_>,
    page: &PageFound,
) -> Result<u64, AllocError>
    ensures { IfOk result (λ end. Continues (drawn_on (flags_view edit.entry.old.now) (flags_view edit.entry.new.now) (page_view page.now)) y end (string_bytes pictures.old) (string_bytes pictures.new)) }
{
    match &page.found {
        Found::Counted(inputs, switched, rows) => {
            let rules = rules_on(alloc, edit, &page.page)?;
            let count = Count {
                inputs: *inputs,
                switched: *switched,
                switches: rows.as_slice(),
            };
            add_counted(alloc, pictures, y, &page.page, &rules, count)
        }
        Found::Left(_, _) => Ok(y),
    }
}

/// How many inputs a page has, how many of them switch, and how many go from each name to each other one.
#[derive(Clone, Copy)]
struct Count<'a> {
    inputs: u64,
    switched: u64,
    switches: &'a [Switch],
}

/// Adds the picture of a page by its rules, so far below the top, and gives how far below it that ends.
#[tactic(auto, using(crate::proofs::Drawings::drawn_so, picture::proofs::Bodies::continues_none))]
fn add_counted(
    alloc: Global,
    pictures: &mut String,
    y: u64,
    page: &Page,
    rules: &Rules,
    count: Count<'_>,
) -> Result<u64, AllocError>
    ensures { IfOk result (λ end. Continues (page_drawn (rules_view rules.now) page.now (counted count.entry.inputs count.entry.switched (rows_view count.entry.switches.now))) y end (string_bytes pictures.old) (string_bytes pictures.new)) }
{
    match rules {
        Rules::Both(old, new) => {
            let edited = EditedRule {
                flag: page.flag.as_str(),
                site: page.site,
                inputs: count.inputs,
                switched: count.switched,
                old,
                new,
                switches: count.switches,
            };
            draw_edit(alloc, pictures, y, &edited)
        }
        Rules::None(_, _) => Ok(y),
    }
}
