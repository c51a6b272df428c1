//! Diagnostics of a book that has no input on the page of a request, or inputs of another flag.
ghost use Rattle.std.specs.Prelude.{IfOk, string_bytes};
ghost use Rattle.file_diagnostics.specs.Named.{Names};

use book_core::Page;
use file_diagnostics::{Lines, Name, Opening, quoted};
use std::alloc::{AllocError, Global};

/// The most pages that are listed.
const MOST_PAGES: usize = 10;

/// Says that the book has no input on the page of the request, and which pages of its flag it has.
pub fn of_unrecorded(
    alloc: Global,
    path: &str,
    page: &Page,
    others: &[&Page],
) -> Result<String, AllocError>
    ensures names { IfOk result (λ s. Names path.now (string_bytes s)) }
{
    let page = whole_page(alloc, page)?;
    let mut lines = Lines::new(alloc);
    write!(
        lines,
        " has no input on the page of the request, so no recorded user counts:\n  {page}\n",
    );
    put_others(&mut lines, others)?;
    lines.headed(Opening::Note, path)
}

/// Explains that some of the inputs on the request's page do not begin with the flag's key.
pub fn of_foreign(
    alloc: Global,
    path: &str,
    page: &Page,
    inputs: &[String],
) -> Result<String, AllocError>
    ensures names { IfOk result (λ s. Names path.now (string_bytes s)) }
{
    let key = page.flag.as_str();
    let mut lines = Lines::new(alloc);
    write!(
        lines,
        " has inputs on the page of the request that are not of its flag: {} of {} do not begin with its key\n  {}",
        inputs
            .iter()
            .filter(|input| is_foreign(input.as_str(), key))
            .count(),
        inputs.len(),
        whole_page(alloc, page)?,
    );
    if let Some(first) = inputs.iter().find(|input| is_foreign(input.as_str(), key)) {
        write!(lines, "; the first is {}", lines.name(first.as_str()));
    }
    write!(
        lines,
        "\n  where \"by\" is null an input is the flag's key followed by the targeting key\n",
    );
    lines.headed(Opening::Note, path)
}

/// Whether an input does not begin with a key.
fn is_foreign(input: &str, key: &str) -> bool {
    !input.as_bytes().starts_with(key.as_bytes())
}

/// The pages of the same flag, or that there is none.
fn put_others(lines: &mut Lines, others: &[&Page]) -> Result<(), AllocError> {
    for page in others.iter().take(MOST_PAGES) {
        let page = spelled(lines.alloc, page)?;
        write!(lines, "  the book has of this flag: {page}\n");
    }
    if others.is_empty() {
        write!(lines, "  the book has no page of this flag\n");
    } else if others.len() > MOST_PAGES {
        write!(lines, "  and more pages of this flag\n");
    }
    Ok(())
}

/// A page with its flag.
pub(crate) fn whole_page(alloc: Global, page: &Page) -> Result<String, AllocError> {
    let name = page.flag.as_str();
    let rest = spelled(alloc, page)?;
    format!(in alloc; "flag {}, {rest}", Name { alloc, name })
}

/// A page as a book spells it, without its flag.
fn spelled(alloc: Global, page: &Page) -> Result<String, AllocError> {
    let by = match &page.by {
        Some(by) => quoted(alloc, by.as_str())?,
        None => String::from_str(alloc, "null")?,
    };
    format!(in alloc; "\"site\":{}, \"by\":{by}", page.site)
}
