//! The problem of a request on the rule red 5, blue 5: what the checks and the planner are asked.
use book_core::{Exposure, Page, counts, read_book};
use bucket_core::{Rule, read_rule};
use flag_text::read_tree;
use price_core::{Request, Totals};
use std::alloc::{AllocError, Global};
use transport_core::{CheckFault, Instance};

/// A rule, a request with the totals that it asks, and the recorded inputs.
#[derive(Drop)]
pub(crate) struct Problem {
    pub(crate) old: Rule,
    pub(crate) request: Request,
    pub(crate) totals: Totals,
    pub(crate) inputs: Exposure,
}

/// Seven inputs, which lie on the points 0, 1, 4, 4, 6, 7 and 7 of 10.
const BOOK: &[u8] =
    b"{\"book\":1}\n{\"by\":null,\"flag\":\"\",\"site\":0}\n\"\"\n\"!\"\n\"!C\"\n\"!Ce\"\n\"Hello, world!\"\n\"The quick brown fox jumps over the lazy dog\"\n\"test\"\n";

/// The rule of a text.
pub(crate) fn rule_of(alloc: Global, text: &str) -> Option<Rule> {
    match read_tree(alloc, text.as_bytes(), 1000) {
        Ok(tree) => read_rule(alloc, &tree).ok(),
        Err(_) => None,
    }
}

/// Names between blanks.
pub(crate) fn names(alloc: Global, text: &str) -> Result<Vec<String>, AllocError> {
    let mut names = Vec::new(alloc);
    for name in text.split_ascii_whitespace() {
        names.push(String::from_str(alloc, name)?)?;
    }
    Ok(names)
}

/// The inputs of the book's one page.
fn inputs(alloc: Global) -> Option<Exposure> {
    match read_book(alloc, BOOK) {
        Ok(book) => {
            let page = Page {
                flag: String::new(alloc),
                site: 0,
                by: None,
            };
            book.exposure(alloc, &page).ok()
        }
        Err(_) => None,
    }
}

/// The totals that a request asks of the variants.
fn totals(alloc: Global, request: &Request) -> Option<Totals> {
    match names(alloc, "blue green red") {
        Ok(names) => request.totals(alloc, names.as_slice()).ok(),
        Err(AllocError) => None,
    }
}

/// The problem of a request on the seven inputs.
pub(crate) fn posed(alloc: Global, request: &[u8]) -> Option<Problem> {
    posed_on(alloc, request, inputs(alloc)?)
}

/// The problem of a request.
pub(crate) fn posed_on(alloc: Global, request: &[u8], inputs: Exposure) -> Option<Problem> {
    let old = rule_of(alloc, r#"[["red",5],["blue",5]]"#)?;
    let request = Request::read(alloc, request).ok()?;
    let totals = totals(alloc, &request)?;
    Some(Problem {
        old,
        request,
        totals,
        inputs,
    })
}

/// Its instance, or the fault; that of the totals where they make none.
pub(crate) fn instance(alloc: Global, posed: &Problem) -> Result<Instance<'_>, CheckFault> {
    let Problem {
        old,
        request,
        totals,
        inputs,
    } = posed;
    if old.total() > 1_000_000 || totals.entries().len() > 64 {
        return Err(CheckFault::Weight);
    }
    if !Instance::lists(old, totals) {
        return Err(CheckFault::Weight);
    }
    // Called for what its contract says: there are at most 1,000,000 of them.
    let _inputs = inputs.inputs();
    let counts = counts(alloc, inputs, old.total())?;
    Instance::make(alloc, old, totals, request.prices(), counts.as_slice())
}
