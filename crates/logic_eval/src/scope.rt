//! What an evaluation is given, and what a path finds in it.
ghost use Rattle.std.specs.Prelude.{◌≡◌, [], slice_index_or};
ghost use Rattle.logic_eval.specs.Literal.{table_of};

use logic_values::{Root, Value};

/// Where a path is looked up.
#[derive(Clone, Copy)]
pub(crate) enum Scope<'s, 'a> {
    /// The scope of the whole expression.
    Root(Root<'a>),
    /// An item of a list.
    Item(&'s Value<'a>),
    /// The value so far and the item of a `reduce`.
    Fold(&'s Value<'a>, &'s Value<'a>),
}

/// What sites are decided by beside the scope.
#[derive(Clone, Copy)]
pub(crate) struct Subject<'a> {
    /// What the default hash input is made of: the flag's key and the targeting key.
    pub(crate) flag: &'a str,
    pub(crate) key: Option<&'a str>,
    /// The cumulative weights of the expression's sites, by their numbers.
    pub(crate) ends: &'a [Vec<u32>],
}

/// The cumulative weights of a site.
pub(crate) fn ends_at<'a>(subject: Subject<'a>, site: u32) -> &'a [u32]
    ensures { result.now ≡ slice_index_or (table_of subject.entry) site [] }
{
    match subject.ends.get(site as usize) {
        Some(ends) => ends.as_slice(),
        None => &[],
    }
}
