//! How large a tree is, where nothing else of its measure is needed.
ghost use Rattle.std.specs.Prelude.{◌≡◌, false, Some, option_map};
ghost use Rattle.flag_text.specs.Shape.{text};
ghost use Rattle.flag_text.specs.View.{view};
ghost use Rattle.flag_references.specs.Measure.{scalar_of, takes_count};
ghost use Rattle.flag_references.specs.Extent.{extent, extent_of_nothing, beside_extent, list_extent, operation_extent, object_of_extent, scalar_extent};
ghost use Rattle.logic_ast.specs.Operator.{operator_of};

use crate::measure::{Measure, Reading, capped, plus};
use flag_text::{Tree, is_in_range};
use logic_ast::Operator;

/// How large a tree is as a part of a literal and as an expression, and whether nothing is wrong with it. That is all that is
/// needed of a part, unless it is an argument of `fractional`, and about a third of a [`Measure`].
#[derive(Clone, Copy)]
pub(crate) struct Extent {
    pub(crate) full_nodes: u32,
    pub(crate) full_levels: u32,
    /// As an expression.
    pub(crate) nodes: u32,
    pub(crate) levels: u32,
    /// It is printed in no fewer bytes.
    pub(crate) bytes: u32,
    pub(crate) is_full_sound: bool,
    pub(crate) is_sound: bool,
}

impl Extent {
    /// Of nothing.
    pub(crate) const NOTHING: Extent = Extent {
        full_nodes: 0,
        full_levels: 0,
        nodes: 0,
        levels: 0,
        bytes: 0,
        is_full_sound: true,
        is_sound: true,
    };

    /// Of a scalar.
    fn scalar(is_whole: bool, bytes: u32) -> Extent
        ensures { result ≡ extent (scalar_of is_whole false false bytes) }
    {
        Extent {
            full_nodes: 1,
            full_levels: 0,
            nodes: 1,
            levels: 0,
            bytes: plus(bytes, 1),
            is_full_sound: is_whole,
            is_sound: true,
        }
    }

    /// Of a measure.
    pub(crate) fn of(measure: Measure) -> Extent
        ensures { result ≡ extent measure }
    {
        Extent {
            full_nodes: measure.full.nodes,
            full_levels: measure.full.levels,
            nodes: measure.expression.nodes,
            levels: measure.expression.levels,
            bytes: measure.bytes,
            is_full_sound: measure.full.is_sound,
            is_sound: measure.expression.is_sound,
        }
    }

    /// Of two parts of one list.
    pub(crate) fn beside(self, other: Extent) -> Extent
        ensures { result ≡ beside_extent self other }
    {
        Extent {
            full_nodes: plus(self.full_nodes, other.full_nodes),
            full_levels: self.full_levels.max(other.full_levels),
            nodes: plus(self.nodes, other.nodes),
            levels: self.levels.max(other.levels),
            bytes: plus(self.bytes, other.bytes),
            is_full_sound: self.is_full_sound && other.is_full_sound,
            is_sound: self.is_sound && other.is_sound,
        }
    }

    /// Of a list round its items.
    pub(crate) fn list(self) -> Extent
        ensures { result ≡ list_extent self }
    {
        Extent {
            full_nodes: plus(self.full_nodes, 1),
            full_levels: plus(self.full_levels, 1),
            nodes: plus(self.nodes, 1),
            levels: plus(self.levels, 1),
            bytes: plus(self.bytes, 2),
            ..self
        }
    }

    /// Of an operation, other than `fractional`, round a list of so many arguments.
    pub(crate) fn operation(self, name: &str, count: usize) -> Extent
        ensures { result ≡ operation_extent name.now count self }
    {
        let list = self.list();
        let takes = takes_count(name, count);
        Extent {
            full_nodes: plus(list.full_nodes, 1),
            full_levels: plus(list.full_levels, 1),
            nodes: plus(list.nodes, 1),
            levels: plus(list.levels, 1),
            bytes: plus(plus(capped(name.len()), list.bytes), 2),
            is_full_sound: list.is_full_sound,
            is_sound: takes && list.is_sound,
        }
    }

    /// The measure of an object that is no reference and of this extent.
    pub(crate) fn object(self) -> Measure
        ensures { result ≡ object_of_extent self }
    {
        let expression = Reading {
            nodes: self.nodes,
            levels: self.levels,
            is_sound: self.is_sound,
        };
        Measure {
            full: Reading {
                nodes: self.full_nodes,
                levels: self.full_levels,
                is_sound: self.is_full_sound,
            },
            expression,
            arguments: expression,
            argument_count: 1,
            site: expression,
            bucket: expression.when(false),
            is_list: false,
            is_text: false,
            is_weight: false,
            bytes: self.bytes,
        }
    }
}

/// The extent of a tree that has no parts.
pub(crate) fn scalar_extent(tree: &Tree) -> Option<Extent>
    ensures { result ≡ scalar_extent (view tree.now) }
{
    match tree {
        Tree::Null | Tree::Bool(_) => Some(Extent::scalar(true, 0)),
        Tree::Whole(n) => Some(Extent::scalar(is_in_range(*n), 0)),
        Tree::Other => Some(Extent::scalar(false, 0)),
        Tree::Text(text) => Some(text_extent(text.as_str())),
        Tree::List(_) | Tree::Object(_) => None,
    }
}

fn text_extent(content: &str) -> Extent
    ensures { Some result ≡ scalar_extent (text content.now) }
{
    Extent::scalar(true, plus(capped(content.len()), 1))
}

/// Whether there is an operator of this name and it may have so many arguments.
pub(crate) fn takes_count(name: &str, count: usize) -> bool
    ensures { result ≡ takes_count (operator_of name.now) count }
{
    match Operator::named(name) {
        Some(operator) => operator.takes(count),
        None => false,
    }
}

/// The extents of what has measures.
pub(crate) fn extent_of(measure: Option<Measure>) -> Option<Extent>
    ensures { result ≡ option_map extent measure }
{
    match measure {
        Some(measure) => Some(Extent::of(measure)),
        None => None,
    }
}

/// The measures of objects that are no references, of these extents.
pub(crate) fn object_of(extent: Option<Extent>) -> Option<Measure>
    ensures { result ≡ option_map object_of_extent extent }
{
    match extent {
        Some(extent) => Some(extent.object()),
        None => None,
    }
}
