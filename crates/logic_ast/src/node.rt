//! What an expression is.
use crate::operator::Operator;
use flag_text::Tree;

/// One node of an expression, with those below it.
#[derive(Drop)]
pub enum Node {
    /// A scalar, or an object of no member or of several, which is not evaluated.
    Literal(Tree),
    /// A list of expressions.
    List(Vec<Node>),
    /// An operator with its arguments.
    Operation(Operator, Vec<Node>),
    /// A site: a `fractional` operation.
    Fractional {
        /// The number of the site, in preorder from 0.
        site: u32,
        /// The bucketing expression, where there is one.
        by: Option<Box<Node>>,
        /// The buckets, in their order.
        buckets: Vec<Bucket<Node>>,
    },
}

/// A bucket of a `fractional` operation.
#[derive(Drop)]
pub enum Bucket<E> {
    /// A name and a weight below 2^31.
    Literal(String, u32),
    /// Expressions for the name and the weight.
    Computed(E, E),
}
