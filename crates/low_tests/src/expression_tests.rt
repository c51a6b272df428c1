//! Expressions: which fault refuses them, and the sites of a bucketing expression by itself.
use crate::rows::each;
use flag_text::read_tree;
use logic_ast::{Expr, LogicFault, by_text, read_expr, site, sites};
use std::alloc::Global;
use std::test::Fail;

/// Whether the text's expression is refused by this fault.
fn is_refused(alloc: Global, text: &str, want: &str) -> bool {
    match read_tree(alloc, text.as_bytes(), 1000) {
        Ok(tree) => match read_expr(alloc, &tree) {
            Ok(_) => false,
            Err(fault) => fault.name() == want,
        },
        Err(_) => false,
    }
}

const FAULTS: &str = r#"{"nand":[1,2]} -> UnknownOperator
{"$ref":5} -> UnknownOperator
{"!":[1,2]} -> BadArguments
{"!":[{"nand":1},2]} -> BadArguments
{"+":[{"nand":1},{"!":[]}]} -> UnknownOperator
[{"!":[]},{"nand":1}] -> BadArguments
{"fractional":[{"nand":1},2]} -> BadArguments
{"fractional":[{"nand":1},[]]} -> BadArguments
{"fractional":[["a",1,2]]} -> BadArguments
{"fractional":[["a"],"b"]} -> BadArguments
{"fractional":[{"nand":1},["a"]]} -> UnknownOperator
{"fractional":[["a"],[{"!":[]},{"nand":1}]]} -> BadArguments"#;

#[test]
fn faults_in_preorder(rt: HostRuntime) -> Result<(), Fail> {
    assert!(rt; LogicFault::TooBig.number() == 3 && LogicFault::TooBig.name() == "TooBig");
    each(rt.alloc(), FAULTS, is_refused)
}

/// Whether the expression has one site, with this bucketing expression.
fn has_one(alloc: Global, expr: &Expr, want: &str) -> bool {
    match by_text(alloc, expr, 0) {
        Ok(Some(by)) => sites(expr) == 1 && by.as_str() == want,
        _ => false,
    }
}

/// Whether the bucketing expression of the first site has one site of its own, with this bucketing expression.
fn has_inner(alloc: Global, expr: &Expr, want: &str) -> bool {
    match site(alloc, expr, 0) {
        Ok(found) => match &found.by {
            Some(by) => has_one(alloc, by, want),
            None => false,
        },
        Err(_) => false,
    }
}

/// The same of the expression of a text.
fn is_nested(alloc: Global, text: &str, want: &str) -> bool {
    match read_tree(alloc, text.as_bytes(), 1000) {
        Ok(tree) => match read_expr(alloc, &tree) {
            Ok(expr) => has_inner(alloc, &expr, want),
            Err(_) => false,
        },
        Err(_) => false,
    }
}

const NESTED: &str =
    r#"[{"a":{"fractional":[]},"b":1},{"fractional":[{"cat":[{"fractional":[null,["x",2]]}]},["p",1]]},{"fractional":[["q",{"fractional":[["y"]]}]]}] -> null"#;

#[test]
fn a_bucketing_expression_has_sites_of_its_own(rt: HostRuntime) -> Result<(), Fail> {
    each(rt.alloc(), NESTED, is_nested)
}
