//! What an evaluation comes to and no command tells: which fault, and values that are objects.
ghost use Rattle.std.specs.Prelude.{◌≡◌, true};
ghost use Rattle.flag_text.specs.Shape.{is_whole};
ghost use Rattle.flag_text.specs.View.{view};

use crate::rows::each;
use flag_text::{Tree, print_tree, read_tree};
use logic_ast::{Expr, read_expr};
use logic_eval::{Context, eval};
use std::alloc::Global;
use std::test::Fail;

/// Whether a value is printed so.
fn is_printed(alloc: Global, value: &Tree, want: &str) -> bool
    requires { is_whole (view value.now) ≡ true }
{
    match print_tree(alloc, value) {
        Ok(text) => text.as_str() == want,
        Err(_) => false,
    }
}

/// Whether an expression comes to this in a context, or has this fault.
fn comes_to(alloc: Global, expr: &Expr, context: &Context, want: &str) -> bool {
    match eval(alloc, expr, context) {
        Ok((value, _)) => is_printed(alloc, &value, want),
        Err(fault) => fault.name() == want,
    }
}

/// Whether an expression comes to this in the context of a text, under the flag key `te` at the moment 7.
#[tactic(auto, using(logic_eval::proofs::Tidy::tidy_whole))]
fn comes_to_in(alloc: Global, expr: &Expr, context: &str, want: &str) -> bool {
    match read_tree(alloc, context.as_bytes(), 4_194_304) {
        Ok(tree) => match &tree {
            Tree::Object(_) => comes_to(alloc, expr, &Context::make(&tree, "te", 7), want),
            _ => false,
        },
        Err(_) => false,
    }
}

/// Whether the expression of a text comes to this in the context of a text.
fn gives(alloc: Global, expression: &str, context: &str, want: &str) -> bool {
    match read_tree(alloc, expression.as_bytes(), 1000) {
        Ok(tree) => match read_expr(alloc, &tree) {
            Ok(expr) => comes_to_in(alloc, &expr, context, want),
            Err(_) => false,
        },
        Err(_) => false,
    }
}

/// Whether the expression of a text comes to this where nothing is known.
fn gives_alone(alloc: Global, expression: &str, want: &str) -> bool {
    gives(alloc, expression, "{}", want)
}

const ENDS: &str = r#"{"%":[1,0]} -> Arithmetic
{"+":[9007199254740991,1]} -> Arithmetic
{"fractional":["test",["red",-1]]} -> BadBuckets
{"var":"$flagd"} -> {"flagKey":"te","timestamp":7}
{"reduce":[[3],{"var":""}]} -> {"accumulator":null,"current":3}
{"missing_some":["x",5]} -> Arithmetic
{"+":[9007199254740991,1,-1]} -> Arithmetic
{"*":[3000000000,3002399752,0]} -> Arithmetic
{"-":[-9007199254740991,1]} -> Arithmetic
{"max":[1,"x"]} -> Arithmetic
{"-":true} -> Arithmetic
{"+":[{"fractional":["a",[1]]},"x"]} -> BadBuckets
{"none":[[0,"x"],{"+":[{"var":""}]}]} -> Arithmetic
{"substr":["abc",null]} -> Arithmetic
{"fractional":[7,["x",-1]]} -> BadBuckets
{"fractional":["a",["x",2147483647],["y"]]} -> BadBuckets
{"fractional":["a",[{"a":1,"b":2},{"+":[1,2]}]]} -> BadBuckets
{"reduce":[[0,0,0,0,0,0,0,0,0,0,0,0,0,0,0,0],{"cat":[{"var":"accumulator"},{"var":"accumulator"}]},"ab"]} -> TextTooLong"#;

#[test]
fn faults_and_objects(rt: HostRuntime) -> Result<(), Fail> {
    each(rt.alloc(), ENDS, gives_alone)
}

/// Whether an expression comes to this where `l` is a list of a zero and so many more.
fn gives_of_zeros(alloc: Global, more: usize, want: &str) -> bool {
    match ",0".repeat(alloc, more) {
        Ok(zeros) => match format!(in alloc; "{{\"l\":[0{zeros}]}}") {
            Ok(context) => gives(
                alloc,
                "[{\"var\":\"l\"},{\"+\":\"x\"}]",
                context.as_str(),
                want,
            ),
            Err(_) => false,
        },
        Err(_) => false,
    }
}

// A list of n zeros costs 4 + n here: the list of two 1, `var` 1, its path 1 and its value 1 + n. The sum that fails costs 2.
#[test]
fn faults_and_the_budget(rt: HostRuntime) {
    let alloc = rt.alloc();
    assert!(rt;
        gives_of_zeros(alloc, 99_993, "Arithmetic") && gives_of_zeros(alloc, 99_994, "TooLong")
    );
}
