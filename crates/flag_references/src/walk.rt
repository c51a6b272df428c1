//! A walk over the evaluators of a document, in which each is measured after those that it refers to.
ghost use Rattle.std.specs.Prelude.{◌≡◌, length, IfOk};

use crate::references::reference_of;
use crate::table::Table;
use flag_text::{Tree, position_of};
use std::alloc::{AllocError, Global};

/// What is still to do in a walk, for the evaluator of this name.
#[derive(Clone, Copy)]
enum Step<'a> {
    /// What it refers to comes first.
    Enter(&'a str),
    /// What it refers to has been measured, unless that leads back to it or nowhere.
    Measure(&'a str),
}

/// Measures the evaluators, each after those that it refers to. Each is entered once, so this takes about as long as
/// reading them, in whatever order they stand.
pub(crate) fn walk(alloc: Global, table: &mut Table<'_>) -> Result<(), AllocError>
    ensures { table.new.members ≡ table.old.members }
{
    let evaluators = table.members;
    let mut entered = none_entered(alloc, evaluators.len())?;
    let mut steps = Vec::new(alloc);
    for (name, _) in evaluators {
        steps.push(Step::Enter(name.as_str()))?;
        follow(&mut steps, &mut entered, table)?;
    }
    Ok(())
}

/// Takes the steps from the last on, with those that they lead to, until none is left.
fn follow<'a>(
    steps: &mut Vec<Step<'a>>,
    entered: &mut Vec<bool>,
    table: &mut Table<'a>,
) -> Result<(), AllocError>
    requires { length entered.old.items ≡ length table.old.members }
    ensures members { table.new.members ≡ table.old.members }
    ensures each_entered { length entered.new.items ≡ length table.new.members }
{
    for _ in 0..u64::MAX {
        match steps.pop() {
            Some(Step::Enter(name)) => enter(steps, entered, table, name)?,
            Some(Step::Measure(name)) => learn_named(table, name),
            None => break,
        }
    }
    Ok(())
}

/// Puts behind the steps those of an evaluator that was not entered before.
fn enter<'a>(
    steps: &mut Vec<Step<'a>>,
    entered: &mut Vec<bool>,
    table: &Table<'a>,
    name: &'a str,
) -> Result<(), AllocError>
    requires { length entered.old.items ≡ length table.now.members }
    ensures { length entered.new.items ≡ length table.now.members }
{
    let evaluators = table.members;
    let Some(i) = position_of(evaluators, name) else {
        return Ok(());
    };
    if entered[i] {
        return Ok(());
    }
    entered[i] = true;
    steps.push(Step::Measure(name))?;
    push_names(steps, &evaluators[i].1)
}

/// Measures the evaluator of this name, if there is one.
fn learn_named(table: &mut Table<'_>, name: &str)
    ensures { table.new.members ≡ table.old.members }
{
    if let Some(i) = position_of(table.members, name) {
        table.learn(i);
    }
}

fn none_entered(alloc: Global, count: usize) -> Result<Vec<bool>, AllocError>
    ensures { IfOk result (λ v. length v.items ≡ count) }
{
    let mut entered = Vec::with_capacity(alloc, count)?;
    for _ in 0..count {
        entered.push(false)?;
    }
    Ok(entered)
}

/// Puts a step into each evaluator that a tree refers to behind those that are there.
#[cycle(names)]
fn push_names<'a>(steps: &mut Vec<Step<'a>>, tree: &'a Tree) -> Result<(), AllocError> {
    match tree {
        Tree::List(items) => {
            for item in items {
                push_names(steps, item)?;
            }
        }
        Tree::Object(members) => match reference_of(members.as_slice()) {
            Some(name) => steps.push(Step::Enter(name))?,
            None => push_member_names(steps, members)?,
        },
        _ => (),
    }
    Ok(())
}

#[cycle(names)]
fn push_member_names<'a>(
    steps: &mut Vec<Step<'a>>,
    members: &'a Vec<(String, Tree)>,
) -> Result<(), AllocError> {
    for (_, member) in members {
        push_names(steps, member)?;
    }
    Ok(())
}
