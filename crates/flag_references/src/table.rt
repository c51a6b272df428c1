//! The measures of the evaluators of a document, each taken over the measures of those that it refers to.
ghost use Rattle.std.specs.Prelude.{◌≡◌, ℕ, ◌+◌, ◌<◌, true, false, length, replicate, Some, IfOk};
ghost use Rattle.std.specs.List.{HoldsAt};
ghost use Rattle.flag_text.specs.Shape.{members_are_tidy};
ghost use Rattle.flag_text.specs.View.{view, members_view};
ghost use Rattle.flag_references.specs.Measure.{known, measured};
ghost use Rattle.flag_references.specs.Table.{IsHead, IsStuck, unknown_count};

use crate::inlined_measure::measured;
use crate::measure::Measure;
use crate::references::reference_in;
use crate::walk::walk;
use flag_text::{Tree, position_of};
use std::alloc::{AllocError, Global};
use std::marker::Model;

/// The evaluators of a document, with what is known so far of each.
#[derive(Drop)]
pub(crate) struct Table<'a> {
    pub(crate) members: &'a [(String, Tree)],
    /// Of each that has been measured, the measure of its inlined form.
    pub(crate) measures: Vec<Option<Measure>>,
    /// The places of the evaluators at the ends of the references from those that have been measured.
    pub(crate) heads: Vec<usize>,
}

impl<'a> Model for Table<'a> {
    ghost use Rattle.std.specs.Coded.{codes};
    ghost use Rattle.flag_text.specs.contracts.tree.Tree as tree;
    ghost use Rattle.flag_references.specs.Table.{Learned, IsTable};

    ghost Value = { Learned };

    ghost coded = { Prim.hlevel (codes, tree.the_row.coded) };

    ghost view = { λ t. record { members = t.members.now; measures = t.measures.items } };

    ghost invariant = { λ t. IsTable t.members.now t.measures.items t.heads.items };
}

impl<'a> Table<'a> {
    /// Measures each evaluator that can be measured now, in their order. Answers whether there was one.
    fn pass(&mut self) -> bool
        ensures members { self.new.members ≡ self.old.members }
        ensures fewer { result ≡ true → unknown_count self.new.measures < unknown_count self.old.measures }
        ensures stuck { result ≡ false → (i : ℕ) → i < length self.new.members → IsStuck self.new.members self.new.measures i }
    {
        let mut learned = false;
        for i in 0..self.members.len() {
            let new = self.learn(i);
            learned |= new;
        }
        learned
    }

    /// Measures the evaluator at an index, where it is not measured yet and what it refers to is. Answers whether it was
    /// measured now.
    pub(crate) fn learn(&mut self, i: usize) -> bool
        requires { i < length self.old.members }
        ensures members { self.new.members ≡ self.old.members }
        ensures fewer { result ≡ true → unknown_count self.new.measures + 1 ≡ unknown_count self.old.measures }
        ensures same { result ≡ false → self.new.measures ≡ self.old.measures }
        ensures stuck { result ≡ false → IsStuck self.old.members self.old.measures i }
    {
        if self.measures[i].is_some() {
            return false;
        }
        match measured(&self.members[i].1, self) {
            Some(measure) => {
                let head = self.head(i, measure);
                self.measures[i] = Some(measure);
                self.heads[i] = head;
                true
            }
            None => false,
        }
    }

    /// The place of the evaluator at the end of the references from the one at an index, which can be measured.
    fn head(&self, i: usize, measure: Measure) -> usize
        requires within { i < length self.now.members }
        requires found { HoldsAt (λ m. measured (known (members_view self.now.members) self.now.measures) (view m.1) ≡ Some measure) self.now.members i }
        ensures { IsHead self.now.members i result }
    {
        let members = self.members;
        let Some(name) = reference_in(&members[i].1) else {
            return i;
        };
        match position_of(members, name) {
            Some(next) => self.heads[next],
            None => i,
        }
    }
}

/// The evaluators of a document, with the measure of each that has an inlined form. The others refer to a name that
/// there is none of, or lead back to themselves.
#[derive(Drop)]
pub struct Evaluators<'a> {
    pub(crate) table: Table<'a>,
}

impl<'a> Model for Evaluators<'a> {
    ghost use Rattle.std.specs.Prelude.{List, String};
    ghost use Rattle.std.specs.Coded.{codes};
    ghost use Rattle.std.specs.declared.alloc.Global.{Global};
    ghost use Rattle.flag_text.specs.contracts.tree.Tree as tree;
    ghost use Rattle.flag_text.specs.declared.tree.Tree.{Tree};
    ghost use Rattle.flag_references.specs.Table.{IsWhole};

    ghost Value = { List (String Global × Tree) };

    ghost coded = { Prim.hlevel (codes, tree.the_row.coded) };

    ghost view = { λ e. e.table.members };

    ghost invariant = { λ e. IsWhole e.table };
}

impl<'a> Evaluators<'a> {
    /// Measures the evaluators of a document, which takes about as long as reading them, in whatever order they stand.
    pub fn read(alloc: Global, members: &'a [(String, Tree)]) -> Result<Evaluators<'a>, AllocError>
        requires { members_are_tidy (members_view members.now) ≡ true }
        ensures { IfOk result (λ e. e ≡ members.entry.now) }
    {
        let measures = none_known(alloc, members.len())?;
        let heads = no_heads(alloc, members.len())?;
        let mut table = Table {
            members,
            measures,
            heads,
        };
        walk(alloc, &mut table)?;
        while table.pass() {}
        // A look into the table, by which a proof learns what holds of its fields.
        let _ = &table.measures;
        Ok(Evaluators { table })
    }
}

fn none_known(alloc: Global, count: usize) -> Result<Vec<Option<Measure>>, AllocError>
    ensures { IfOk result (λ v. v.items ≡ replicate count None) }
{
    let mut measures = Vec::with_capacity(alloc, count)?;
    for _ in 0..count {
        measures.push(None)?;
    }
    Ok(measures)
}

fn no_heads(alloc: Global, count: usize) -> Result<Vec<usize>, AllocError>
    ensures { IfOk result (λ v. length v.items ≡ count) }
{
    let mut heads = Vec::with_capacity(alloc, count)?;
    for _ in 0..count {
        heads.push(0)?;
    }
    Ok(heads)
}
