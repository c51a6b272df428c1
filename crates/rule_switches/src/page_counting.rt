//! Counting the inputs of a page of a book file.
ghost use Rattle.std.specs.Prelude.{◌<◌, ◌^◌, ◌≡◌, IfOk};
ghost use Rattle.book_core.specs.Reading.{leading, lines_of};
ghost use Rattle.rule_switches.specs.Counted.{IsCounted, Reads};
ghost use Rattle.rule_switches.specs.Found.{users_in};
ghost use Rattle.rule_switches.specs.Switches.{AreSwitches, rows_view};

use crate::{Counting, Switch};
use bucket_core::Rule;
use page_tally::first_line;
use std::alloc::{AllocError, Global};

/// The inputs that stand first among the bytes, and the changes that they make; with the bytes behind them.
#[derive(Drop)]
pub(crate) struct Counted<'a> {
    pub(crate) inputs: u64,
    pub(crate) users: u64,
    pub(crate) rows: Vec<Switch>,
    pub(crate) rest: &'a [u8],
}

/// What two rules do to the inputs that stand first among the bytes of a book file. Cost: each input is hashed once.
#[tactic(auto, using(crate::proofs::Reading::switches_so, crate::proofs::Reading::counted_so))]
pub(crate) fn switched_first<'a>(
    alloc: Global,
    before: &Rule,
    after: &Rule,
    bytes: &'a [u8],
) -> Result<Counted<'a>, AllocError>
    ensures switches { IfOk result (λ c. AreSwitches before.now after.now (leading (lines_of bytes.now)) (rows_view c.rows.items)) }
    ensures counted { IfOk result (λ c. IsCounted bytes.now c) }
{
    let (counting, rest) = counted_first(alloc, before, after, bytes)?;
    let inputs = counting.inputs();
    let rows = counting.switches(alloc)?;
    Ok(Counted {
        inputs,
        users: users_in(rows.as_slice()),
        rows,
        rest,
    })
}

/// The inputs that stand first among the bytes, counted by two rules, with the bytes behind them.
#[tactic(auto, using(crate::proofs::Reading::none_taken, crate::proofs::Reading::one_taken, crate::proofs::Reading::ends_file, crate::proofs::Reading::ends_page))]
fn counted_first<'b, 'a>(
    alloc: Global,
    before: &'b Rule,
    after: &'b Rule,
    bytes: &'a [u8],
) -> Result<(Counting<'b>, &'a [u8]), AllocError>
    ensures { IfOk result (λ r. Reads before.entry.now after.entry.now bytes.now r.1.now r.0) }
{
    let mut counting = Counting::of_inputs(alloc, before, after)?;
    let mut rest = bytes;
    loop {
        let Some((line, behind)) = first_line(alloc, rest)? else {
            return Ok((counting, rest));
        };
        let Some(input) = line.input() else {
            return Ok((counting, rest));
        };
        counting.add_input(input);
        rest = behind;
    }
}

/// How many inputs change in all.
pub(crate) fn users_in(rows: &[Switch]) -> u64
    requires { users_in (rows_view rows.now) < 2 ^ 64 }
    ensures { result ≡ users_in (rows_view rows.now) }
{
    rows.iter().map(|row| row.users).sum()
}
