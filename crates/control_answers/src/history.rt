//! What was applied, and when.
ghost use Rattle.std.specs.Prelude.{◌≡◌, ◌++◌, ◌∷◌, [], filter, IfOk, OnOk, string_bytes};
ghost use Rattle.bucket_core.specs.Rule.{entries_view};
ghost use Rattle.control_flags.specs.Sites.{rule_text};
ghost use Rattle.byte_streams.specs.Lines.{lines_view};
ghost use Rattle.control_answers.specs.History.{IsHistory, cost_text, is_row, row_text, row_view, rows_from, rules_text, who_text};

use crate::texts::{comma_if, quoted};
use byte_streams::cut_line;
use control_flags::push_rule;
use flag_text::{TextFault, read_tree};
use std::alloc::{AllocError, Global};

/// The most bytes of a row that is told.
const MOST_ROW: usize = 4194304;

/// A plan that was applied.
#[derive(Clone, Copy)]
pub struct AppliedRow<'a> {
    /// When, as RFC 3339 has it.
    pub time: &'a str,
    /// By whom, as the request says.
    pub who: &'a str,
    /// The key of the flag.
    pub flag: &'a str,
    /// The site of the flag.
    pub site: u32,
    /// The entries of the rule that stood there.
    pub old: &'a [(String, u64)],
    /// Those of the rule of the plan.
    pub new: &'a [(String, u64)],
    /// What the plan costs the recorded inputs.
    pub cost: u64,
    /// The number of recorded inputs.
    pub inputs: u64,
}

/// The line of the history that tells a plan that was applied, with its line feed.
pub fn history_row(alloc: Global, row: &AppliedRow<'_>) -> Result<String, AllocError>
    ensures { IfOk result (λ s. string_bytes s ≡ row_text (row_view row.now)) }
{
    let rules = rules_text(alloc, row)?;
    let who = who_text(alloc, row)?;
    let mut text = cost_text(alloc, row)?;
    text.push_str(rules.as_str())?;
    text.push_str(who.as_str())?;
    Ok(text)
}

/// What the plan costs how many inputs of which flag.
fn cost_text(alloc: Global, row: &AppliedRow<'_>) -> Result<String, AllocError>
    ensures { IfOk result (λ s. string_bytes s ≡ cost_text (row_view row.now)) }
{
    let (cost, inputs) = (row.cost, row.inputs);
    let flag = quoted(alloc, row.flag)?;
    format!(in alloc; "{{\"cost\":{cost},\"flag\":{flag},\"inputs\":{inputs}")
}

/// The rule of the plan, and that which stood at the site.
fn rules_text(alloc: Global, row: &AppliedRow<'_>) -> Result<String, AllocError>
    ensures { IfOk result (λ s. string_bytes s ≡ rules_text (row_view row.now)) }
{
    let site = row.site;
    let new = rule_text(alloc, row.new)?;
    let old = rule_text(alloc, row.old)?;
    format!(in alloc; ",\"new\":{new},\"old\":{old},\"site\":{site}")
}

/// When it was applied, and by whom.
fn who_text(alloc: Global, row: &AppliedRow<'_>) -> Result<String, AllocError>
    ensures { IfOk result (λ s. string_bytes s ≡ who_text (row_view row.now)) }
{
    let time = quoted(alloc, row.time)?;
    let who = quoted(alloc, row.who)?;
    format!(in alloc; ",\"time\":{time},\"who\":{who}}}\n")
}

/// The entries of a rule, as JSON has them.
fn rule_text(alloc: Global, entries: &[(String, u64)]) -> Result<String, AllocError>
    ensures { IfOk result (λ s. string_bytes s ≡ rule_text (entries_view entries.now)) }
{
    let mut out = String::new(alloc);
    push_rule(alloc, &mut out, entries)?;
    Ok(out)
}

/// The list of the rows of a history, the newest first. A line that is no JSON is passed over, as is what stands behind the last
/// line feed.
pub fn history_answer(alloc: Global, history: &[u8]) -> Result<Vec<u8>, AllocError>
    ensures { IfOk result (λ v. IsHistory history.now v.items) }
{
    let mut rows = Vec::new(alloc);
    let mut rest = history;
    'cuts: while let Some((line, behind)) = cut_line(rest) {
        add_row(alloc, &mut rows, line)?;
        rest = behind;
    }
    listed(alloc, rows.as_slice())
}

/// Adds a line where it is a row.
fn add_row<'a>(alloc: Global, rows: &mut Vec<&'a [u8]>, line: &'a [u8]) -> Result<(), AllocError>
    ensures { OnOk result (lines_view rows.new.items ≡ lines_view rows.old.items ++ filter is_row (line.now ∷ [])) }
{
    if is_row(alloc, line)? {
        rows.push(line)?;
    }
    Ok(())
}

/// Whether a line is JSON.
fn is_row(alloc: Global, line: &[u8]) -> Result<bool, AllocError>
    ensures { IfOk result (λ is. is ≡ is_row line.now) }
{
    match read_tree(alloc, line, MOST_ROW) {
        Ok(_) => Ok(true),
        Err(TextFault::WantOfMemory) => Err(AllocError),
        Err(_) => Ok(false),
    }
}

/// The rows from the last to the first, as a list.
fn listed(alloc: Global, rows: &[&[u8]]) -> Result<Vec<u8>, AllocError>
    ensures { IfOk result (λ v. v.items ≡ rows_from (lines_view rows.now)) }
{
    let mut out = Vec::new(alloc);
    out.extend_from_slice("[".as_bytes())?;
    let mut later = false;
    'rows: for i in (0..rows.len()).rev() {
        out.extend_from_slice(comma_if(later).as_bytes())?;
        out.extend_from_slice(rows[i])?;
        later = true;
    }
    out.extend_from_slice("]\n".as_bytes())?;
    Ok(out)
}
