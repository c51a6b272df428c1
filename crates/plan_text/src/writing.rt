//! The tokens of the tree that is written for an answer, one behind another.
ghost use Rattle.std.specs.Prelude.{◌≡◌, ◌<◌, ◌^◌, ◌++◌, OnOk};
ghost use Rattle.std.specs.List.{AllByRecursion};
ghost use Rattle.json.specs.Tree.{json_tokens};
ghost use Rattle.flag_text.specs.Grammar.{written};
ghost use Rattle.flag_text.specs.Shape.{list, text};
ghost use Rattle.bucket_core.specs.Rule.{names_view};
ghost use Rattle.transport_core.specs.Certificate.{alpha_row, alpha_view, beta_row, beta_view, certificate_view};
ghost use Rattle.plan_text.specs.Answer.{emit, none_exists, FitsFile, planned_view};
ghost use Rattle.transport_core.specs.WrittenCertificate.{items_by, alpha_written, beta_written};
ghost use Rattle.plan_text.specs.PlanFile.{entry_written, planned_written};

use crate::planned::Planned;
use bucket_core::Rule;
use json::Writer;
use std::alloc::AllocError;
use transport_core::{Certificate, Cut, CutKind};

/// Writes an answer without a tree of it.
pub(crate) fn write_planned(out: &mut Writer, planned: &Planned) -> Result<(), AllocError>
    ensures ok { OnOk result (out.new.tokens ≡ out.old.tokens ++ json_tokens (written (planned_written (planned_view planned.now)))) }
    ensures before { out.new.before ≡ out.old.before }
    ensures fits { OnOk result (FitsFile (planned_view planned.now)) }
{
    match planned {
        Planned::Emit(rule, certificate) => write_rule(out, rule, certificate),
        Planned::NoneExists(cut) => write_set(out, cut),
    }
}

/// A rule beside its certificate, the members by name.
fn write_rule(out: &mut Writer, rule: &Rule, certificate: &Certificate) -> Result<(), AllocError>
    ensures ok { OnOk result (out.new.tokens ≡ out.old.tokens ++ json_tokens (written (planned_written (emit rule.now (certificate_view certificate.now))))) }
    ensures before { out.new.before ≡ out.old.before }
    ensures fits { OnOk result (FitsFile (emit rule.now (certificate_view certificate.now))) }
{
    // Called for what its contract says: a rule's total, which a file can hold.
    let _total = rule.total();
    out.begin_object()?;
    out.key("alpha")?;
    write_alpha(out, certificate.alpha.as_slice())?;
    out.key("beta")?;
    write_beta(out, certificate.beta.as_slice())?;
    out.key("cost")?;
    out.u64(certificate.cost)?;
    out.key("plan")?;
    out.u64(1)?;
    out.key("rule")?;
    write_entries(out, rule)?;
    out.end_object()
}

/// The names of a set, with the form and the side that tell its kind.
fn write_set(out: &mut Writer, cut: &Cut) -> Result<(), AllocError>
    ensures ok { OnOk result (out.new.tokens ≡ out.old.tokens ++ json_tokens (written (planned_written (none_exists cut.now.kind (names_view cut.now.names.items))))) }
    ensures before { out.new.before ≡ out.old.before }
{
    let names = cut.names.as_slice();
    match cut.kind {
        CutKind::Over => write_over(out, names),
        CutKind::Under => write_under(out, names),
    }
}

fn write_over(out: &mut Writer, names: &[String]) -> Result<(), AllocError>
    ensures ok { OnOk result (out.new.tokens ≡ out.old.tokens ++ json_tokens (written (planned_written (none_exists CutKind.Over (names_view names.now))))) }
    ensures before { out.new.before ≡ out.old.before }
{
    out.begin_object()?;
    out.key("none")?;
    write_names(out, names)?;
    out.key("plan")?;
    out.u64(1)?;
    out.end_object()
}

fn write_under(out: &mut Writer, names: &[String]) -> Result<(), AllocError>
    ensures ok { OnOk result (out.new.tokens ≡ out.old.tokens ++ json_tokens (written (planned_written (none_exists CutKind.Under (names_view names.now))))) }
    ensures before { out.new.before ≡ out.old.before }
{
    out.begin_object()?;
    out.key("none")?;
    write_names(out, names)?;
    out.key("plan")?;
    out.u64(2)?;
    out.key("side")?;
    out.string("under")?;
    out.end_object()
}

/// The numbers of the groups.
fn write_alpha(out: &mut Writer, alpha: &[(String, u32, i64)]) -> Result<(), AllocError>
    ensures ok { OnOk result (out.new.tokens ≡ out.old.tokens ++ json_tokens (written (list (items_by alpha_written (alpha_view alpha.now))))) }
    ensures before { out.new.before ≡ out.old.before }
    ensures counts { OnOk result (AllByRecursion (λ a. a.0.1 < 2 ^ 32) (alpha_view alpha.now)) }
{
    out.begin_array()?;
    for row in alpha {
        write_alpha_row(out, row)?;
    }
    out.end_array()
}

fn write_alpha_row(out: &mut Writer, row: &(String, u32, i64)) -> Result<(), AllocError>
    ensures ok { OnOk result (out.new.tokens ≡ out.old.tokens ++ json_tokens (written (alpha_written (alpha_row row.now)))) }
    ensures before { out.new.before ≡ out.old.before }
    ensures small { OnOk result (row.now.1 < 2 ^ 32) }
{
    let (name, count, n) = row;
    out.begin_array()?;
    out.string(name.as_str())?;
    out.u64(u64::from(*count))?;
    out.i64(*n)?;
    out.end_array()
}

/// The numbers of the names.
fn write_beta(out: &mut Writer, beta: &[(String, i64)]) -> Result<(), AllocError>
    ensures ok { OnOk result (out.new.tokens ≡ out.old.tokens ++ json_tokens (written (list (items_by beta_written (beta_view beta.now))))) }
    ensures before { out.new.before ≡ out.old.before }
{
    out.begin_array()?;
    for row in beta {
        write_beta_row(out, row)?;
    }
    out.end_array()
}

fn write_beta_row(out: &mut Writer, row: &(String, i64)) -> Result<(), AllocError>
    ensures ok { OnOk result (out.new.tokens ≡ out.old.tokens ++ json_tokens (written (beta_written (beta_row row.now)))) }
    ensures before { out.new.before ≡ out.old.before }
{
    let (name, n) = row;
    out.begin_array()?;
    out.string(name.as_str())?;
    out.i64(*n)?;
    out.end_array()
}

/// The entries of the rule.
fn write_entries(out: &mut Writer, rule: &Rule) -> Result<(), AllocError>
    ensures ok { OnOk result (out.new.tokens ≡ out.old.tokens ++ json_tokens (written (list (items_by entry_written rule.now)))) }
    ensures before { out.new.before ≡ out.old.before }
{
    out.begin_array()?;
    for (name, weight) in rule.entries() {
        write_entry(out, name, weight)?;
    }
    out.end_array()
}

fn write_entry(out: &mut Writer, name: &str, weight: u64) -> Result<(), AllocError>
    ensures ok { OnOk result (out.new.tokens ≡ out.old.tokens ++ json_tokens (written (entry_written (name.now, weight)))) }
    ensures before { out.new.before ≡ out.old.before }
{
    out.begin_array()?;
    out.string(name)?;
    out.u64(weight)?;
    out.end_array()
}

fn write_names(out: &mut Writer, names: &[String]) -> Result<(), AllocError>
    ensures ok { OnOk result (out.new.tokens ≡ out.old.tokens ++ json_tokens (written (list (items_by text (names_view names.now))))) }
    ensures before { out.new.before ≡ out.old.before }
{
    out.begin_array()?;
    for name in names {
        out.string(name.as_str())?;
    }
    out.end_array()
}
