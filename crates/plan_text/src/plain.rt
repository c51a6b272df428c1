//! A file that was printed of a rule with its certificate, which is read without a tree.
ghost use Rattle.std.specs.Prelude.{◌≡◌, ◌≤◌, ◌<◌, ◌&&◌, false, length, Some, None, Ok, IfOk, IfErr, IfSome, OnOk};
ghost use Rattle.std.specs.Bool.{OnTrue};
ghost use Rattle.std.specs.Cmp.Lexicographic.{slice_cmp};
ghost use Rattle.std.specs.Map.{keys_of};
ghost use Rattle.std.specs.Ordering.{nat_cmp};
ghost use Rattle.std.specs.Str.{is_utf8};
ghost use Rattle.flag_text.specs.Reading.{tree_of};
ghost use Rattle.flag_text.specs.Shape.{is_whole, items_are_whole};
ghost use Rattle.transport_core.specs.Certificate.{alpha_row, alpha_view, beta_row, beta_view, certificate_view};
ghost use Rattle.transport_core.specs.Groups.{group_cmp};
ghost use Rattle.plan_text.specs.Answer.{emit, FitsFile, planned_view};
ghost use Rattle.transport_core.specs.WrittenCertificate.{items_by, alpha_written, beta_written, has_whole_numbers};
ghost use Rattle.plan_text.specs.PlanFile.{planned_written, rises, planned_of, answer_of, IsWhole, max_plan};
ghost use Rattle.plan_text.specs.declared.fault.PlanFileFault.TheVariants.{WantOfMemory};

use crate::fault::PlanFileFault;
use crate::order::{alpha_rises, beta_rises};
use crate::planned::Planned;
use crate::print::planned_text;
use crate::scan::scan;
use bucket_core::Rule;
use flag_text::{MAX_WHOLE, is_in_range};
use limits::FILE_BYTES;
use simdutf8::basic;
use std::alloc::{AllocError, Global};
use transport_core::Certificate;

/// Costs are below it.
pub(crate) const COSTS: u64 = MAX_WHOLE + 1;

/// The answer of bytes that were printed of a rule with its certificate, with or without a line end. Of any others there may
/// be none, and takes no memory of more than 67108864 or that are not UTF-8.
pub(crate) fn plain_of(alloc: Global, bytes: &[u8]) -> Result<Option<Planned>, PlanFileFault>
    ensures read { IfOk result (λ o. IfSome o (λ p. answer_of bytes.now ≡ Ok (planned_view p))) }
    ensures whole { IfOk result (λ o. IfSome o (λ p. IsWhole (planned_view p))) }
    ensures fault { IfErr result (λ e. e ≡ WantOfMemory) }
    ensures large { max_plan < length bytes.now → result ≡ Ok None }
    ensures no_text { is_utf8 bytes.now ≡ false → result ≡ Ok None }
{
    if bytes.len() > FILE_BYTES {
        return Ok(None);
    }
    match basic::from_utf8(bytes) {
        Ok(text) => plain_answer(alloc, text),
        Err(_) => Ok(None),
    }
}

fn plain_answer(alloc: Global, text: &str) -> Result<Option<Planned>, PlanFileFault>
    requires { length text.now ≤ max_plan }
    ensures read { IfOk result (λ o. IfSome o (λ p. answer_of text.now ≡ Ok (planned_view p))) }
    ensures whole { IfOk result (λ o. IfSome o (λ p. IsWhole (planned_view p))) }
    ensures fault { IfErr result (λ e. e ≡ WantOfMemory) }
{
    let Some((rule, certificate)) = scan(alloc, text)? else {
        return Ok(None);
    };
    if !is_sound(&rule, &certificate) {
        return Ok(None);
    }
    let planned = Planned::Emit(rule, certificate);
    if is_file_of(alloc, text.as_bytes(), &planned)? {
        Ok(Some(planned))
    } else {
        Ok(None)
    }
}

/// Whether what is printed of them would read as them.
fn is_sound(rule: &Rule, certificate: &Certificate) -> bool
    ensures whole { OnTrue result (IsWhole (emit rule.now (certificate_view certificate.now))) }
    ensures reads { OnTrue result (FitsFile (emit rule.now (certificate_view certificate.now))
        → planned_of (planned_written (emit rule.now (certificate_view certificate.now))) ≡ Some (emit rule.now (certificate_view certificate.now))) }
{
    // Called for what its contract says: a rule's total, so that a file can hold each weight.
    let _total = rule.total();
    if !rule.is_canonical() {
        return false;
    }
    if !has_whole_numbers(certificate) {
        return false;
    }
    is_ordered(certificate)
}

fn is_ordered(certificate: &Certificate) -> bool
    ensures { result ≡ (rises group_cmp (keys_of (alpha_view certificate.now.alpha.items)) && rises (slice_cmp nat_cmp) (keys_of (beta_view certificate.now.beta.items))) }
{
    alpha_rises(certificate.alpha.as_slice()) && beta_rises(certificate.beta.as_slice())
}

/// Whether a file can hold the numbers.
fn has_whole_numbers(certificate: &Certificate) -> bool
    ensures { result ≡ has_whole_numbers (certificate_view certificate.now) }
{
    certificate.cost < COSTS
        && alpha_is_whole(certificate.alpha.as_slice())
        && beta_is_whole(certificate.beta.as_slice())
}

fn alpha_is_whole(alpha: &[(String, u32, i64)]) -> bool
    ensures { result ≡ items_are_whole (items_by alpha_written (alpha_view alpha.now)) }
{
    for row in alpha {
        if !is_whole_alpha(row) {
            return false;
        }
    }
    true
}

fn is_whole_alpha(row: &(String, u32, i64)) -> bool
    ensures { result ≡ is_whole (alpha_written (alpha_row row.now)) }
{
    let (_, count, n) = row;
    is_in_range(i64::from(*count)) && is_in_range(*n)
}

fn beta_is_whole(beta: &[(String, i64)]) -> bool
    ensures { result ≡ items_are_whole (items_by beta_written (beta_view beta.now)) }
{
    for row in beta {
        if !is_whole_beta(row) {
            return false;
        }
    }
    true
}

fn is_whole_beta(row: &(String, i64)) -> bool
    ensures { result ≡ is_whole (beta_written (beta_row row.now)) }
{
    is_in_range(row.1)
}

/// Whether the bytes are those that are printed of an answer, alone or as a line.
fn is_file_of(alloc: Global, bytes: &[u8], planned: &Planned) -> Result<bool, AllocError>
    requires few { length bytes.now ≤ max_plan }
    requires whole { IsWhole (planned_view planned.now) }
    ensures tree { IfOk result (λ b. OnTrue b (tree_of bytes.now max_plan ≡ Ok (planned_written (planned_view planned.now)))) }
    ensures fits { OnOk result (FitsFile (planned_view planned.now)) }
{
    let printed = if bytes.last() == Some(&b'\n') {
        planned_line(alloc, planned)?
    } else {
        planned_text(alloc, planned)?
    };
    Ok(printed.as_slice() == bytes)
}

/// The text of an answer and a line end.
fn planned_line(alloc: Global, planned: &Planned) -> Result<Vec<u8>, AllocError>
    requires whole { IsWhole (planned_view planned.now) }
    ensures reads_back { IfOk result (λ v. length v.items ≤ max_plan → tree_of v.items max_plan ≡ Ok (planned_written (planned_view planned.now))) }
    ensures fits { OnOk result (FitsFile (planned_view planned.now)) }
{
    let mut text = planned_text(alloc, planned)?;
    text.push(b'\n')?;
    Ok(text)
}
