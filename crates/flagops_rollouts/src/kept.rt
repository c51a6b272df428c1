//! A document with the rule of a right answer at the site of its request, and all else as it was.
ghost use Rattle.std.specs.Prelude.{◌≡◌, [], ◌∷◌, false, is_ok, true, IfErr, IfOk, Ok, option_map};
ghost use Rattle.flag_defs.specs.Flags.{flags_view};
ghost use Rattle.flag_defs.specs.Floats.{MeansAs};
ghost use Rattle.kept_document.specs.Kept.{IsRefused, KeptAt, place_in};
ghost use Rattle.plan_text.specs.Answer.{planned_view};
ghost use Rattle.price_core.specs.Request.{asked_of};
ghost use Rattle.flagops_rollouts.specs.Calls.{apply_itself};
ghost use Rattle.flagops_rollouts.specs.Keep.{IsEdited, IsKeptAt, IsKeptFor, MayBeKept, kept_view, some_view};
ghost use Rattle.flagops_rollouts.specs.Subjects.{is_of_kept_answer, is_of_kept_document, is_of_kept_request};
ghost use Rattle.flagops_files.specs.Question.{question_view};
ghost use Rattle.flagops_rollouts.specs.Refusal.{ComesFrom, GivesOne, is_file_fault, TellsOf, TellsOfOne};
ghost use Rattle.flagops_files.specs.Told.{file};

use crate::keep_refusal::KeepRefusal;
use crate::refusal::{Refused, RolloutRefusal};
use crate::verifying::{Paths, lines_on, verified};
use bucket_core::Rule;
use flag_defs::Flags;
use flagops_files::Question;
use flagops_shell::Remark;
use flagops_words::Factor;
use kept_document::{KeepFault, keep};
use plan_text::Planned;
use rollout_diagnostics::{of_applied, of_kept};
use std::alloc::Global;
use std::str;
use std::thread::Threads;

/// The text of the document with the rule of the answer, where the answer is right and has a rule. The document may have floats,
/// or may not.
#[tactic(auto, using(flagops_files::proofs::Told::says, crate::proofs::Edited::asked_there))]
pub fn kept(
    rt: &(impl Threads + Sync),
    alloc: Global,
    document: &str,
    paths: Paths<'_>,
    question: &Question,
    planned: &Planned,
    refine: Option<Factor>,
    floats: bool,
) -> Result<Option<Vec<u8>>, Refused>
    ensures exact { GivesOne kept_view result (MayBeKept floats (option_map (λ m. m.number) refine) question.now.document.items (question_view question.now) (planned_view planned.now)) }
    ensures calls { ComesFrom apply_itself result }
    ensures read { is_file_fault result ≡ false }
    ensures names { TellsOfOne ((file paths.entry.request.now, is_of_kept_request) ∷ (file paths.entry.plan.now, is_of_kept_answer) ∷ (file document.now, is_of_kept_document) ∷ []) result }
{
    match verified(rt, alloc, question, planned, refine) {
        Ok(()) => match planned {
            Planned::Emit(rule, _) => {
                let text = kept_for(alloc, document, paths.plan, question, rule, floats)?;
                Ok(Some(text))
            }
            Planned::NoneExists(_) => Ok(None),
        },
        Err(fault) => {
            let lines = lines_on(alloc, paths, question, planned, refine, &fault);
            Err(Refused {
                refusal: RolloutRefusal::Keep(KeepRefusal::Verify(fault)),
                remark: Remark::of(lines),
            })
        }
    }
}

/// The text of the document with a rule at the site of the request.
fn kept_for(
    alloc: Global,
    document: &str,
    plan: &str,
    question: &Question,
    rule: &Rule,
    floats: bool,
) -> Result<Vec<u8>, Refused>
    requires { is_ok (asked_of question.now.request) ≡ true }
    ensures exact { GivesOne some_view result (IsKeptFor floats question.now.document.items (question_view question.now) rule.now) }
    ensures calls { ComesFrom apply_itself result }
    ensures read { is_file_fault result ≡ false }
    ensures names { TellsOfOne ((file plan.now, is_of_kept_answer) ∷ (file document.now, is_of_kept_document) ∷ []) result }
{
    match question.request.asked() {
        Ok(request) => {
            let (flags, bytes) = (&question.flags, question.document.as_slice());
            kept_at(
                alloc,
                document,
                plan,
                bytes,
                flags,
                request.flag(),
                request.site(),
                rule,
                floats,
            )
        }
        // A request that was verified asks something.
        Err(_) => unreachable!(),
    }
}

/// The text with a rule at a site of a flag, of bytes that mean these flags.
#[tactic(auto, using(flagops_files::proofs::Told::says))]
pub fn kept_at(
    alloc: Global,
    document: &str,
    plan: &str,
    bytes: &[u8],
    flags: &Flags,
    key: &str,
    site: u32,
    rule: &Rule,
    floats: bool,
) -> Result<Vec<u8>, Refused>
    ensures exact { GivesOne some_view result (IsKeptAt floats bytes.now (flags_view flags.now) key.now site rule.now) }
    ensures calls { ComesFrom apply_itself result }
    ensures read { is_file_fault result ≡ false }
    ensures names { TellsOfOne ((file plan.now, is_of_kept_answer) ∷ (file document.now, is_of_kept_document) ∷ []) result }
{
    match rollout::apply(alloc, flags, key, site, rule) {
        Ok(wanted) => edited(
            alloc, document, bytes, flags, key, site, rule, &wanted, floats,
        ),
        Err(fault) => Err(Refused {
            refusal: RolloutRefusal::Apply(fault),
            remark: Remark::of(of_applied(alloc, plan, flags, key, site, rule, fault)),
        }),
    }
}

/// The same, which then means the flags that are wanted.
#[tactic(auto, using(flagops_files::proofs::Told::says))]
fn edited(
    alloc: Global,
    document: &str,
    bytes: &[u8],
    flags: &Flags,
    key: &str,
    site: u32,
    rule: &Rule,
    wanted: &Flags,
    floats: bool,
) -> Result<Vec<u8>, Refused>
    ensures exact { GivesOne some_view result (IsEdited floats bytes.now (place_in floats bytes.now (flags_view flags.now) key.now site) rule.now (flags_view wanted.now)) }
    ensures calls { ComesFrom apply_itself result }
    ensures read { is_file_fault result ≡ false }
    ensures names { TellsOf (file document.now) result }
{
    match kept_text(alloc, bytes, flags, key, site, rule, wanted, floats) {
        Ok(text) => Ok(text),
        Err(fault) => Err(Refused {
            refusal: RolloutRefusal::Keep(KeepRefusal::Document(fault)),
            remark: Remark::of(of_kept(alloc, document, bytes, flags, key, site, fault)),
        }),
    }
}

/// The same; or why there is none.
fn kept_text(
    alloc: Global,
    bytes: &[u8],
    flags: &Flags,
    key: &str,
    site: u32,
    rule: &Rule,
    wanted: &Flags,
    floats: bool,
) -> Result<Vec<u8>, KeepFault>
    ensures kept { IfOk result (λ v. KeptAt bytes.now (place_in floats bytes.now (flags_view flags.now) key.now site) rule.now v.items) }
    ensures means { IfOk result (λ v. MeansAs floats v.items (Ok (flags_view wanted.now))) }
    ensures refused { IfErr result (IsRefused floats bytes.now (place_in floats bytes.now (flags_view flags.now) key.now site) rule.now (flags_view wanted.now)) }
{
    match str::from_utf8(bytes) {
        Ok(document) => keep(alloc, document, flags, key, site, rule, wanted, floats),
        // Bytes that are no text mean no flags.
        Err(_) => Err(KeepFault::Differs),
    }
}
