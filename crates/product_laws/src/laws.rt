//! What holds of the definitions of the commands.
ghost use Rattle.product_laws.specs.Commands.{FilesStay, OutcomesStay, RemarksStay};
ghost use Rattle.product_laws.specs.Evaluated.{DrivenStay, ResolvedStay};
ghost use Rattle.product_laws.specs.Filters.{ChecksStay, RecordsStay, ServedStay, ShownStay, TalliesStay};
ghost use Rattle.product_laws.specs.Kept.{KeptStay};
ghost use Rattle.product_laws.specs.Pictures.{PictureRemarksStay, PicturesStay, PlannedPicturesStay, PlannedRemarksStay, RampPicturesStay};
ghost use Rattle.product_laws.specs.RampRemarks.{KeptRemarksStay, RampRemarksStay, StepRemarksStay, VerdictRemarksStay};
ghost use Rattle.product_laws.specs.Ramps.{KeptStepsStay, RampVerdictsStay, RampsStay, StepsStay};
ghost use Rattle.product_laws.specs.Remarks.{CheckRemarksStay, CompareRemarksStay};
ghost use Rattle.product_laws.specs.Rollouts.{AppliedStay, ComparedStay, PlansStay, VerdictsStay};

/// With `--floats` or without it `plan`, `verify`, `apply` and `compare` report the same on documents whose numbers are all whole.
/// A law: it computes nothing.
pub fn floats_change_no_rollout()
    ensures plans { PlansStay }
    ensures verdicts { VerdictsStay }
    ensures applied { AppliedStay }
    ensures compared { ComparedStay }
{
    crate::documents_stay();
}

/// The same of `apply --keep`, with the document that it writes. A law: it computes nothing.
pub fn floats_change_no_kept_rule()
    ensures { KeptStay }
{
    crate::documents_stay();
    crate::whole_numbers_stay();
}

/// The same of `check`, of `record` with all that it shows, of `tally`, and of `serve` with all that it shows. A law: it computes
/// nothing.
pub fn floats_change_no_filter()
    ensures checks { ChecksStay }
    ensures records { RecordsStay }
    ensures tallies { TalliesStay }
    ensures served { ServedStay }
    ensures shown { ShownStay }
{
    crate::documents_stay();
}

/// The same of `resolve`, and of `drive` with the book that it writes. A law: it computes nothing.
pub fn floats_change_no_evaluation()
    ensures resolved { ResolvedStay }
    ensures driven { DrivenStay }
{
    crate::documents_stay();
    flagops_drive::floats_change_nothing();
    flag_resolve::floats_are_of_their_kind();
}

/// All that `resolve`, `verify`, `apply`, `apply --keep`, `plan` and `drive` come to: what they may report, what a person may be
/// told beside that, and how they may leave the files, is the same with `--floats` and without it, if the numbers of the document
/// are all whole. A law: it computes nothing.
pub fn floats_change_no_command()
    ensures outcomes { OutcomesStay }
    ensures remarks { RemarksStay }
    ensures files { FilesStay }
{
    crate::documents_stay();
    crate::whole_numbers_stay();
    flagops_drive::floats_change_nothing();
    flag_resolve::floats_are_of_their_kind();
}

/// What a person may be told beside the reports of `compare` and `check` is the same, too. A law: it computes nothing.
pub fn floats_change_no_remark()
    ensures compared { CompareRemarksStay }
    ensures checks { CheckRemarksStay }
{
    crate::documents_stay();
}

/// The same of `ramp`, `verify-ramp`, `apply --step`, and `apply --step --keep` with the document that it writes. A law: it
/// computes nothing.
pub fn floats_change_no_ramp()
    ensures ramps { RampsStay }
    ensures verdicts { RampVerdictsStay }
    ensures steps { StepsStay }
    ensures kept { KeptStepsStay }
{
    crate::documents_stay();
    crate::whole_numbers_stay();
}

/// The same of what a person may be told beside their reports. A law: it computes nothing.
pub fn floats_change_no_ramp_remark()
    ensures ramps { RampRemarksStay }
    ensures verdicts { VerdictRemarksStay }
    ensures steps { StepRemarksStay }
    ensures kept { KeptRemarksStay }
{
    crate::documents_stay();
}

/// The same of `picture`, `picture --ramp` and `plan --picture`, and of what a person may be told beside their reports. A law: it
/// computes nothing.
pub fn floats_change_no_picture()
    ensures pictures { PicturesStay }
    ensures planned { PlannedPicturesStay }
    ensures ramps { RampPicturesStay }
    ensures remarks { PictureRemarksStay }
    ensures planned_remarks { PlannedRemarksStay }
{
    crate::documents_stay();
}
