//! The command `tally`.
ghost use Rattle.std.specs.Prelude.{◌≡◌, ◌<◌, ◌≤◌, ◌||◌, false, true, is_some, map, option_map, IfErr, IfOk, IfSome, Ok, string_bytes};
ghost use Rattle.flag_defs.specs.Flags.{flags_view};
ghost use Rattle.flag_text.specs.Outcome.{GivesUnless};
ghost use Rattle.rollout.specs.Lawful.{place_of};
ghost use Rattle.flagops_shell.specs.Console.{IsOpen};
ghost use Rattle.flagops_shell.specs.Diagnostic.{Says};
ghost use Rattle.flagops_shell.specs.Ending.{Ends, ShowsUnread};
ghost use Rattle.flagops_shell.specs.Running.{MayRun};
ghost use Rattle.flagops_filters.specs.Command.{tally_description};
ghost use Rattle.flagops_filters.specs.Ended.{AnswersTally, TellsTally, UnreadTally};
ghost use Rattle.flagops_filters.specs.Place.{PrintsTally, place_view, target_view};
ghost use Rattle.flagops_filters.specs.Refusal.{is_unread, line_of};
ghost use Rattle.flagops_filters.specs.Beside.{IsBesideTally, Reads, has_none, is_beside, tally_line, tally_lines};
ghost use Rattle.flagops_filters.specs.Remarks.{NamesInput, NamesPath, NamesRefused, RemarksBy, tally_remark};
ghost use Rattle.flagops_filters.specs.Report.{GivesOne, is_file_fault};
ghost use Rattle.flagops_filters.specs.Stopping.{IsStopped};
ghost use Rattle.flagops_filters.specs.Tally.{IsTallyIn, IsTallyOver, IsTallyReport, points_of, site_of, tally_call, target_of};
ghost use Rattle.flagops_filters.specs.declared.refusal.FilterRefusal.TheVariants.{Flag, Tally};
ghost use Rattle.flagops_filters.specs.Words.{tallying_view};

use crate::asked::Tallying;
use crate::misread::no_note_lines;
use crate::opening::Opening;
use crate::refusal::FilterRefusal;
use crate::remarks::{flag_line, input_line, marked_line, unknown_lines};
use crate::target::Target;
use crate::words::read_tally;
use book_core::Page;
use bucket_core::total_weight;
use byte_streams::Inlet;
use file_diagnostics::Ends as FileEnds;
use flag_defs::Flags;
use flag_text::Outlet;
use flagops_files::load_flags_as;
use flagops_shell::{
    Console, FileSet, Outcome, Refused, Remark, Status, refuse, report, report_usage,
};
use flagops_words::factor_of;
use logic_ast::{Site, site};
use note_streams::{StreamTally, TallyStop, tally_stream};
use note_tallies::{FilterFault, PageTally, print_tally};
use rollout::RolloutFault;
use std::alloc::{AllocError, Global};
use std::convert::AsStr;

/// The most points of a tally.
const MOST_POINTS: u128 = note_tallies::MOST_POINTS as u128;

/// Does what the words after the program's name ask of `tally`, which is the first of them, and gives the status to end with.
/// It prints the tally of the note lines of the standard input that are of the page of a site, or the line of a refusal with
/// status 1.
pub fn tally<R, S, I, F, O, E>(
    rt: &R,
    words: &[S],
    input: &mut I,
    files: &mut F,
    console: &mut Console<O, E>,
) -> u8
where
    R: AllocGlobal,
    S: AsStr,
    I: Inlet + Opening,
    F: FileSet,
    O: Outlet,
    E: Outlet,
    requires in_whole { I.is_broken input.old ≡ false }
    requires open { IsOpen console.old }
    ensures answers { AnswersTally console.old console.new result (map S.text words.now)
        (F.holding files.old) (F.holding files.new) (F.has_failed files.new) (I.bytes input.old) (I.is_broken input.new) }
    ensures unread { UnreadTally console.old console.new result (map S.text words.now) (F.has_failed files.old) (F.has_failed files.new) }
    ensures tells { TellsTally console.old console.new result (map S.text words.now) }
    ensures kept { F.holding files.new ≡ F.holding files.old }
{
    let alloc = rt.alloc();
    match read_tally(alloc, words) {
        Ok(asked) => answered(alloc, &asked, input, files, console),
        Err(error) => report_usage(alloc, &error, console),
    }
}

/// Writes what is tallied of what is asked for.
fn answered<I: Inlet + Opening, F: FileSet, O: Outlet, E: Outlet>(
    alloc: Global,
    asked: &Tallying<'_>,
    input: &mut I,
    files: &mut F,
    console: &mut Console<O, E>,
) -> u8
    requires in_whole { I.is_broken input.old ≡ false }
    requires open { IsOpen console.old }
    ensures answers { IfSome (F.holding files.old) (λ at. IfSome (I.bytes input.old) (λ bytes. Ends console.old console.new result line_of (λ name. name ≡ tally_call) (tally_remark bytes asked.now.document.now)
        (MayRun (tally_description bytes (I.is_broken input.new)) is_unread (tallying_view asked.now) at (F.holding files.new) (F.has_failed files.new)))) }
    ensures unread { F.has_failed files.old ≡ false → F.has_failed files.new ≡ true → ShowsUnread console.old console.new result (λ name. name ≡ tally_call) }
    ensures kept { F.holding files.new ≡ F.holding files.old }
{
    match tallied(alloc, asked, input, files) {
        Ok(outcome) => report(console, &outcome),
        Err(refused) => refuse(alloc, refused, "tally", console),
    }
}

/// The tally of what is asked for.
fn tallied<I: Inlet + Opening, F: FileSet>(
    alloc: Global,
    asked: &Tallying<'_>,
    input: &mut I,
    files: &mut F,
) -> Result<Outcome, Refused<FilterRefusal>>
    requires { I.is_broken input.old ≡ false }
    ensures exact { IfSome (F.holding files.old) (λ at. IfSome (I.bytes input.old) (λ bytes. GivesOne result (IsTallyReport at (tallying_view asked.now) bytes (I.is_broken input.new)))) }
    ensures failed { F.has_failed files.new ≡ (F.has_failed files.old || is_file_fault result) }
    ensures kept { F.holding files.new ≡ F.holding files.old }
    ensures names { RemarksBy (NamesRefused asked.now.document.now) result }
    ensures notes { IfOk result (λ o. IfSome (I.bytes input.old) (λ bytes. IfSome o.remark (Says (IsBesideTally bytes o.text.items)))) }
{
    match load_flags_as(alloc, files, asked.document, asked.floats) {
        Ok(flags) => within(alloc, asked, &flags, input),
        Err(refused) => Err(Refused::of(refused)),
    }
}

/// The tally at a site of a flag of a document.
fn within<I: Inlet + Opening>(
    alloc: Global,
    asked: &Tallying<'_>,
    flags: &Flags,
    input: &mut I,
) -> Result<Outcome, Refused<FilterRefusal>>
    requires { I.is_broken input.old ≡ false }
    ensures exact { IfSome (I.bytes input.old) (λ bytes. GivesOne result (IsTallyIn (Ok (flags_view flags.now)) (tallying_view asked.now) bytes (I.is_broken input.new))) }
    ensures read { is_file_fault result ≡ false }
    ensures names { RemarksBy (NamesRefused asked.now.document.now) result }
    ensures notes { IfOk result (λ o. IfSome (I.bytes input.old) (λ bytes. IfSome o.remark (Says (IsBesideTally bytes o.text.items)))) }
{
    match target_of(alloc, flags, asked.key, asked.site, factor_of(asked.refine)) {
        Ok(target) => over(alloc, target, input),
        Err(fault) => Err(untallied(alloc, asked, flags, fault)),
    }
}

/// The tally of a stream.
fn over<I: Inlet + Opening>(
    alloc: Global,
    target: Target,
    input: &mut I,
) -> Result<Outcome, Refused<FilterRefusal>>
    requires { I.is_broken input.old ≡ false }
    ensures exact { IfSome (I.bytes input.old) (λ bytes. GivesOne result (IsTallyOver (target_view target) bytes (I.is_broken input.new))) }
    ensures stops { IfErr result (λ told. IsStopped told) }
    ensures notes { IfOk result (λ o. IfSome (I.bytes input.old) (λ bytes. IfSome o.remark (Says (IsBesideTally bytes o.text.items)))) }
{
    let Target { page, total, .. } = target;
    match tally_stream(alloc, page, total, input) {
        Ok(came) => printed(alloc, &came, input.opening(), input.first_bytes()),
        Err(stop) => Err(stopped(alloc, stop, input.opening(), input.first_bytes())),
    }
}

/// The file of a tally.
fn printed(
    alloc: Global,
    came: &StreamTally,
    opening: FileEnds,
    first_bytes: &[u8],
) -> Result<Outcome, Refused<FilterRefusal>>
    ensures prints { PrintsTally came.now result }
    ensures stops { IfErr result (λ told. IsStopped told) }
    ensures notes { IfOk result (λ o. IfSome o.remark (Says (Reads (tally_lines came.now.empty (has_none came.now.tally) came.now.torn)))) }
{
    match print_tally(alloc, &came.tally) {
        Ok(text) => Ok(Outcome {
            text: text.into_bytes(),
            status: Status::Done,
            remark: beside(alloc, came.empty, counts_nobody(&came.tally), came.torn),
        }),
        Err(AllocError) => {
            let stop = TallyStop::Filter(FilterFault::WantOfMemory);
            Err(stopped(alloc, stop, opening, first_bytes))
        }
    }
}

/// Whether a tally counts no input.
fn counts_nobody(tally: &PageTally) -> bool
    ensures { result ≡ has_none tally.now }
{
    tally.inputs == 0
}

/// What is told where there was no line at all, or none of the page, or bytes stood behind the last one.
fn beside(alloc: Global, empty: bool, none: bool, torn: bool) -> Option<Remark>
    ensures told { is_some result ≡ is_beside empty none torn }
    ensures says { IfSome result (Says (Reads (tally_lines empty none torn))) }
{
    match (empty, none, torn) {
        (true, _, _) => Some(note(alloc, "the standard input is empty, and nothing is counted")),
        (false, true, false) => Some(note(
            alloc,
            "no line is of the page of this site, and nothing is counted; 'cut -d, -f1-3' shows the pages of lines",
        )),
        (false, true, true) => Some(note(
            alloc,
            "no line is of the page of this site, and nothing is counted; the last line has no line feed and is skipped",
        )),
        (false, false, true) => Some(note(alloc, "the last line has no line feed and is skipped")),
        (false, false, false) => None,
    }
}

/// A line of `tally` beside its output.
#[tactic(auto, using(flagops_files::proofs::Told::says))]
fn note(alloc: Global, words: &str) -> Remark
    ensures { Says (Reads (tally_line words.now)) result }
{
    Remark::of(note_line(alloc, words))
}

fn note_line(alloc: Global, words: &str) -> Result<String, AllocError>
    ensures { IfOk result (λ s. string_bytes s ≡ tally_line words.now) }
{
    format!(in alloc; "tally: {words}\n")
}

/// A stream that is not tallied to its end.
#[tactic(auto, using(flagops_files::proofs::Told::says))]
fn stopped(
    alloc: Global,
    stop: TallyStop,
    opening: FileEnds,
    first_bytes: &[u8],
) -> Refused<FilterRefusal>
    ensures refusal { result.refusal ≡ Tally stop }
    ensures names { Says NamesInput result.remark }
{
    Refused {
        refusal: FilterRefusal::Tally(stop),
        remark: Remark::of(stop_line(alloc, stop, opening, first_bytes)),
    }
}

/// What is told of it, by what the input began with.
fn stop_line(
    alloc: Global,
    stop: TallyStop,
    opening: FileEnds,
    first_bytes: &[u8],
) -> Result<String, AllocError>
    ensures { IfOk result (λ s. NamesInput (string_bytes s)) }
{
    match (stop, opening) {
        (TallyStop::Filter(FilterFault::Line(1)), FileEnds::Marked) => {
            marked_line(alloc, "line 1 is not a note line")
        }
        (TallyStop::Filter(FilterFault::Line(number)), _) => {
            no_note_lines(alloc, number, first_bytes)
        }
        (TallyStop::Filter(FilterFault::Order(_)), _) => {
            let reason = format!(in alloc;
                "{stop}\n  sort the lines: pipe them through 'LC_ALL=C sort -u'"
            )?;
            input_line(alloc, reason.as_str())
        }
        _ => {
            let reason = format!(in alloc; "{stop}")?;
            input_line(alloc, reason.as_str())
        }
    }
}

/// A site that is not tallied at.
#[tactic(auto, using(flagops_files::proofs::Told::says))]
fn untallied(
    alloc: Global,
    asked: &Tallying<'_>,
    flags: &Flags,
    fault: RolloutFault,
) -> Refused<FilterRefusal>
    ensures refusal { result.refusal ≡ Flag fault }
    ensures names { Says (NamesPath asked.now.document.now) result.remark }
{
    Refused {
        refusal: FilterRefusal::Flag(fault),
        remark: Remark::of(refusal_lines(alloc, asked, flags, fault)),
    }
}

fn refusal_lines(
    alloc: Global,
    asked: &Tallying<'_>,
    flags: &Flags,
    fault: RolloutFault,
) -> Result<String, AllocError>
    ensures { IfOk result (λ s. NamesPath asked.now.document.now (string_bytes s)) }
{
    if matches!(fault, RolloutFault::UnknownFlag) {
        return unknown_lines(alloc, asked.document, flags, asked.key);
    }
    let reason = format!(in alloc; "{fault}")?;
    flag_line(alloc, asked.document, asked.key, reason.as_str())
}

/// What is tallied at a site of a flag, with each weight of its rule multiplied by a factor.
fn target_of(
    alloc: Global,
    flags: &Flags,
    key: &str,
    number: u32,
    factor: u32,
) -> Result<Target, RolloutFault>
    requires { 0 < factor }
    ensures { GivesUnless RolloutFault.WantOfMemory target_view result (target_of (flags_view flags.now) key.now number factor) }
{
    let Place { entries, page } = place_of(alloc, flags, key, number)?;
    let total = points_of(total_weight(entries.as_slice()), factor)?;
    Ok(Target { page, total })
}

/// As many points as the weights of a rule sum to, times the factor.
fn points_of(total: u128, factor: u32) -> Result<u32, RolloutFault>
    requires { 0 < factor }
    ensures value { result ≡ points_of total factor }
    ensures some { IfOk result (λ n. 0 < n) }
    ensures few { IfOk result (λ n. n ≤ 1000000) }
{
    if total == 0 {
        return Err(RolloutFault::NoWeight);
    }
    // What saturates is above the largest total, as the product is.
    let total = total.saturating_mul(u128::from(factor));
    if total > MOST_POINTS {
        return Err(RolloutFault::TotalTooLarge);
    }
    Ok(total as u32)
}

/// A site of a flag: its entries, and the page of its inputs.
#[derive(Drop)]
struct Place {
    entries: Vec<(String, u64)>,
    page: Page,
}

/// The site of this number of the flag of this key.
fn place_of(alloc: Global, flags: &Flags, key: &str, number: u32) -> Result<Place, RolloutFault>
    ensures { GivesUnless RolloutFault.WantOfMemory place_view result (site_of (place_of (flags_view flags.now) key.now number)) }
{
    let Some(flag) = flags.get(key) else {
        return Err(RolloutFault::UnknownFlag);
    };
    let Some(targeting) = flag.targeting() else {
        return Err(RolloutFault::NoSite);
    };
    let Site { entries, .. } = site(alloc, targeting, number)?;
    let page = Page::of(alloc, key, targeting, number)?;
    Ok(Place { entries, page })
}
