//! The command `record`.
ghost use Rattle.std.specs.Prelude.{◌≡◌, ◌<◌, ◌^◌, false, true, length, map, option_map, IfOk, IfSome, string_bytes};
ghost use Rattle.flag_defs.specs.Flags.{flags_view};
ghost use Rattle.flagops_shell.specs.Console.{IsOpen};
ghost use Rattle.flagops_shell.specs.Diagnostic.{Says};
ghost use Rattle.flagops_shell.specs.Ending.{ShowsUnread};
ghost use Rattle.flagops_filters.specs.Ended.{AnswersRecord, TellsRecord, UnreadRecord};
ghost use Rattle.flagops_filters.specs.Record.{RecordAnswers, RecordEnds, RecordOver, of_record, record_call};
ghost use Rattle.flagops_filters.specs.Beside.{PutsIf, is_noted, record_lines};
ghost use Rattle.flagops_filters.specs.Remarks.{NamesInput, NamesPath};
ghost use Rattle.flagops_filters.specs.Stopping.{GivesUp, is_broken_off};
ghost use Rattle.flagops_filters.specs.declared.refusal.FilterRefusal.TheVariants.{Flag, Record};
ghost use Rattle.flagops_filters.specs.Words.{recording_view};
ghost use Rattle.note_streams.specs.Recorded.{recorded_of};
ghost use Rattle.note_streams.specs.Scene.{scene_of};
ghost use Rattle.note_streams.specs.View.{outcomes_view};

use crate::asked::Recording;
use crate::clock::second;
use crate::misread::no_context_lines;
use crate::opening::Opening;
use crate::refusal::FilterRefusal;
use crate::remarks::{
    clock_line, counted_lines, flag_line, input_line, is_noted, marked_line, unknown_lines,
};
use crate::start::Start;
use crate::words::read_record;
use byte_streams::Inlet;
use file_diagnostics::Ends as FileEnds;
use flag_defs::Flags;
use flag_text::Outlet;
use flagops_files::load_flags_as;
use flagops_shell::{Console, FileSet, Refused, Remark, refuse, report_usage, tell};
use note_streams::{Counted, RecordFault, RecordStop, Recorder, record_stream};
use rollout::RolloutFault;
use std::alloc::{AllocError, Global};
use std::convert::AsStr;
use std::thread::Threads;
use std::time::Clock;

/// The name of the call that a want of memory is reported of.
const RECORD: &str = "record";

/// Does what the words after the program's name ask of `record`, which is the first of them, and gives the status to end with.
/// It prints the note lines of what the evaluation of a flag reaches in each context of the standard input, and behind them the
/// line of a refusal where a line is no context.
///
/// It writes while it reads, so it is no command that makes its whole output first.
pub fn record<R, S, I, F, O, E>(
    rt: &R,
    words: &[S],
    input: &mut I,
    files: &mut F,
    console: &mut Console<O, E>,
) -> u8
where
    R: AllocGlobal + Clock + Threads + Sync,
    S: AsStr,
    I: Inlet + Opening,
    F: FileSet,
    O: Outlet,
    E: Outlet,
    requires in_whole { I.is_broken input.old ≡ false }
    requires open { IsOpen console.old }
    ensures answers { AnswersRecord console.old console.new result (map S.text words.now)
        (F.holding files.old) (F.has_failed files.new) (I.bytes input.old) (I.is_broken input.new) }
    ensures unread { UnreadRecord console.old console.new result (map S.text words.now) (F.has_failed files.old) (F.has_failed files.new) }
    ensures tells { TellsRecord console.old console.new result (map S.text words.now) }
    ensures kept { F.holding files.new ≡ F.holding files.old }
{
    let alloc = rt.alloc();
    match read_record(alloc, words) {
        Ok(asked) => recorded(rt, alloc, &asked, second(rt), input, files, console),
        Err(error) => report_usage(alloc, &error, console),
    }
}

/// The note lines of what is asked for, where the clock shows this second.
fn recorded<R: Threads + Sync, I: Inlet + Opening, F: FileSet, O: Outlet, E: Outlet>(
    rt: &R,
    alloc: Global,
    asked: &Recording<'_>,
    now: u64,
    input: &mut I,
    files: &mut F,
    console: &mut Console<O, E>,
) -> u8
    requires small { now < 2 ^ 53 }
    requires in_whole { I.is_broken input.old ≡ false }
    requires open { IsOpen console.old }
    ensures answers { IfSome (F.holding files.old) (λ at. IfSome (I.bytes input.old) (λ bytes.
        RecordAnswers console.old console.new result at (F.has_failed files.new) (recording_view asked.now) now bytes (I.is_broken input.new))) }
    ensures unread { F.has_failed files.old ≡ false → F.has_failed files.new ≡ true → ShowsUnread console.old console.new result (λ name. name ≡ record_call) }
    ensures kept { F.holding files.new ≡ F.holding files.old }
{
    match load_flags_as(alloc, files, asked.document, asked.floats) {
        Ok(flags) => over(rt, alloc, asked, &flags, now, input, console),
        Err(unread) => refuse(alloc, Refused::<FilterRefusal>::of(unread), RECORD, console),
    }
}

/// The note lines of a flag of a document.
fn over<R: Threads + Sync, I: Inlet + Opening, O: Outlet, E: Outlet>(
    rt: &R,
    alloc: Global,
    asked: &Recording<'_>,
    flags: &Flags,
    now: u64,
    input: &mut I,
    console: &mut Console<O, E>,
) -> u8
    requires small { now < 2 ^ 53 }
    requires in_whole { I.is_broken input.old ≡ false }
    requires open { IsOpen console.old }
    ensures { IfSome (I.bytes input.old) (λ bytes. RecordOver console.old console.new result asked.now.document.now (flags_view flags.now) asked.now.key.now (option_map (λ m. m.number) asked.now.moment) now bytes (I.is_broken input.new)) }
{
    let start = Start::of(flags, asked.key, asked.moment, now);
    match Recorder::new(alloc, flags, asked.key, start.moment(asked.moment)) {
        Ok(recorder) => stream(rt, alloc, &recorder, asked.workers, start, input, console),
        Err(fault) => refuse(
            alloc,
            unrecorded(alloc, asked, flags, fault),
            RECORD,
            console,
        ),
    }
}

/// The note lines of a recorder, by so many workers.
fn stream<R: Threads + Sync, I: Inlet + Opening, O: Outlet, E: Outlet>(
    rt: &R,
    alloc: Global,
    recorder: &Recorder<'_>,
    workers: usize,
    start: Start,
    input: &mut I,
    console: &mut Console<O, E>,
) -> u8
    requires in_whole { I.is_broken input.old ≡ false }
    requires open { IsOpen console.old }
    ensures { IfSome (I.bytes input.old) (λ bytes. RecordEnds console.old console.new result (recorded_of (scene_of recorder.now) bytes) start bytes (I.is_broken input.new)) }
{
    match record_stream(rt, alloc, recorder, workers, input, &mut console.out) {
        Ok(counted) => {
            tell_counted(alloc, start, counted, &mut console.err);
            0
        }
        Err(stop) => give_up(
            alloc,
            stop,
            start,
            input.opening(),
            input.first_bytes(),
            console,
        ),
    }
}

/// Writes the line of a stream that was not recorded to its end, behind what is written, and nothing where the output has failed.
fn give_up<O: Outlet, E: Outlet>(
    alloc: Global,
    stop: RecordStop,
    start: Start,
    opening: FileEnds,
    first_bytes: &[u8],
    console: &mut Console<O, E>,
) -> u8
    requires broken { console.old.is_broken ≡ is_broken_off stop }
    requires told { console.old.is_mute ≡ false }
    ensures { GivesUp console.old console.new result stop (is_broken_off stop) }
{
    if is_broken_off(&stop) {
        return 1;
    }
    refuse(
        alloc,
        stopped(alloc, stop, start, opening, first_bytes),
        RECORD,
        console,
    )
}

/// Whether the output has failed.
fn is_broken_off(stop: &RecordStop) -> bool
    ensures { result ≡ is_broken_off stop.now }
{
    match stop {
        RecordStop::WantOfMemory => false,
        RecordStop::Line(_) => false,
        RecordStop::Unreadable => false,
        RecordStop::TooLong => false,
        RecordStop::Broken => true,
    }
}

/// A flag that is not recorded, which is refused as `plan` refuses it.
#[tactic(auto, using(flagops_files::proofs::Told::says))]
fn unrecorded(
    alloc: Global,
    asked: &Recording<'_>,
    flags: &Flags,
    fault: RecordFault,
) -> Refused<FilterRefusal>
    ensures refusal { result.refusal ≡ Flag (of_record fault) }
    ensures names { Says (NamesPath asked.now.document.now) result.remark }
{
    Refused {
        refusal: FilterRefusal::Flag(fault_of(fault)),
        remark: Remark::of(unrecorded_line(alloc, asked, flags, fault)),
    }
}

fn unrecorded_line(
    alloc: Global,
    asked: &Recording<'_>,
    flags: &Flags,
    fault: RecordFault,
) -> Result<String, AllocError>
    ensures { IfOk result (λ s. NamesPath asked.now.document.now (string_bytes s)) }
{
    match fault {
        RecordFault::WantOfMemory => flag_line(alloc, asked.document, asked.key, "out of memory"),
        RecordFault::UnknownFlag => unknown_lines(alloc, asked.document, flags, asked.key),
        RecordFault::Broken => flag_line(
            alloc,
            asked.document,
            asked.key,
            "it is broken\n  \"flagops check\" says why",
        ),
    }
}

fn fault_of(fault: RecordFault) -> RolloutFault
    ensures { result ≡ of_record fault }
{
    match fault {
        RecordFault::WantOfMemory => RolloutFault::WantOfMemory,
        RecordFault::UnknownFlag => RolloutFault::UnknownFlag,
        RecordFault::Broken => RolloutFault::NoSite,
    }
}

/// A stream that is not recorded to its end.
#[tactic(auto, using(flagops_files::proofs::Told::says))]
fn stopped(
    alloc: Global,
    stop: RecordStop,
    start: Start,
    opening: FileEnds,
    first_bytes: &[u8],
) -> Refused<FilterRefusal>
    ensures refusal { result.refusal ≡ Record stop }
    ensures names { Says NamesInput result.remark }
{
    Refused {
        refusal: FilterRefusal::Record(stop),
        remark: Remark::of(stop_lines(alloc, stop, start, opening, first_bytes)),
    }
}

/// What is told of it, and behind it that its moment is the clock's.
#[tactic(auto, using(crate::proofs::Naming::named_before))]
fn stop_lines(
    alloc: Global,
    stop: RecordStop,
    start: Start,
    opening: FileEnds,
    first_bytes: &[u8],
) -> Result<String, AllocError>
    ensures { IfOk result (λ s. NamesInput (string_bytes s)) }
{
    let line = stop_line(alloc, stop, opening, first_bytes)?;
    let clock = clock_line(alloc, start.clock)?;
    format!(in alloc; "{line}{clock}")
}

/// What is told of it, by what the input began with.
fn stop_line(
    alloc: Global,
    stop: RecordStop,
    opening: FileEnds,
    first_bytes: &[u8],
) -> Result<String, AllocError>
    ensures { IfOk result (λ s. NamesInput (string_bytes s)) }
{
    match (stop, opening) {
        (RecordStop::Line(1), FileEnds::Marked) => { marked_line(alloc, "line 1 is not a context") }
        (RecordStop::Line(number), _) => no_context_lines(alloc, number, first_bytes),
        _ => {
            let reason = format!(in alloc; "{stop}")?;
            input_line(alloc, reason.as_str())
        }
    }
}

/// Tells what was not noted and why, where there is something to tell.
fn tell_counted<E: Outlet>(alloc: Global, start: Start, counted: Counted, err: &mut E)
    requires { E.is_broken err.old ≡ false }
    ensures { PutsIf (is_noted start counted.empty (outcomes_view counted.outcomes) counted.outcomes.long counted.torn) (record_lines start counted.empty (outcomes_view counted.outcomes) counted.outcomes.long counted.torn) (E.bytes err.old) (E.bytes err.new) (E.is_broken err.new) }
{
    if is_noted(start, counted) {
        tell_noted(alloc, start, counted, err);
    }
}

/// Tells what was not noted.
fn tell_noted<E: Outlet>(alloc: Global, start: Start, counted: Counted, err: &mut E)
    requires { E.is_broken err.old ≡ false }
    ensures { PutsIf true (record_lines start counted.empty (outcomes_view counted.outcomes) counted.outcomes.long counted.torn) (E.bytes err.old) (E.bytes err.new) (E.is_broken err.new) }
{
    match counted_lines(alloc, start, counted) {
        Ok(lines) => tell(err, lines.as_str()),
        Err(AllocError) => tell(err, "error: out of memory\n"),
    }
}
