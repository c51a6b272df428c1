//! `flagops`, the program of the flag service: it reads a command and its words, does what they
//! ask over the files of the system, writes one report, and ends with its status.
//!
//! The words go to the crate of the command's family: `flagops_commands` (`bucket`, `price`, `resolve`, `plan`, `verify`, `apply`,
//! `drive`, `completions`), `flagops_checks` (`check`), `flagops_books` (`book`), `flagops_filters` (`record`, `tally`, `join`),
//! `flagops_ramps` (`ramp`, `verify-ramp`, `apply --step`, with `--keep` too), `flagops_pictures` (`picture`, `plan --picture`), `flagops_streams`
//! (`serve`, `follow`) or `flagops_service` (`ofrep`). The contract of each says what is written and which status is given; its
//! clauses stand again at [`flagops`](dispatch::flagops), over the status of the process.
#![tactic(auto)]

mod dispatch;
mod family;
mod outputs;
mod stack;
mod watching;
mod words;

use byte_streams::{PersistentInput, ReadInlet};
use flag_text::WriteOutlet;
use flagops_files::SystemFiles;
use flagops_filters::OpenedInlet;
use flagops_shell::{Console, want};
use flagops_streams::open_standard;
use outputs::{StandardOutput, tell_failure};
use progress::{BesideLine, Counted, Progress, TerminalLine};
use stack::on_stack;
use stamped_lines::StampedLines;
use std::env;
use std::io::IsTerminal;
use std::process::ExitCode;
use std::sync::atomic::{AtomicI32, Ordering};
use watching::{Watch, is_filter, is_service, work_of};
use words::asked_words;

fn main(rt: HostRuntime) -> ExitCode {
    let _are_open = open_standard(&rt);
    let words = asked_words(rt.alloc(), env::args(&rt), rt.stderr().is_terminal());
    let work = work_of(&words, rt.stdin().is_terminal());
    let goes_on = is_filter(&words) && !rt.stdout().is_terminal();
    let stamps = if is_service(&words) && !rt.stderr().is_terminal() {
        Some(rt.stderr())
    } else {
        None
    };
    let progress = Progress::new();
    let line = TerminalLine::new(rt.stderr(), work.is_some() && rt.stderr().is_terminal());
    let watch = Watch {
        rt: &rt,
        progress: &progress,
        line: &line,
        work: work.unwrap_or(""),
    };
    let input = Counted::new(PersistentInput::new(rt.stdin()), Some(progress.input()));
    let input = OpenedInlet::new(ReadInlet::new(input));
    let files = SystemFiles::watched(&rt, &progress);
    let (trouble, unread) = (AtomicI32::new(0), AtomicI32::new(0));
    let out = StandardOutput::new(rt.stdout(), &trouble);
    let out = WriteOutlet::new(BesideLine::new(&rt, &line, out, goes_on));
    let err = StandardOutput::new(rt.stderr(), &unread);
    let err = BesideLine::new(&rt, &line, err, false);
    let err = WriteOutlet::new(StampedLines::new(&rt, rt.alloc(), stamps, err));
    let code = match on_stack(&rt, words, input, files, out, err, &watch) {
        Some(code) => code,
        None => {
            let out = WriteOutlet::new(StandardOutput::new(rt.stdout(), &trouble));
            let err = WriteOutlet::new(StandardOutput::new(rt.stderr(), &unread));
            ExitCode::from(want(&mut Console::new(out, err), "flagops"))
        }
    };
    let failure = trouble.load(Ordering::SeqCst);
    if failure != 0 {
        tell_failure(&rt, failure);
    }
    code
}
