//! The command `serve`.
ghost use Rattle.std.specs.Prelude.{◌≡◌, false, true, length, map, IfSome};
ghost use Rattle.flagops_shell.specs.Console.{IsOpen};
ghost use Rattle.flagops_streams.specs.Ended.{AnswersServe, RefusesUnread, ServesAsked, TellsServe};
ghost use Rattle.flagops_streams.specs.Documents.{Answer, count_of};
ghost use Rattle.flagops_streams.specs.Loading.{AnswersTo, IsRefusedOf, TellsUnloaded};
ghost use Rattle.flagops_streams.specs.Refusal.{is_unreadable};
ghost use Rattle.flagops_streams.specs.Report.{RefusesBy, Reports, Serves};
ghost use Rattle.flagops_streams.specs.Told.{TellsOfFile, TellsReason, TellsServing};
ghost use Rattle.flagops_streams.specs.Words.{serving_view};
ghost use Rattle.flagops_streams.specs.declared.refusal.Refusal.TheVariants.{Unreadable};

use crate::asked::Serving;
use crate::loading::{Unloaded, loaded};
use crate::refusal::Refusal;
use crate::remark::{say_lines, say_refused};
use crate::report::refuse;
use crate::serving::serve_documents;
use crate::words::read_serve;
use file_diagnostics::of_unreadable;
use flag_text::Outlet;
use flagops_shell::{Console, FileSet, report_usage};
use std::alloc::Global;
use std::convert::AsStr;
use std::io;
use std::net::{Net, TcpListener, TcpStream};
use std::sync::Wait;
use std::thread::Threads;
use std::time::Clock;

/// Does what the words after the program's name ask of `serve`, which is the first of them, and gives the status to end
/// with. It loads the documents, waits for its subscribers on a port of this host, publishes one document after the other,
/// and prints how many; or the line of a refusal with status 1. Where a file can't be read it has listened on no port.
pub fn serve<R, S, F, O, E>(rt: &R, words: &[S], files: &mut F, console: &mut Console<O, E>) -> u8
where
    R: AllocGlobal
        + Net<Listener = TcpListener, Stream = TcpStream>
        + Clock
        + Threads
        + Wait
        + Sync,
    S: AsStr,
    F: FileSet,
    O: Outlet,
    E: Outlet + Drop,
    requires { IsOpen console.old }
    ensures answers { AnswersServe console.old console.new result (F.holding files.old) (map S.text words.now) }
    ensures serves { ServesAsked console.old console.new result (map S.text words.now) }
    // Whatever the files hold, a read that failed is what is reported and told.
    ensures unread { RefusesUnread console.old console.new result (F.holding files.old) (map S.text words.now) (F.has_failed files.old) (F.has_failed files.new) }
    ensures tells { TellsServe console.old console.new result (map S.text words.now) }
    ensures kept { F.holding files.new ≡ F.holding files.old }
{
    let alloc = rt.alloc();
    match read_serve(alloc, words) {
        Ok(serving) => serve_asked(rt, &serving, files, &mut console.out, &mut console.err),
        Err(error) => report_usage(alloc, &error, console),
    }
}

/// Loads the documents that are asked for and serves them, or tells why not.
fn serve_asked<R, F, O, E>(
    rt: &R,
    serving: &Serving<'_>,
    files: &mut F,
    out: &mut O,
    err: &mut E,
) -> u8
where
    R: AllocGlobal
        + Net<Listener = TcpListener, Stream = TcpStream>
        + Clock
        + Threads
        + Wait
        + Sync,
    F: FileSet,
    O: Outlet,
    E: Outlet + Drop,
    requires out_whole { O.is_broken out.old ≡ false }
    requires err_whole { E.is_broken err.old ≡ false }
    ensures answers { IfSome (F.holding files.old) (λ at. (answer : Answer) × AnswersTo at (serving_view serving.now) answer
        × Reports (serving_view serving.now).documents (TellsServing (serving_view serving.now).documents (IsRefusedOf at (serving_view serving.now)) (length (serving_view serving.now).documents) serving.now.port serving.now.subscribers) (count_of answer) (O.bytes out.old) (O.bytes out.new) (O.is_broken out.new) (E.bytes err.old) (E.bytes err.new) (E.is_broken err.new) result) }
    ensures serves { Serves (serving_view serving.now).documents (TellsServing (serving_view serving.now).documents (λ _. Unit {0}) (length (serving_view serving.now).documents) serving.now.port serving.now.subscribers) (length serving.now.documents.items) (O.bytes out.old) (O.bytes out.new) (O.is_broken out.new) (E.bytes err.old) (E.bytes err.new) (E.is_broken err.new) result }
    ensures unread { F.has_failed files.old ≡ false → F.has_failed files.new ≡ true
        → RefusesBy Unreadable (O.bytes out.old) (O.bytes out.new) (O.is_broken out.new) result × TellsUnloaded (F.holding files.old) (serving_view serving.now).documents (E.bytes err.old) (E.bytes err.new) (E.is_broken err.new) }
    ensures kept { F.holding files.new ≡ F.holding files.old }
{
    let alloc = rt.alloc();
    let paths = serving.documents.as_slice();
    match loaded(alloc, files, paths) {
        Ok(documents) => serve_documents(
            rt,
            serving.port,
            serving.subscribers,
            serving.wait,
            serving.floats,
            documents,
            paths,
            out,
            err,
        ),
        Err(unloaded) => {
            tell_unloaded(alloc, err, &unloaded, files.trouble());
            refuse(alloc, out, unloaded.refusal)
        }
    }
}

/// Tells a person why documents were not loaded, where a file can't be read in the system's words, as far as these are known.
fn tell_unloaded<E: Outlet>(
    alloc: Global,
    err: &mut E,
    unloaded: &Unloaded<'_>,
    trouble: Option<io::Error>,
)
    ensures told { is_unreadable unloaded.now.refusal ≡ false → TellsReason unloaded.now.refusal (E.bytes err.old) (E.bytes err.new) (E.is_broken err.new) }
    ensures names { unloaded.now.refusal ≡ Unreadable → TellsOfFile unloaded.now.path.now (E.bytes err.old) (E.bytes err.new) (E.is_broken err.new) }
{
    match unloaded.refusal {
        Refusal::Unreadable => tell_unreadable(alloc, err, unloaded.path, trouble),
        refusal => say_refused(alloc, err, refusal),
    }
}

/// Tells a person of a file that can't be read.
fn tell_unreadable<E: Outlet>(alloc: Global, err: &mut E, path: &str, trouble: Option<io::Error>)
    ensures { TellsOfFile path.now (E.bytes err.old) (E.bytes err.new) (E.is_broken err.new) }
{
    say_lines(err, of_unreadable(alloc, path, trouble));
}
