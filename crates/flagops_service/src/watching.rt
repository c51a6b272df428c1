//! Documents that are read again.
ghost use Rattle.std.specs.Prelude.{◌≡◌, ◌==◌, ◌&&◌, ◌+◌, ◌-◌, ◌%◌, ◌^◌, ◌<◌, List, is_some, map, nat_lt};
ghost use Rattle.source_merge.specs.View.{sources_view};
ghost use Rattle.flagops_streams.specs.Documents.{texts_of};
ghost use Rattle.flagops_service.specs.Merging.{AreRead, Publishes};
ghost use Rattle.flagops_service.specs.Rereading.{State, Watches, state_of};

use crate::asked::Answering;
use crate::boards::show_published;
use crate::document_texts::{show_texts, texts_of};
use crate::keys::WatchedKeys;
use crate::log_news::{LogNews, tell_lines, tell_news};
use crate::sizes::show_sizes;
use crate::telling::{broken_in, say_made, say_published};
use crate::watched::Watched;
use control_desk::{PublishedSources, ShownText};
use flag_text::Outlet;
use flagops_shell::FileSet;
use flagops_streams::say;
use log_file::LogPaths;
use ofrep_service::Board;
use snap_share::{Publisher, ShareFault, ShareName};
use source_merge::SourceFault;
use std::alloc::Global;
use std::sync::Wait;
use std::thread;
use std::time::{Clock, Duration};

/// How often in a second it looks whether the service is to stop, and the milliseconds between.
const PARTS: u32 = 20;

const PART_MILLIS: u64 = 50;

/// Reads documents again after each pause of the seconds that are asked for, 0 for never, and publishes what they have become; and the
/// file of keys. Each second it tells what has happened to logs, and shows how large they are. It ends once the service is to stop.
pub(crate) fn watch<J: ShareName, R: Clock + LogPaths + Wait, F: FileSet, E: Outlet>(
    rt: &R,
    watched: &mut Watched<'_>,
    clients: &mut WatchedKeys<'_>,
    publisher: &mut Publisher<J>,
    sources: &PublishedSources<J>,
    shown: &mut Option<ShownText<J>>,
    board: &Board,
    answering: &Answering<'_>,
    files: &mut F,
    err: &mut E,
)
    requires read { AreRead (texts_of watched.old.accepted.items) (sources_view watched.old.sources) }
    ensures watches { (turns : List State) × Watches (F.holding files.old) watched.old.broken (map (λ path. path.now) watched.old.paths.now) (is_some answering.now.admin) turns (state_of watched.old publisher.old shown.old) (state_of watched.new publisher.new shown.new) }
    ensures kept { F.holding files.new ≡ F.holding files.old }
{
    let mut waits = false;
    let mut told = LogNews::none();
    for turn in 0..u64::MAX {
        show_sizes(rt, watched.alloc, answering, board, files);
        if !rest(rt, watched.alloc, board, err) {
            return;
        }
        told = tell_news(rt, board, told, err);
        if !is_turn(turn, answering.poll) {
            continue;
        }
        waits |= watched.read_again(rt, files, err);
        watched.show(board);
        clients.renew(rt, board, files, err);
        if waits {
            waits = publish(
                rt, watched, publisher, sources, shown, board, answering, err,
            );
        }
    }
}

/// Waits for a second, or until the service is to stop; says whether it goes on. Meanwhile the lines of requests are told.
fn rest<R: Clock + Wait, E: Outlet>(rt: &R, alloc: Global, board: &Board, err: &mut E) -> bool {
    for _part in 0..PARTS {
        if board.is_stopping() {
            return false;
        }
        thread::sleep(rt, Duration::from_millis(PART_MILLIS));
        tell_lines(rt, alloc, board, err);
    }
    true
}

/// Whether the documents are read again in the second of this number, where they are after so many seconds, 0 for never.
fn is_turn(second: u64, poll: u64) -> bool
    requires { second < 2 ^ 64 - 1 }
    ensures { result ≡ (nat_lt 0 poll && ((second + 1) % poll == 0)) }
{
    poll > 0 && (second + 1) % poll == 0
}

/// Publishes what the documents make now, with their metadata, and shows desks what is known of the documents, unless they are too large
/// together or memory runs out. Says whether that was want of memory, so that it is to be tried again at the next reading.
fn publish<J: ShareName, R: Clock + Wait, E: Outlet>(
    rt: &R,
    watched: &Watched<'_>,
    publisher: &mut Publisher<J>,
    sources: &PublishedSources<J>,
    shown: &mut Option<ShownText<J>>,
    board: &Board,
    answering: &Answering<'_>,
    err: &mut E,
) -> bool
    requires { AreRead (texts_of watched.now.accepted.items) (sources_view watched.now.sources) }
    ensures { Publishes (sources_view watched.now.sources) (texts_of watched.now.accepted.items) (is_some answering.now.admin) publisher.old publisher.new shown.old shown.new }
{
    let flags = match watched.merged() {
        Ok(flags) => flags,
        Err(fault) => {
            let name = fault.name();
            say_made(
                err,
                format!(in watched.alloc;
                    "error: the documents together are refused ({name}); the last snapshot stays\n"
                ),
            );
            return matches!(fault, SourceFault::WantOfMemory);
        }
    };
    let (count, broken) = (flags.len(), broken_in(&flags));
    let Ok(texts) = texts_of(watched, answering, &flags) else {
        return true;
    };
    match publisher.publish(rt, watched.alloc, flags) {
        Ok(number) => {
            show_published(rt, board, number);
            *shown = show_texts(rt, sources, publisher.tell(), texts);
            say_published(watched.alloc, err, number, count, broken);
            false
        }
        Err(fault) => {
            say(
                err,
                "error: the documents were not published; the last snapshot stays\n",
            );
            matches!(fault, ShareFault::WantOfMemory)
        }
    }
}
