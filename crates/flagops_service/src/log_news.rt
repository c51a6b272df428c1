//! What a person is told of logs whose files are lost while documents are answered from, and of requests. It changes no answer.
use flag_text::{Outlet, write_whole};
use flagops_streams::say;
use log_file::Loss;
use note_log::Trouble;
use ofrep_service::Board;
use ofrep_worker::WithoutRecord;
use std::alloc::Global;
use std::sync::Wait;

/// How often logs were opened anew after each kind of loss, and whether one can't be written, as far as it was told.
#[derive(Clone, Copy)]
pub(crate) struct LogNews {
    missing: u64,
    replaced: u64,
    shorter: u64,
    unseen: u64,
    removed: u64,
    /// How often a log that could be written began to fail, and why one fails now.
    failures: u64,
    trouble: Option<Trouble>,
    /// How many lines of requests were left out.
    left_out: u64,
}

impl LogNews {
    /// Nothing was lost yet.
    pub(crate) fn none() -> LogNews {
        LogNews {
            missing: 0,
            replaced: 0,
            shorter: 0,
            unseen: 0,
            removed: 0,
            failures: 0,
            trouble: None,
            left_out: 0,
        }
    }

    /// What the board tells now.
    fn now<R: Wait>(rt: &R, board: &Board) -> LogNews {
        LogNews {
            missing: board.logs_reopened(Loss::Missing),
            replaced: board.logs_reopened(Loss::Replaced),
            shorter: board.logs_reopened(Loss::Shorter),
            unseen: board.logs_reopened(Loss::Unseen),
            removed: board.logs_reopened(Loss::Removed),
            failures: board.log_failures(),
            trouble: board.log_trouble(),
            left_out: left_out(rt, board),
        }
    }
}

/// How many lines of requests were left out.
fn left_out<R: Wait>(rt: &R, board: &Board) -> u64 {
    match board.waiting_lines(rt) {
        Some(waiting) => waiting.left_out(),
        None => 0,
    }
}

/// Tells what has happened to logs since it was last told, a line for each kind.
pub(crate) fn tell_news<R: Wait, E: Outlet>(
    rt: &R,
    board: &Board,
    told: LogNews,
    err: &mut E,
) -> LogNews {
    let news = LogNews::now(rt, board);
    tell_losses(told, news, err);
    if news.left_out != told.left_out {
        say(
            err,
            "note: lines of requests were left out, since they are not taken as fast as they come\n",
        );
    }
    tell_trouble(board.without_record(), told, news, err);
    news
}

/// Tells of logs whose paths were opened anew, a line for each kind of loss.
fn tell_losses<E: Outlet>(told: LogNews, news: LogNews, err: &mut E) {
    if news.missing != told.missing {
        say(err, "ofrep: a log was moved; its path is opened anew\n");
    }
    if news.replaced != told.replaced {
        say(
            err,
            "ofrep: another file was put in the place of a log; it is written to from now on\n",
        );
    }
    if news.shorter != told.shorter {
        say(
            err,
            "note: a log was cut; what stood in it is written again as it comes\n",
        );
    }
    if news.unseen != told.unseen {
        say(
            err,
            "note: the system did not say what is in the place of a log; its path is opened anew\n",
        );
    }
    if news.removed != told.removed {
        say(
            err,
            "note: a log was removed, with the lines that stood in it; its path is opened anew\n",
        );
    }
}

/// Tells the lines of requests that wait.
pub(crate) fn tell_lines<R: Wait, E: Outlet>(rt: &R, alloc: Global, board: &Board, err: &mut E) {
    let Some(waiting) = board.waiting_lines(rt) else {
        return;
    };
    let mut waiting = waiting;
    let lines = waiting.take(alloc);
    drop(waiting);
    if !lines.is_empty() {
        write_whole(err, lines.as_slice());
    }
}

/// Tells where logs begin to fail, and where none fails any more.
fn tell_trouble<E: Outlet>(
    without_record: WithoutRecord,
    told: LogNews,
    news: LogNews,
    err: &mut E,
) {
    if news.trouble.is_some() && news.trouble != told.trouble {
        say(err, why_failing(news.trouble));
        say(err, what_becomes(without_record));
    }
    if news.trouble.is_none() && (told.trouble.is_some() || news.failures != told.failures) {
        say(err, "ofrep: all logs can be written again\n");
    }
}

/// Why a log fails.
fn why_failing(trouble: Option<Trouble>) -> &'static str {
    match trouble {
        Some(Trouble::Lost) => "error: a log is lost, and its path cannot be opened\n",
        Some(Trouble::Unwritten) | None => "error: a log cannot be written\n",
    }
}

/// What becomes of an answer whose notes it is to take.
fn what_becomes(without_record: WithoutRecord) -> &'static str {
    match without_record {
        WithoutRecord::Answer => "  what it should record is answered all the same\n",
        WithoutRecord::Refuse => "  what it should record is answered with status 500\n",
    }
}
