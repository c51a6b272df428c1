//! The threads of the workers.
ghost use denote.Param.Send.{IsSend, IsSync};
ghost use Rattle.std.specs.Prelude.{◌≡◌, List, IfSome, map, option_map, vec_len};
ghost use Rattle.http_server.specs.Exchange.{Call};
ghost use Rattle.std.specs.List.{flat_map};
ghost use Rattle.ofrep_guards.specs.Asked.{first_keys, rules_view};
ghost use Rattle.service_layers.specs.Stand.{AllStand, Works};
ghost use Rattle.ofrep_service.specs.Limits.{HasLimits};
ghost use Rattle.ofrep_service.specs.Logs.{read_in, taken_of};

use crate::admin::{Operations, operate_beside};
use crate::board::Board;
use crate::logs::Journal;
use crate::posts::Post;
use crate::streams::stream_beside;
use control_desk::DeskPaths;
use http_server::{Config, Service};
use limits::STACK_BYTES;
use log_file::{LogPaths, SystemLog};
use note_log::NoteLog;
use ofrep_connections::{Patience, Served, answer_connections_with};
use ofrep_guards::{CountsStatus, Guard, Rules};
use ofrep_worker::OfrepWorker;
use service_layers::{Dated, LoggedService, Recording};
use snap_share::{ReadSeat, ShareName};
use std::alloc::Global;
use std::hash::RandomState;
use std::io;
use std::net::{Net, TcpListener, TcpStream};
use std::sync::Wait;
use std::thread::{self, Builder, Threads};
use std::time::Clock;

/// While more bytes than this wait to be sent on a connection, no request is read from it.
const MOST_PENDING: usize = 16_777_216;

/// Runs a worker on a thread for each post, and serves the stream on a thread for each listener, each with the seat of the same
/// place, and operations on a thread for each pair of their seats, where there is a post for them, and does `beside` meanwhile on its own.
/// There is a seat for each post and each listener. It ends when that and all workers have ended, and they end where they are asked to or the system fails them.
/// Where a thread can't be made it answers None, and `beside` is not done.
pub fn work_beside<J, R, B, T>(
    rt: &R,
    alloc: Global,
    keys: RandomState,
    board: &Board,
    seats: Vec<ReadSeat<J>>,
    posts: Vec<Post>,
    stream_seats: Vec<ReadSeat<J>>,
    listeners: Vec<TcpListener>,
    admin: Option<Operations<'_, J>>,
    beside: B,
) -> Option<T>
where
    J: ShareName + Send + Sync,
    R: Net<Listener = TcpListener, Stream = TcpStream>
        + LogPaths
        + DeskPaths
        + Clock
        + Threads
        + Wait
        + Sync,
    B: FnOnce() -> T + Drop,
    requires called { B.pre beside }
    requires seated { vec_len seats ≡ vec_len posts }
    requires streamed { vec_len stream_seats ≡ vec_len listeners }
    requires paired { IfSome admin (λ operations. vec_len operations.seats ≡ vec_len operations.desks) }
{
    operate_beside(
        rt,
        alloc,
        keys,
        board,
        admin,
        move || -> Option<T>
            requires { IsSend J.row × IsSync J.row × IsSync R.row × B.pre beside }
        {
            work_and_stream(
                rt,
                alloc,
                keys,
                board,
                seats,
                posts,
                stream_seats,
                listeners,
                beside,
            )
        },
    )
}

/// Runs the workers and serves the stream, and does `beside` meanwhile.
fn work_and_stream<J, R, B, T>(
    rt: &R,
    alloc: Global,
    keys: RandomState,
    board: &Board,
    seats: Vec<ReadSeat<J>>,
    posts: Vec<Post>,
    stream_seats: Vec<ReadSeat<J>>,
    listeners: Vec<TcpListener>,
    beside: B,
) -> Option<T>
where
    J: ShareName + Send + Sync,
    R: Net<Listener = TcpListener, Stream = TcpStream> + LogPaths + Clock + Threads + Wait + Sync,
    B: FnOnce() -> T + Drop,
    requires { B.pre beside }
{
    stream_beside(
        rt,
        board,
        stream_seats,
        listeners,
        move || -> Option<T>
            requires { IsSend J.row × IsSync J.row × IsSync R.row × B.pre beside }
        { work_in_scope(rt, alloc, keys, board, seats, posts, beside) },
    )
}

fn work_in_scope<J, R, B, T>(
    rt: &R,
    alloc: Global,
    keys: RandomState,
    board: &Board,
    seats: Vec<ReadSeat<J>>,
    posts: Vec<Post>,
    beside: B,
) -> Option<T>
where
    J: ShareName + Send + Sync,
    R: Net<Listener = TcpListener, Stream = TcpStream> + LogPaths + Clock + Threads + Wait + Sync,
    B: FnOnce() -> T + Drop,
    requires { B.pre beside }
{
    thread::scope(
        thread::scope_env(),
        rt,
        move |scope| -> Option<T>
            requires { IsSend J.row × IsSync J.row × IsSync R.row × B.pre beside }
        {
            let mut posts = posts;
            recall(rt, alloc, board, posts.as_mut_slice());
            for (seat, post) in seats.into_iter().zip(posts) {
                let spawned = Builder::new()
                    .stack_size(STACK_BYTES)
                    .spawn_scoped(scope, move || work(rt, alloc, keys, board, seat, post));
                if spawned.is_err() {
                    board.end();
                    return None;
                }
            }
            Some(beside())
        },
    )
}

/// Answers the connections of a post until all threads are to end or the system fails.
fn work<J: ShareName, R: Net + LogPaths + Clock + Wait>(
    rt: &R,
    alloc: Global,
    keys: RandomState,
    board: &Board,
    seat: ReadSeat<J>,
    post: Post,
) {
    let _ended = answer(rt, alloc, keys, board, seat, post);
}

fn answer<J: ShareName, R: Net + LogPaths + Clock + Wait>(
    rt: &R,
    alloc: Global,
    keys: RandomState,
    board: &Board,
    seat: ReadSeat<J>,
    post: Post,
) -> io::Result<()> {
    let Post { listener, journal } = post;
    let worker = worker_of(rt, alloc, board, seat, journal);
    let rules = Rules::new(
        alloc,
        board.origins.as_slice(),
        board.keys.as_ref(),
        board.paths,
    )?;
    let guard = Guard::new(rules, worker);
    let logged = LoggedService::new(rt, alloc, board.lines.as_ref(), guard);
    let mut dated = Dated::new(rt, alloc, board.counts.traffic(), logged)?;
    serve(rt, alloc, keys, board, listener, &mut dated).into_outcome()
}

/// Has a worker behind a guard, which lists the board's origins, begins with its keys and serves its paths, answer the connections of
/// a listener, each answer with its date and each request logged where that is wanted, until the workers are to end or the system
/// fails: turn by turn it looks for its log, and then answers. What its answers rest on stands in the end. The connections have the
/// board's limits.
fn serve<'a, S: Recording + CountsStatus, R: Net + Clock>(
    rt: &R,
    alloc: Global,
    keys: RandomState,
    board: &Board,
    listener: TcpListener,
    dated: &mut Dated<'a, R, LoggedService<'a, R, Guard<'a, S>>>,
) -> Served
    requires origins { dated.old.service.service.rules.origins.now ≡ board.now.origins.items }
    requires keys { (rules_view dated.old.service.service.rules).keys ≡ first_keys board.now.keys }
    requires paths { dated.old.service.service.rules.paths ≡ board.now.paths }
    ensures turns { (turns : List (List Call)) × Works ⟦<Dated<'a, R, LoggedService<'a, R, Guard<'a, S>>> as Service>⟧.answers ⟦<Dated<'a, R, LoggedService<'a, R, Guard<'a, S>>> as Recording>⟧.looked dated.old turns dated.new
        × AllStand ⟦<Dated<'a, R, LoggedService<'a, R, Guard<'a, S>>> as Recording>⟧.stands dated.new (flat_map (λ calls. calls) turns) }
    ensures limits { HasLimits board.now.limits result }
{
    serve_recorded(rt, alloc, keys, board, listener, dated)
}

/// Has a service whose answers rest on something answer the connections of a listener, which have the board's limits. That stands in
/// the end, for each of them.
fn serve_recorded<S: Recording, R: Net + Clock>(
    rt: &R,
    alloc: Global,
    keys: RandomState,
    board: &Board,
    listener: TcpListener,
    service: &mut S,
) -> Served
    ensures turns { (turns : List (List Call)) × Works S.answers S.looked service.old turns service.new
        × AllStand S.stands service.new (flat_map (λ calls. calls) turns) }
    ensures limits { HasLimits board.now.limits result }
{
    let config = Config {
        max_body_len: board.limits.body_bytes,
        max_pending: MOST_PENDING,
        ..Config::default()
    };
    answer_connections_with(
        rt,
        alloc,
        keys,
        config,
        Patience::with_idle_seconds(board.limits.idle_seconds),
        board.counts.traffic(),
        listener,
        &board.load,
        &board.is_stopping,
        service,
    )
}

/// Has the board's memory remember the last lines that were read of the logs of all posts, before a worker answers.
pub(crate) fn recall<R: Wait>(rt: &R, alloc: Global, board: &Board, posts: &mut [Post])
    ensures { map (λ p. read_in p.journal) posts.new ≡ map (λ p. taken_of p.journal) posts.old }
{
    for post in posts.iter_mut() {
        recall_one(rt, alloc, board, post);
    }
}

/// The same of one post.
fn recall_one<R: Wait>(rt: &R, alloc: Global, board: &Board, post: &mut Post)
    ensures { read_in post.new.journal ≡ taken_of post.old.journal }
{
    if let Some(journal) = &mut post.journal {
        journal.recall(rt, alloc, &board.memory);
    }
}

/// The worker of a post: it answers from the snapshots of a seat, and records in the post's log, where it has one, which shares the
/// board's memory.
pub(crate) fn worker_of<'a, J: ShareName, R: Clock>(
    rt: &'a R,
    alloc: Global,
    board: &'a Board,
    seat: ReadSeat<J>,
    journal: Option<Journal>,
) -> OfrepWorker<'a, J, R, SystemLog>
    ensures seat { result.seat ≡ seat }
    ensures log { option_map (λ l. l.journal.journal.file) result.log ≡ option_map (λ j. j.journal.file) journal }
    ensures without { result.without_record ≡ board.now.without_record }
    ensures memory { IfSome result.log (λ l. l.memory.now ≡ board.now.memory) }
    ensures number { option_map (λ l. l.journal.number) result.log ≡ option_map (λ j. j.number) journal }
    ensures form { IfSome result.log (λ l. l.form ≡ board.now.form) }
{
    let log = match journal {
        Some(journal) => Some(NoteLog::new(alloc, board.form, journal, &board.memory)),
        None => None,
    };
    OfrepWorker::new(rt, alloc, seat, log, &board.counts, board.without_record)
}
