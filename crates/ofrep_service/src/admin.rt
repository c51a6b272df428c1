//! The threads of the listener for operations.
ghost use denote.Param.Send.{IsSend, IsSync};
ghost use Rattle.std.specs.Prelude.{◌≡◌, List, IfOk, IfSome, false, vec_len};
ghost use Rattle.http_server.specs.Exchange.{Call};
ghost use Rattle.ofrep_guards.specs.Hosts.{hosts_view, named_at};
ghost use Rattle.service_layers.specs.Stand.{Works};
ghost use Rattle.ofrep_guards.specs.Asked.{first_keys};
ghost use Rattle.ofrep_service.specs.Page.{page_text, policy_text};
ghost use Rattle.control_desk.specs.Desk.{keys_in};
ghost use Rattle.ofrep_service.specs.Limits.{HasUsualLimits};

use crate::board::Board;
use crate::workers::worker_of;
use crate::{page_html, page_policy};
use control_desk::{ConsolePage, ControlDesk, DeskPaths, PublishedSources, SystemDeskFiles};
use http::HeaderValue;
use http_server::{Config, Service};
use limits::FILE_BYTES;
use log_file::{LogPaths, SystemLog};
use ofrep_connections::{Patience, Served, answer_connections_with};
use ofrep_guards::{AdminGuard, AdminRules, HeldKeys, KeyRing, OwnHosts};
use ofrep_worker::OfrepWorker;
use service_layers::{Dated, LoggedService, Recording};
use snap_share::{ReadSeat, ShareName};
use std::alloc::{AllocError, Global};
use std::hash::RandomState;
use std::io::{self, Error, ErrorKind};
use std::net::{Net, SocketAddr, TcpListener, TcpStream};
use std::sync::Wait;
use std::thread::{self, Builder, Threads};
use std::time::Clock;

/// The most bytes of a body there: a token has a plan in it.
const MOST_BODY: usize = FILE_BYTES;

/// The bytes of the stack of a thread there, which reads documents and plans.
const STACK_BYTES: usize = 16_777_216;

/// Where operations are asked for: a listener of their own, its address, the hosts by which it is named, and whether it may be asked
/// to stop the service.
#[derive(Drop)]
pub struct AdminPost {
    listener: TcpListener,
    address: SocketAddr,
    hosts: OwnHosts,
    pub(crate) may_stop: bool,
    ghost own: { (hosts_view hosts).named ≡ named_at address },
}

impl AdminPost {
    /// The address that it listens on.
    pub fn address(&self) -> SocketAddr
        ensures { result ≡ self.now.address }
    {
        self.address
    }

    /// The same, for another thread.
    fn again(&self, alloc: Global) -> io::Result<AdminPost>
        ensures may_stop { IfOk result (λ post. post.may_stop ≡ self.now.may_stop) }
        ensures address { IfOk result (λ post. post.address ≡ self.now.address) }
    {
        let listener = self.listener.try_clone()?;
        let hosts = OwnHosts::of(alloc, self.address)?;
        Ok(AdminPost {
            listener,
            address: self.address,
            hosts,
            may_stop: self.may_stop,
        })
    }
}

/// Where operations are asked for, with a seat for the worker of each thread, and one for the desk before it; and what is known of the
/// documents of snapshots.
#[derive(Drop)]
pub struct Operations<'a, J: ShareName> {
    pub post: AdminPost,
    pub seats: Vec<ReadSeat<J>>,
    pub desks: Vec<ReadSeat<J>>,
    pub sources: &'a PublishedSources<J>,
}

/// Listens on an address for those who ask for operations.
pub fn bind_admin<R: Net<Listener = TcpListener, Stream = TcpStream>>(
    rt: &R,
    alloc: Global,
    address: SocketAddr,
    may_stop: bool,
) -> io::Result<AdminPost>
    ensures { IfOk result (λ post. post.may_stop ≡ may_stop) }
{
    let listener = TcpListener::bind(rt, address)?;
    listener.set_nonblocking(true)?;
    let address = listener.local_addr()?;
    let hosts = OwnHosts::of(alloc, address)?;
    Ok(AdminPost {
        listener,
        address,
        hosts,
        may_stop,
    })
}

/// Answers who asks for operations, where there is a post for that, on a thread for each pair of seats, and does `beside` meanwhile.
/// The threads end once that has ended. Where one can't be made it answers None, and `beside` is not done.
pub(crate) fn operate_beside<J, R, B, T>(
    rt: &R,
    alloc: Global,
    keys: RandomState,
    board: &Board,
    admin: Option<Operations<'_, J>>,
    beside: B,
) -> Option<T>
where
    J: ShareName + Send + Sync,
    R: Net<Listener = TcpListener, Stream = TcpStream>
        + LogPaths
        + DeskPaths
        + Clock
        + Threads
        + Wait
        + Sync,
    B: FnOnce() -> Option<T> + Drop,
    requires called { B.pre beside }
    requires paired { IfSome admin (λ operations. vec_len operations.seats ≡ vec_len operations.desks) }
{
    thread::scope(
        thread::scope_env(),
        rt,
        move |scope| -> Option<T>
            requires { IsSend J.row × IsSync J.row × IsSync R.row × B.pre beside }
        {
            if let Some(
                Operations {
                    post,
                    seats,
                    desks,
                    sources,
                },
            ) = admin
            {
                for (seat, desk) in seats.into_iter().zip(desks) {
                    let Ok(own) = post.again(alloc) else {
                        board.end();
                        return None;
                    };
                    let spawned = Builder::new()
                        .stack_size(STACK_BYTES)
                        .spawn_scoped(scope, move || {
                            operate(rt, alloc, keys, board, sources, seat, desk, own)
                        });
                    if spawned.is_err() {
                        board.end();
                        return None;
                    }
                }
            }
            let done = beside();
            board.end();
            done
        },
    )
}

/// Answers the connections of a post until all threads are to end or the system fails.
fn operate<J: ShareName, R: Net + LogPaths + DeskPaths + Clock + Wait>(
    rt: &R,
    alloc: Global,
    keys: RandomState,
    board: &Board,
    sources: &PublishedSources<J>,
    seat: ReadSeat<J>,
    desk: ReadSeat<J>,
    post: AdminPost,
) {
    let _ended = answer_operations(rt, alloc, keys, board, sources, seat, desk, post);
}

fn answer_operations<'a, J: ShareName, R: Net + LogPaths + DeskPaths + Clock + Wait>(
    rt: &'a R,
    alloc: Global,
    keys: RandomState,
    board: &'a Board,
    sources: &'a PublishedSources<J>,
    seat: ReadSeat<J>,
    desk: ReadSeat<J>,
    post: AdminPost,
) -> io::Result<()> {
    let worker = worker_of(rt, alloc, board, seat, None);
    let desk = desk_of(rt, alloc, board, sources, desk, worker)?;
    let rules = AdminRules::new(&post.hosts, post.may_stop);
    let guard = AdminGuard::new(rules, &board.is_stopping, desk);
    let logged = LoggedService::new(rt, alloc, board.lines.as_ref(), guard);
    let mut dated = Dated::new(rt, alloc, board.counts.traffic(), logged)?;
    serve_operations(rt, alloc, keys, board, &post, &mut dated)?.into_outcome()
}

/// A desk before a worker, which goes by the rules and the keys of a board, gives the console and answers from the snapshots of a seat,
/// and from what is known of their documents.
fn desk_of<'a, J: ShareName, R: DeskPaths, S: Drop>(
    rt: &'a R,
    alloc: Global,
    board: &'a Board,
    sources: &'a PublishedSources<J>,
    seat: ReadSeat<J>,
    worker: S,
) -> io::Result<ControlDesk<'a, J, R, SystemDeskFiles<'a, R>, S>>
    ensures post { IfOk result (λ desk. desk.post.now ≡ board.now.desks) }
    ensures sources { IfOk result (λ desk. desk.sources ≡ sources.entry) }
    ensures text { IfOk result (λ desk. desk.page.text.now ≡ page_text) }
    ensures policy { IfOk result (λ desk. desk.page.policy.bytes ≡ policy_text) }
    ensures keys { IfOk result (λ desk. keys_in desk.keys ≡ first_keys board.now.keys) }
    ensures seat { IfOk result (λ desk. desk.seat ≡ seat) }
    ensures worker { IfOk result (λ desk. desk.service ≡ worker) }
{
    let keys = held_keys(alloc, &board.keys)?;
    Ok(ControlDesk::new(
        rt,
        alloc,
        &board.desks,
        sources,
        page(alloc)?,
        &board.is_stopping,
        keys,
        seat,
        SystemDeskFiles::new(rt),
        worker,
    ))
}

/// The keys that calls on rollouts begin with, where one is wanted.
fn held_keys<'a>(
    alloc: Global,
    ring: &'a Option<KeyRing>,
) -> Result<Option<HeldKeys<'a>>, AllocError>
    ensures { IfOk result (λ held. keys_in held ≡ first_keys ring.now) }
{
    match ring {
        Some(ring) => Ok(Some(HeldKeys::new(alloc, ring)?)),
        None => Ok(None),
    }
}

/// The console, with its policy.
fn page(alloc: Global) -> io::Result<ConsolePage<'static>>
    ensures text { IfOk result (λ page. page.text.now ≡ page_text) }
    ensures policy { IfOk result (λ page. page.policy.bytes ≡ policy_text) }
{
    match HeaderValue::from_str(alloc, page_policy()) {
        Ok(policy) => Ok(ConsolePage {
            text: page_html(),
            policy,
        }),
        Err(_) => Err(Error::from(ErrorKind::InvalidData)),
    }
}

/// The desk of a thread for operations, before a worker that keeps no log.
type OperatingDesk<'a, J, R> = ControlDesk<
    'a,
    J,
    R,
    SystemDeskFiles<'a, R>,
    OfrepWorker<'a, J, R, SystemLog>,
>;

/// Has a desk of the board, which begins with its keys and gives the console with its policy, answer the connections of a post until all
/// threads are to end or the system fails. Its guard goes by the hosts of the post, and was not asked to stop yet.
fn serve_operations<'a, J: ShareName, R: Net + LogPaths + DeskPaths + Clock + Wait>(
    rt: &R,
    alloc: Global,
    keys: RandomState,
    board: &Board,
    post: &AdminPost,
    dated: &mut Dated<'a, R, LoggedService<'a, R, AdminGuard<'a, OperatingDesk<'a, J, R>>>>,
) -> io::Result<Served>
    requires hosts { hosts_view dated.old.service.service.rules.hosts.now ≡ hosts_view post.now.hosts }
    requires may_stop { dated.old.service.service.rules.may_stop ≡ post.now.may_stop }
    requires begins { dated.old.service.service.is_stopping ≡ false }
    requires desks { dated.old.service.service.service.post.now ≡ board.now.desks }
    requires keys { keys_in dated.old.service.service.service.keys ≡ first_keys board.now.keys }
    requires text { dated.old.service.service.service.page.text.now ≡ page_text }
    requires policy { dated.old.service.service.service.page.policy.bytes ≡ policy_text }
    ensures turns { IfOk result (λ _. (turns : List (List Call)) × Works ⟦<Dated<'a, R, LoggedService<'a, R, AdminGuard<'a, OperatingDesk<'a, J, R>>>> as Service>⟧.answers ⟦<Dated<'a, R, LoggedService<'a, R, AdminGuard<'a, OperatingDesk<'a, J, R>>>> as Recording>⟧.looked dated.old turns dated.new) }
    ensures limits { IfOk result HasUsualLimits }
{
    let listener = post.listener.try_clone()?;
    let config = Config {
        max_body_len: MOST_BODY,
        ..Config::default()
    };
    Ok(answer_connections_with(
        rt,
        alloc,
        keys,
        config,
        Patience::default(),
        board.counts.traffic(),
        listener,
        &board.operations,
        &board.is_over,
        dated,
    ))
}
