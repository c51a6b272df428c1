//! Where workers stand.
ghost use Rattle.std.specs.Prelude.{◌≡◌, IfOk, map};

use crate::logs::Journal;
use std::alloc::Global;
use std::io;
use std::net::{Net, SocketAddr, TcpListener, TcpStream};

/// Where a worker takes connections, and its log, where it keeps one.
#[derive(Drop)]
pub struct Post {
    pub listener: TcpListener,
    pub journal: Option<Journal>,
}

/// Listens on an address, once for each worker, of which these are the logs.
pub fn bind<R: Net<Listener = TcpListener, Stream = TcpStream>>(
    rt: &R,
    alloc: Global,
    address: SocketAddr,
    journals: Vec<Option<Journal>>,
) -> io::Result<Vec<Post>>
    ensures { IfOk result (λ posts. map (λ p. p.journal) posts.items ≡ journals.items) }
{
    let listener = TcpListener::bind(rt, address)?;
    listener.set_nonblocking(true)?;
    let mut posts = Vec::with_capacity(alloc, journals.len())?;
    for journal in journals {
        let listener = listener.try_clone()?;
        posts.push(Post { listener, journal })?;
    }
    Ok(posts)
}
