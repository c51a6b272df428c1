//! The socket of a peer.
ghost use Rattle.std.specs.Prelude.{◌≡◌, ℕ, List, None, Option, IfOk, OnErr, length, take};
ghost use Rattle.std.specs.Io.{WritesAtMost};
ghost use Rattle.std.specs.Io.KnownBytes.{append_known, prepend_known};
ghost use Rattle.http_server.specs.Connection.{history};
ghost use Rattle.http_server.specs.History.{after_read};

use http_server::Connection;
use mio::net::TcpStream;
use mio::{Interest, Registry, Token};
use std::io;
use std::io::{Read, Write};
use std::net::Shutdown;

/// The most bytes that are dropped at once.
const DROPPED_AT_ONCE: usize = 8_192;

/// A socket that does not block. All that a connection reads comes from it.
pub(crate) trait Socket {
    // The bytes that are still to come from it, where they are known.
    ghost remaining: { Self → Option (List ℕ) };

    // The bytes that it was given, where they are known.
    ghost contents: { Self → Option (List ℕ) };

    /// Has a connection read once.
    fn receive(&mut self, connection: &mut Connection) -> io::Result<usize>
        ensures received { IfOk result (λ n. (more : List ℕ) × (length more ≡ n)
            × (remaining self.old ≡ prepend_known more (remaining self.new)) × (history connection.new ≡ after_read (history connection.old) more)) }
        ensures unreceived { OnErr result ((history connection.new ≡ history connection.old) × (remaining self.new ≡ remaining self.old)) }
        ensures contents { contents self.new ≡ contents self.old };

    /// Is given a front of these bytes, and says of how many.
    fn give(&mut self, bytes: &[u8]) -> io::Result<usize>
        ensures bound { WritesAtMost result bytes.now }
        ensures given { IfOk result (λ n. contents self.new ≡ append_known (contents self.old) (take n bytes.now)) }
        ensures ungiven { OnErr result (contents self.new ≡ contents self.old) }
        ensures remaining { remaining self.new ≡ remaining self.old };

    /// Reads once, and drops what was read.
    fn drop_input(&mut self) -> io::Result<usize>
        ensures contents { contents self.new ≡ contents self.old };

    /// Tells the other side that nothing more is sent.
    fn end_output(&mut self) -> io::Result<()>
        ensures contents { contents self.new ≡ contents self.old };

    /// Has the system tell what it is ready for.
    fn register(&mut self, registry: &Registry, key: usize) -> io::Result<()>
        ensures remaining { remaining self.new ≡ remaining self.old }
        ensures contents { contents self.new ≡ contents self.old };

    /// Has the system tell once more what it is ready for.
    fn register_again(&mut self, registry: &Registry, key: usize) -> io::Result<()>
        ensures remaining { remaining self.new ≡ remaining self.old }
        ensures contents { contents self.new ≡ contents self.old };

    /// Has the system tell nothing more of it.
    fn deregister(&mut self, registry: &Registry) -> io::Result<()>;
}

// Of a socket of the system no byte is known.
impl Socket for TcpStream {
    ghost remaining = { λ _. None };

    ghost contents = { λ _. None };

    fn receive(&mut self, connection: &mut Connection) -> io::Result<usize> {
        connection.read_from(self)
    }

    fn give(&mut self, bytes: &[u8]) -> io::Result<usize> {
        self.write(bytes)
    }

    fn drop_input(&mut self) -> io::Result<usize> {
        let mut room = [0u8; DROPPED_AT_ONCE];
        self.read(&mut room)
    }

    fn end_output(&mut self) -> io::Result<()> {
        self.shutdown(Shutdown::Write)
    }

    fn register(&mut self, registry: &Registry, key: usize) -> io::Result<()> {
        registry.register(self, Token(key), interest())
    }

    fn register_again(&mut self, registry: &Registry, key: usize) -> io::Result<()> {
        registry.reregister(self, Token(key), interest())
    }

    fn deregister(&mut self, registry: &Registry) -> io::Result<()> {
        registry.deregister(self)
    }
}

/// What the system is to tell of a socket.
fn interest() -> Interest {
    Interest::READABLE | Interest::WRITABLE | Interest::PRIORITY
}
