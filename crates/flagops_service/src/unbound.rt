//! The addresses that the service listens on, and why one can't be had, for a person.
use crate::asked::Answering;
use crate::preparing::LISTEN;
use file_diagnostics::quoted_name;
use std::alloc::{AllocError, Global};
use std::io::ErrorKind;
use std::net::SocketAddr;

/// An address that can't be listened on.
#[derive(Clone, Copy, Debug, PartialEq, Eq)]
pub(crate) struct Unbound {
    spot: Spot,
    why: NoListener,
}

impl Unbound {
    /// One that is not spelled as an address with a port.
    pub(crate) fn misspelled(spot: Spot) -> Unbound {
        Unbound {
            spot,
            why: NoListener::Misspelled,
        }
    }

    /// One that the system does not give, for a reason of this kind.
    pub(crate) fn of(spot: Spot, kind: ErrorKind) -> Unbound {
        Unbound {
            spot,
            why: NoListener::of(kind),
        }
    }
}

/// What the service listens on an address for.
#[derive(Clone, Copy, Debug, PartialEq, Eq)]
pub(crate) enum Spot {
    Flags,
    Operations,
    Stream,
}

/// Why an address can't be listened on.
#[derive(Clone, Copy, Debug, PartialEq, Eq)]
enum NoListener {
    /// It is not spelled as an address with a port.
    Misspelled,
    /// Another listener has it.
    InUse,
    /// It is not an address of this machine.
    Elsewhere,
    /// The system does not allow it.
    Forbidden,
    /// Something else went wrong.
    Failed,
}

impl NoListener {
    /// What the system's word says.
    fn of(kind: ErrorKind) -> NoListener {
        match kind {
            ErrorKind::AddrInUse => NoListener::InUse,
            ErrorKind::AddrNotAvailable => NoListener::Elsewhere,
            ErrorKind::PermissionDenied => NoListener::Forbidden,
            _ => NoListener::Failed,
        }
    }

    fn words(self) -> &'static str {
        match self {
            NoListener::Misspelled => {
                "is not ADDRESS:PORT\n  ADDRESS is an IP address or localhost, as 127.0.0.1:8016 or [::1]:8016; PORT is from 0 to 65535"
            }
            NoListener::InUse => "is in use\n  another program listens there: choose another port",
            NoListener::Elsewhere => {
                "is not an address of this machine\n  127.0.0.1 is the machine itself, 0.0.0.0 each of its addresses"
            }
            NoListener::Forbidden => {
                "may not be listened on\n  ports below 1024 need a right: choose one from 1024 on"
            }
            NoListener::Failed => "cannot be listened on",
        }
    }
}

/// The address that a word names, where it names one; `localhost` is 127.0.0.1.
pub(crate) fn address_of(word: &str) -> Option<SocketAddr> {
    match word.strip_prefix("localhost:") {
        Some(port) => {
            let port = port.parse::<u16>().ok()?;
            Some(SocketAddr::from(([127, 0, 0, 1], port)))
        }
        None => word.parse::<SocketAddr>().ok(),
    }
}

/// Why an address can't be listened on, with the word that names it.
pub(crate) fn of_unbound(
    alloc: Global,
    answering: &Answering<'_>,
    unbound: Unbound,
) -> Result<String, AllocError> {
    let why = unbound.why.words();
    let (option, word) = match unbound.spot {
        Spot::Flags => ("--listen", answering.listen.unwrap_or(LISTEN)),
        Spot::Operations => ("--admin", answering.admin.unwrap_or("")),
        Spot::Stream => {
            let port = answering.stream.unwrap_or(0);
            return format!(in alloc; "error: the port {port} of --stream {why}\n");
        }
    };
    let word = quoted_name(alloc, word)?;
    format!(in alloc; "error: the address {word} of {option} {why}\n")
}
