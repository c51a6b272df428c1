//! The hosts by which a listener is named.
ghost use Rattle.std.specs.Prelude.{◌≡◌, ◌++◌, IfOk, codes, map, option_copied, option_map, string_bytes};
ghost use Rattle.std.specs.List.{list_all, list_any};
ghost use Rattle.std.specs.Net.Socket.{socket_port};
ghost use Rattle.std.specs.Net.Text.{socket_text};
ghost use Rattle.ofrep_guards.specs.Asked.{value_of};
ghost use Rattle.ofrep_guards.specs.Hosts.{hosts_view, is_anywhere, is_digit_or_dot, is_literal, is_literal_at, is_no_stranger, is_own, is_own_origin, is_same_host, named_at, names_own, port_text};

use http::HeaderValue;
use std::alloc::{AllocError, Global};
use std::net::SocketAddr;

/// What stands before the host in the text of an origin.
const SCHEME: &[u8] = b"http://";

/// The hosts by which requests name a listener, with its port: its address, and `localhost`. Where it listens on every address of its
/// machine, any address with the port is its own: a text of digits and dots, or one in brackets, which no name server can lead to
/// another machine.
#[derive(Drop)]
pub struct OwnHosts {
    pub(crate) named: Vec<String>,
    /// The port behind any address, where it listens on every one.
    pub(crate) port: Option<String>,
}

impl OwnHosts {
    /// Those of a listener at this address.
    pub fn of(alloc: Global, address: SocketAddr) -> Result<OwnHosts, AllocError>
        ensures { IfOk result (λ hosts. (hosts_view hosts).named ≡ named_at address) }
    {
        let mut named = Vec::with_capacity(alloc, 2)?;
        named.push(format!(in alloc; "{address}")?)?;
        let port = port_text(alloc, address.port())?;
        named.push(format!(in alloc; "localhost{port}")?)?;
        let port = if address.ip().is_unspecified() {
            Some(port)
        } else {
            None
        };
        Ok(OwnHosts { named, port })
    }

    /// Whether there is a host, and it is one of these.
    pub(crate) fn are_named(&self, host: Option<&HeaderValue>) -> bool
        ensures { result ≡ names_own (hosts_view self.now) (value_of (option_copied host.entry)) }
    {
        match host {
            Some(host) => self.have(host.as_bytes()),
            None => false,
        }
    }

    /// Whether no page is named, or one that the listener itself has sent.
    pub(crate) fn have_sent(&self, origin: Option<&HeaderValue>) -> bool
        ensures { result ≡ is_no_stranger (hosts_view self.now) (value_of (option_copied origin.entry)) }
    {
        match origin {
            Some(origin) => self.are_of(origin.as_bytes()),
            None => true,
        }
    }

    /// Whether an origin is of one of these.
    fn are_of(&self, origin: &[u8]) -> bool
        ensures { result ≡ is_own_origin (hosts_view self.now) origin.now }
    {
        if origin.len() < SCHEME.len() {
            return false;
        }
        let (scheme, host) = origin.split_at(SCHEME.len());
        scheme == SCHEME && self.have(host)
    }

    /// Whether a host is one of these.
    fn have(&self, host: &[u8]) -> bool
        ensures { result ≡ is_own (hosts_view self.now) host.now }
    {
        is_named(self.named.as_slice(), host) || is_anywhere(&self.port, host)
    }
}

/// A port, behind an address.
fn port_text(alloc: Global, port: u16) -> Result<String, AllocError>
    ensures { IfOk result (λ text. string_bytes text ≡ port_text port) }
{
    format!(in alloc; ":{port}")
}

/// Whether a host is one of these names.
fn is_named(named: &[String], host: &[u8]) -> bool
    ensures { result ≡ list_any (is_same_host host.now) (map string_bytes named.now) }
{
    for name in named {
        if is_same_host(host, name.as_bytes()) {
            return true;
        }
    }
    false
}

/// Whether two hosts are the same, in any case of letters.
fn is_same_host(host: &[u8], name: &[u8]) -> bool
    ensures { result ≡ is_same_host host.now name.now }
{
    host.eq_ignore_ascii_case(name)
}

/// Whether a host is an address with this port, where any is the listener's.
fn is_anywhere(port: &Option<String>, host: &[u8]) -> bool
    ensures { result ≡ is_anywhere (option_map string_bytes port.now) host.now }
{
    match port {
        Some(port) => is_literal_at(port.as_str(), host),
        None => false,
    }
}

/// Whether a host is an address with this port.
fn is_literal_at(port: &str, host: &[u8]) -> bool
    ensures { result ≡ is_literal_at port.now host.now }
{
    let (address, rest) = host.split_at(host.len().saturating_sub(port.len()));
    is_literal(address) && rest == port.as_bytes()
}

/// Whether this is an address and no name.
fn is_literal(address: &[u8]) -> bool
    ensures { result ≡ is_literal address.now }
{
    match address.first() {
        Some(b'[') => true,
        Some(_) => are_digits_and_dots(address),
        None => false,
    }
}

fn are_digits_and_dots(bytes: &[u8]) -> bool
    ensures { result ≡ list_all is_digit_or_dot bytes.now }
{
    bytes.iter().all(|byte| is_digit_or_dot(*byte))
}

fn is_digit_or_dot(byte: u8) -> bool
    ensures { result ≡ is_digit_or_dot byte }
{
    byte.is_ascii_digit() || byte == b'.'
}
