//! Which texts can be the origin that a browser names.
ghost use Rattle.std.specs.Prelude.{◌≡◌, ◌==◌, ◌-◌, codes, drop, length, not, option_map, take};
ghost use Rattle.std.specs.List.{list_any, position_from};
ghost use Rattle.std.specs.Str.{bytes_eq};
ghost use Rattle.ofrep_guards.specs.Origin.{behind, has_own_port, host_fault, host_in, is_host_byte, is_path_byte, is_upper, is_word, origin_fault};

/// What stands between the scheme and the host.
const BETWEEN: &[u8] = b"://";

const HTTP: &[u8] = b"http://";

const HTTPS: &[u8] = b"https://";

/// The port that `http` has by itself.
const HTTP_PORT: &[u8] = b":80";

/// The port that `https` has by itself.
const HTTPS_PORT: &[u8] = b":443";

/// Why no browser names an origin so.
#[derive(Clone, Copy, Debug, PartialEq, Eq)]
pub enum OriginFault {
    /// It is not a scheme, `://` and a host.
    NoOrigin,
    /// It has an upper-case letter.
    UpperCase,
    /// Something stands behind the host: a path, be it a slash alone, a query or a fragment.
    Path,
    /// It names the port that its scheme has by itself.
    OwnPort,
    /// It has a byte that no host has.
    BadByte,
}

/// Why no origin that a browser names is this entry of a list; none where one may be, as of `*` and `null`. It takes no memory.
pub fn origin_fault(entry: &str) -> Option<OriginFault>
    ensures { result ≡ origin_fault entry.now }
{
    if is_word(entry) {
        return None;
    }
    let origin = entry.as_bytes();
    match host_in(origin) {
        Some(host) => host_fault(origin, host),
        None => Some(OriginFault::NoOrigin),
    }
}

/// Whether an entry of a list stands for any origin, or for the pages that have none.
fn is_word(entry: &str) -> bool
    ensures { result ≡ is_word entry.now }
{
    entry == "*" || entry == "null"
}

/// What follows the scheme of an origin: the host, with its port.
fn host_in(origin: &[u8]) -> Option<&[u8]>
    ensures { option_map (λ host. host.now) result ≡ host_in origin.now }
{
    let colon = colon_in(origin)?;
    let (_scheme, rest) = origin.split_at(colon);
    behind(rest)
}

/// The place of the first colon.
fn colon_in(bytes: &[u8]) -> Option<usize>
    ensures { result ≡ position_from (λ b. b == 58) 0 bytes.now }
{
    bytes.iter().position(|byte| *byte == b':')
}

/// What follows a colon and two slashes, unless it is nothing.
fn behind(rest: &[u8]) -> Option<&[u8]>
    ensures { option_map (λ host. host.now) result ≡ behind rest.now }
{
    if rest.len() < 3 {
        return None;
    }
    let (between, host) = rest.split_at(3);
    if between == BETWEEN && !host.is_empty() {
        Some(host)
    } else {
        None
    }
}

/// Why no browser names an origin of this host.
fn host_fault(origin: &[u8], host: &[u8]) -> Option<OriginFault>
    ensures { result ≡ host_fault origin.now host.now }
{
    if has_upper(origin) {
        return Some(OriginFault::UpperCase);
    }
    if has_path(host) {
        return Some(OriginFault::Path);
    }
    if has_other(host) {
        return Some(OriginFault::BadByte);
    }
    if has_own_port(origin) {
        return Some(OriginFault::OwnPort);
    }
    None
}

fn has_upper(origin: &[u8]) -> bool
    ensures { result ≡ list_any is_upper origin.now }
{
    origin.iter().any(|byte| byte.is_ascii_uppercase())
}

fn has_path(host: &[u8]) -> bool
    ensures { result ≡ list_any is_path_byte host.now }
{
    host.iter().any(|byte| is_path_byte(*byte))
}

fn is_path_byte(byte: u8) -> bool
    ensures { result ≡ is_path_byte byte }
{
    byte == b'/' || byte == b'?' || byte == b'#'
}

/// Whether a host has a byte that none has.
fn has_other(host: &[u8]) -> bool
    ensures { result ≡ list_any (λ b. not (is_host_byte b)) host.now }
{
    host.iter().any(|byte| !is_host_byte(*byte))
}

fn is_host_byte(byte: u8) -> bool
    ensures { result ≡ is_host_byte byte }
{
    byte.is_ascii_lowercase()
        || byte.is_ascii_digit()
        || byte == b'.'
        || byte == b'-'
        || byte == b'_'
        || byte == b':'
        || byte == b'['
        || byte == b']'
}

/// Whether an origin names the port that its scheme has by itself.
fn has_own_port(origin: &[u8]) -> bool
    ensures { result ≡ has_own_port origin.now }
{
    is_http(origin) && ends_with_80(origin) || is_https(origin) && ends_with_443(origin)
}

fn is_http(origin: &[u8]) -> bool
    ensures { result ≡ bytes_eq (take 7 origin.now) (codes "http://") }
{
    if origin.len() < 7 {
        return false;
    }
    let (scheme, _) = origin.split_at(7);
    scheme == HTTP
}

fn is_https(origin: &[u8]) -> bool
    ensures { result ≡ bytes_eq (take 8 origin.now) (codes "https://") }
{
    if origin.len() < 8 {
        return false;
    }
    let (scheme, _) = origin.split_at(8);
    scheme == HTTPS
}

fn ends_with_80(origin: &[u8]) -> bool
    ensures { result ≡ bytes_eq (drop (length origin.now - 3) origin.now) (codes ":80") }
{
    let (_, port) = origin.split_at(origin.len().saturating_sub(3));
    port == HTTP_PORT
}

fn ends_with_443(origin: &[u8]) -> bool
    ensures { result ≡ bytes_eq (drop (length origin.now - 4) origin.now) (codes ":443") }
{
    let (_, port) = origin.split_at(origin.len().saturating_sub(4));
    port == HTTPS_PORT
}
