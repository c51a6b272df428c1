//! The trace that a request belongs to.
ghost use Rattle.std.specs.Prelude.{◌≡◌, codes, drop, option_map, take};
ghost use Rattle.std.specs.List.{list_all};
ghost use Rattle.std.specs.Str.{bytes_eq};
ghost use Rattle.service_layers.specs.Trace.{is_hex, is_placed, is_trace, is_zero, trace_in};

/// The bytes of the value of a field `traceparent`, up to the hyphen behind the identifier.
const LEAST: usize = 36;

/// The identifier that the value of a field `traceparent` has.
pub(crate) fn trace_in(value: &[u8]) -> Option<&[u8]>
    ensures { option_map (λ id. id.now) result ≡ trace_in value.now }
{
    if value.len() < LEAST {
        return None;
    }
    let (_version, rest) = value.split_at(3);
    let (id, _rest) = rest.split_at(32);
    if is_placed(value) && is_trace(id) {
        Some(id)
    } else {
        None
    }
}

/// Whether an identifier stands behind a version, between two hyphens.
fn is_placed(value: &[u8]) -> bool
    ensures { result ≡ is_placed value.now }
{
    is_hyphen_at(value, 2) && is_hyphen_at(value, 35)
}

fn is_hyphen_at(value: &[u8], place: usize) -> bool
    ensures { result ≡ bytes_eq (take 1 (drop place value.now)) (codes "-") }
{
    match value.get(place) {
        Some(byte) => *byte == b'-',
        None => false,
    }
}

/// Whether this is an identifier: digits, and not all of them are 0.
fn is_trace(id: &[u8]) -> bool
    ensures { result ≡ is_trace id.now }
{
    are_hex(id) && !are_zeros(id)
}

fn are_hex(id: &[u8]) -> bool
    ensures { result ≡ list_all is_hex id.now }
{
    id.iter().all(|byte| is_hex(*byte))
}

fn is_hex(byte: u8) -> bool
    ensures { result ≡ is_hex byte }
{
    byte.is_ascii_digit() || b'a' <= byte && byte <= b'f'
}

fn are_zeros(id: &[u8]) -> bool
    ensures { result ≡ list_all is_zero id.now }
{
    id.iter().all(|byte| *byte == b'0')
}
