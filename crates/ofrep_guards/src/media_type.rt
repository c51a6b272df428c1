//! The media type of a body.
ghost use Rattle.std.specs.Prelude.{◌≡◌, ◌==◌, ◌||◌};
ghost use Rattle.ofrep_guards.specs.Asked.{ends_type, is_json, is_json_name, is_white};

/// The media type of JSON (RFC 8259, 11).
const JSON: &[u8] = b"application/json";

/// Whether the value of a field `Content-Type` is JSON, whatever its parameters are.
pub(crate) fn is_json(value: &[u8]) -> bool
    ensures { result ≡ is_json value.now }
{
    if value.len() < JSON.len() {
        return false;
    }
    let (name, rest) = value.split_at(JSON.len());
    is_json_name(name) && ends_type(rest)
}

/// Whether this is the name of JSON, in any case of letters.
fn is_json_name(name: &[u8]) -> bool
    ensures { result ≡ is_json_name name.now }
{
    name.eq_ignore_ascii_case(JSON)
}

/// Whether what follows a media type ends it: nothing, or parameters.
fn ends_type(rest: &[u8]) -> bool
    ensures { result ≡ ends_type rest.now }
{
    for byte in rest {
        if !is_white(*byte) {
            return *byte == b';';
        }
    }
    true
}

fn is_white(byte: u8) -> bool
    ensures { result ≡ is_white byte }
{
    byte == b' ' || byte == b'\t'
}
