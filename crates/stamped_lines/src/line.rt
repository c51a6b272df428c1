//! Where lines end.
ghost use Rattle.std.specs.Prelude.{◌≡◌, ◌<◌, ◌≤◌, IfSome, length, take};
ghost use Rattle.std.specs.List.{position};
ghost use Rattle.stamped_lines.specs.Line.{is_feed, is_json, line_length, piece_length};
ghost use Rattle.stamped_lines.specs.Stamped.{begins};

/// What of a text is written at once: its first line, or the rest of the line that is begun. All of it where there are no stamps, and
/// where it is objects of JSON, which have none.
pub(crate) fn piece(has_stamps: bool, is_begun: bool, text: &[u8]) -> &[u8]
    ensures { result.now ≡ take (piece_length has_stamps is_begun text.now) text.now }
{
    if has_stamps && !is_json(is_begun, text) {
        &text[..line_len(text)]
    } else {
        text
    }
}

/// Whether a line that has a stamp begins with the text.
pub(crate) fn begins(is_begun: bool, text: &[u8]) -> bool
    ensures { result ≡ begins is_begun text.now }
{
    !is_begun && !is_json(is_begun, text) && !text.is_empty()
}

/// Whether an object of JSON begins with the text.
fn is_json(is_begun: bool, text: &[u8]) -> bool
    ensures { result ≡ is_json is_begun text.now }
{
    !is_begun && text.starts_with(b"{")
}

/// How many bytes the first line has, with its line feed.
fn line_len(text: &[u8]) -> usize
    ensures length { result ≡ line_length text.now }
    ensures within { result ≤ length text.now }
{
    match feed_at(text) {
        Some(place) => place + 1,
        None => text.len(),
    }
}

/// Where the first line feed stands.
fn feed_at(text: &[u8]) -> Option<usize>
    ensures at { result ≡ position is_feed text.now }
    ensures within { IfSome result (λ at. at < length text.now) }
{
    text.iter().position(|byte| *byte == b'\n')
}
