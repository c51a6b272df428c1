//! Whether a file may be a book, a tally or note lines, by the bytes that it begins with.
ghost use Rattle.std.specs.Prelude.{◌≡◌};
ghost use Rattle.std.specs.List.{position};
ghost use Rattle.flagops_shell.specs.Beginning.{after_blanks, begins_member, begins_name, begins_object, ends_line, first_line, goes_on_as_tally, is_feed, is_ink, is_mark, may_begin_notes, may_begin_record, may_note};

/// True unless these first bytes rule out a book and a tally: the file does not begin with an object whose first name is "book" or
/// "tally", as far as the bytes show it. Hardly any other file passes.
#[tactic(auto, unfolding(crate::specs::Beginning::may_begin_record))]
pub fn may_begin_record(bytes: &[u8]) -> bool
    ensures { result ≡ may_begin_record bytes.now }
{
    begins_object(after_blanks(bytes))
}

fn begins_object(bytes: &[u8]) -> bool
    ensures { result ≡ begins_object bytes.now }
{
    match bytes {
        [] => true,
        [first, rest @ ..] => *first == b'{' && begins_member(after_blanks(rest)),
    }
}

fn begins_member(bytes: &[u8]) -> bool
    ensures { result ≡ begins_member bytes.now }
{
    match bytes {
        [] => true,
        [first, rest @ ..] => *first == b'"' && begins_name(rest),
    }
}

fn begins_name(bytes: &[u8]) -> bool
    ensures { result ≡ begins_name bytes.now }
{
    match bytes {
        [] => true,
        [first, rest @ ..] => *first == b'b'
            || *first == b'\\'
            || *first == b't' && goes_on_as_tally(rest),
    }
}

fn goes_on_as_tally(bytes: &[u8]) -> bool
    ensures { result ≡ goes_on_as_tally bytes.now }
{
    match bytes {
        [] => true,
        [first, ..] => *first == b'a',
    }
}

/// The bytes from the first one on that is no blank.
#[tactic(auto, unfolding(crate::specs::Beginning::after_blanks))]
fn after_blanks(bytes: &[u8]) -> &[u8]
    ensures { result.now ≡ after_blanks bytes.now }
{
    match mark_at(bytes) {
        Some(at) => &bytes[at..],
        None => &[],
    }
}

fn mark_at(bytes: &[u8]) -> Option<usize>
    ensures { result ≡ position is_mark bytes.now }
{
    bytes
        .iter()
        .position(|b| !(*b == b' ' || *b == b'\t' || *b == b'\r'))
}

/// The first line with its line feed, or all bytes where there is none.
#[tactic(auto, unfolding(crate::specs::Beginning::first_line))]
pub fn first_line(bytes: &[u8]) -> &[u8]
    ensures { result.now ≡ first_line bytes.now }
{
    match feed_at(bytes) {
        Some(at) => &bytes[..at + 1],
        None => bytes,
    }
}

fn feed_at(bytes: &[u8]) -> Option<usize>
    ensures { result ≡ position is_feed bytes.now }
{
    bytes.iter().position(|b| *b == b'\n')
}

/// Whether a book may begin so, or a file of note lines: there a line ends, and the first one that is not blank begins with a list,
/// or lines that are none are passed over.
#[tactic(auto, unfolding(crate::specs::Beginning::may_note))]
pub fn may_note(bytes: &[u8], passing: bool) -> bool
    ensures { result ≡ may_note passing bytes.now }
{
    may_begin_record(bytes) || ends_line(bytes) && (passing || may_begin_notes(bytes))
}

/// Whether a line ends in the bytes.
pub fn ends_line(bytes: &[u8]) -> bool
    ensures { result ≡ ends_line bytes.now }
{
    bytes.contains(&b'\n')
}

fn may_begin_notes(bytes: &[u8]) -> bool
    ensures { result ≡ may_begin_notes bytes.now }
{
    let mut left = bytes;
    'bytes: while let [first, rest @ ..] = left {
        if is_ink(*first) {
            return *first == b'[' || !ends_line(rest);
        }
        left = rest;
    }
    true
}

fn is_ink(byte: u8) -> bool
    ensures { result ≡ is_ink byte }
{
    !(byte == b' ' || byte == b'\t' || byte == b'\r') && byte != b'\n'
}
