//! What is seen of a file at its two ends.
ghost use Rattle.std.specs.Prelude.{◌≡◌, count_by};
ghost use Rattle.file_diagnostics.specs.Ends.{ends_of, is_feed, lines_in};

/// What some editors write before a text in UTF-8.
pub(crate) const BYTE_ORDER_MARK: &[u8] = b"\xef\xbb\xbf";

/// What is seen of the bytes of a file at their two ends.
#[derive(Clone, Copy, Debug)]
pub enum Ends {
    /// There are none.
    Empty,
    /// A byte order mark stands first.
    Marked,
    /// The last line has a line feed.
    Whole,
    /// The last line, which has this number from 1, has no line feed.
    Cut(usize),
}

impl Ends {
    /// The first of these that the bytes of a file have. Cost: one pass where there is no line feed at the end, else none.
    pub fn of(bytes: &[u8]) -> Ends
        ensures { result ≡ ends_of bytes.now }
    {
        if bytes.is_empty() {
            Ends::Empty
        } else if bytes.starts_with(BYTE_ORDER_MARK) {
            Ends::Marked
        } else if bytes.ends_with(b"\n") {
            Ends::Whole
        } else {
            Ends::Cut(lines_in(bytes))
        }
    }

    /// Whether the last line has no line feed and this number, from 1.
    pub(crate) fn is_cut_at(self, line: u64) -> bool {
        match self {
            Ends::Cut(last) => last as u64 == line,
            _ => false,
        }
    }
}

/// How many lines there are, with the one that has no line feed.
fn lines_in(bytes: &[u8]) -> usize
    ensures { result ≡ lines_in bytes.now }
{
    let mut feeds = 0;
    for byte in bytes {
        if *byte == b'\n' {
            feeds += 1;
        }
    }
    feeds + 1
}
