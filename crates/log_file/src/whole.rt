//! The whole lines of a file.
ghost use Rattle.std.specs.Prelude.{◌≡◌};
ghost use Rattle.log_file.specs.Line.{IsWholePart, lines_in};

use memchr::memrchr;

/// How many of the bytes are whole lines, each with its line feed: all but a last line without its end.
pub fn whole_lines(bytes: &[u8]) -> usize
    ensures { IsWholePart bytes.now result }
{
    match memrchr(b'\n', bytes) {
        Some(place) => place + 1,
        None => 0,
    }
}

/// How many lines end in the bytes.
pub fn lines_in(bytes: &[u8]) -> u64
    ensures { result ≡ lines_in bytes.now }
{
    bytes.iter().filter(|byte| **byte == b'\n').count() as u64
}
