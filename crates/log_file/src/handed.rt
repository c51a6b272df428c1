//! What a file was handed.
ghost use Rattle.std.specs.Prelude.{◌≡◌, ◌++◌, [], take};
ghost use Rattle.log_file.specs.Handed.{handed_in};

use bytes::BytesMut;
use http_server::Log;

/// Bytes that stand in the file of a journal, since they were handed to it, or were read of it. Only proofs read them, and a journal
/// alone says what they are.
#[derive(Drop)]
pub struct Handed {
    writes: Log<BytesMut, usize>,
}

impl Handed {
    /// No bytes.
    pub(crate) fn none() -> Handed
        ensures { handed_in result.writes.items ≡ [] }
    {
        Handed { writes: Log::new() }
    }

    /// The same, and then so many of these.
    #[tactic(auto, using(crate::proofs::Handing::one_write))]
    pub(crate) fn and(&self, bytes: &BytesMut, count: usize) -> Handed
        ensures { handed_in result.writes.items ≡ handed_in self.now.writes.items ++ take count bytes.now.items }
    {
        Handed {
            writes: self.writes.and(bytes, &count),
        }
    }
}
