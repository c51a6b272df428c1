//! How the stream of a subscriber ended.
ghost use Rattle.flagops_streams.specs.Sent.{IsEnd};
ghost use Rattle.flagops_streams.specs.declared.disconnected.TheConstants.{MOST_TURNS};

use sync_server::StreamEnd;

/// The most turns of one stream.
pub(crate) const MOST_TURNS: u64 = 1_000;

/// How a subscriber's stream ended. Whoever makes one shows that a stream was served from a seat and ended so, or that the
/// connection failed.
#[derive(Clone, Copy)]
pub(crate) struct Disconnected {
    pub(crate) end: StreamEnd,
    /// How many frames were written whole.
    pub(crate) frames: u64,
    /// The number above which one was asked for last: where the numbers were closed, that of the last frame, or 0.
    pub(crate) number: u64,
    pub(crate) ghost served: { ∥ IsEnd MOST_TURNS end frames number ∥₁ },
}
