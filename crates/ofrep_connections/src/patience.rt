//! How long connections are kept.
ghost use Rattle.std.specs.Prelude.{◌≡◌};

/// A connection that has had nothing to do for so many seconds is closed, unless another number is named: longer than proxies mostly
/// keep one, so that it is they who close it.
const IDLE_SECONDS: u64 = 75;

/// A request comes whole within so many seconds of its first byte.
const REQUEST_SECONDS: u64 = 30;

/// How long a worker waits for its clients.
#[derive(Clone, Copy, Debug, PartialEq, Eq)]
pub struct Patience {
    /// A connection that has had nothing to do for so many seconds is closed.
    pub idle_seconds: u64,
    /// A request that is not whole so many seconds after its first byte is answered 408, and its connection closed.
    pub request_seconds: u64,
}

impl Patience {
    /// An idle connection is kept for so many seconds, and a request has its usual time.
    pub fn with_idle_seconds(idle_seconds: u64) -> Patience
        ensures idle { result.idle_seconds ≡ idle_seconds }
        ensures request { result.request_seconds ≡ 30 }
    {
        Patience {
            idle_seconds,
            request_seconds: REQUEST_SECONDS,
        }
    }
}

impl Default for Patience {
    ghost is_default = { λ p. (p.idle_seconds ≡ 75) × (p.request_seconds ≡ 30) };

    fn default() -> Patience {
        Patience::with_idle_seconds(IDLE_SECONDS)
    }
}
