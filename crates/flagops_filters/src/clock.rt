//! The clock.
ghost use Rattle.std.specs.Prelude.{◌<◌, ◌^◌};

use limits::LATEST_MOMENT;
use std::time::{Clock, SystemTime, UNIX_EPOCH};

/// The seconds since 1970: 0 where the clock can't be read or is set before.
pub(crate) fn second<R: Clock>(rt: &R) -> u64
    ensures { result < 2 ^ 53 }
{
    let Ok(now) = SystemTime::now(rt) else {
        return 0;
    };
    match now.duration_since(UNIX_EPOCH) {
        Ok(since) => since.as_secs().min(LATEST_MOMENT),
        Err(_) => 0,
    }
}
