//! Why the service does not start, apart from its documents, its address, its seats and memory.
ghost use Rattle.std.specs.Prelude.{◌≡◌};
ghost use Rattle.flagops_service.specs.Ended.{cors_line, keys_line, log_line, stop_line};

use log_file::LogFault;
use ofrep_guards::{KeyFault, OriginFault};

/// Why the service does not start.
#[derive(Clone, Copy, Debug, PartialEq, Eq)]
pub(crate) enum Stop {
    /// The folder or a file of the logs can't be opened.
    NoLog(LogFault),
    /// The system gives no random bytes, for the keys of tables.
    Unseeded,
    /// A flag is broken, and none is to be.
    BrokenFlags,
    /// No browser names one of the origins so.
    BadOrigin(OriginFault),
    /// The file of keys has none to ask for.
    NoKeys(NoKeys),
}

/// Why a file has no keys to ask for.
#[derive(Clone, Copy, Debug, PartialEq, Eq)]
pub(crate) enum NoKeys {
    /// It can't be read.
    Unreadable,
    /// What it has are no keys.
    Unusable(KeyFault),
}

impl Stop {
    /// The line of the refusal.
    pub(crate) fn line(self) -> &'static str
        ensures { result.now ≡ stop_line self }
    {
        match self {
            Stop::NoLog(fault) => log_line(fault),
            Stop::Unseeded => "refused random 1 Unseeded\n",
            Stop::BrokenFlags => "refused flags 1 Broken\n",
            Stop::BadOrigin(fault) => cors_line(fault),
            Stop::NoKeys(why) => keys_line(why),
        }
    }

    /// Why, for a person.
    pub(crate) fn why(self) -> &'static str {
        match self {
            Stop::NoLog(fault) => why_no_log(fault),
            Stop::Unseeded => {
                "error: the system gives no random bytes\n  they protect tables whose keys clients choose\n"
            }
            Stop::BrokenFlags => {
                "error: flags are broken\n  --broken refuse allows none; \"flagops check DOC..\" names each\n"
            }
            Stop::BadOrigin(fault) => why_no_origin(fault),
            Stop::NoKeys(why) => why_no_keys(why),
        }
    }
}

/// The line of a refusal of an origin.
fn cors_line(fault: OriginFault) -> &'static str
    ensures { result.now ≡ cors_line fault }
{
    match fault {
        OriginFault::NoOrigin => "refused cors 1 NoOrigin\n",
        OriginFault::UpperCase => "refused cors 2 UpperCase\n",
        OriginFault::Path => "refused cors 3 Path\n",
        OriginFault::OwnPort => "refused cors 4 OwnPort\n",
        OriginFault::BadByte => "refused cors 5 BadByte\n",
    }
}

/// Why no browser names an origin so, for a person.
pub(crate) fn why_no_origin(fault: OriginFault) -> &'static str {
    match fault {
        OriginFault::NoOrigin =>
            "an origin is a scheme, \"://\", a host and perhaps a port, as https://app.example.com",
        OriginFault::UpperCase => "browsers write origins in lower case",
        OriginFault::Path => "nothing follows the host and its port, not even a slash",
        OriginFault::OwnPort => "browsers leave out the port 80 of http and 443 of https",
        OriginFault::BadByte =>
            "no host has such a character; browsers write names beyond ASCII as xn--..",
    }
}

/// The line of a refusal of the logs.
fn log_line(fault: LogFault) -> &'static str
    ensures { result.now ≡ log_line fault }
{
    match fault {
        LogFault::WantOfMemory => "refused log 0 WantOfMemory\n",
        LogFault::Unopened => "refused log 1 Unopened\n",
        LogFault::InUse => "refused log 2 InUse\n",
    }
}

/// Why the logs can't be opened, for a person.
fn why_no_log(fault: LogFault) -> &'static str {
    match fault {
        LogFault::WantOfMemory => "error: memory ran out while the logs were opened\n",
        LogFault::Unopened => {
            "error: the logs cannot be opened\n  --log has to name a folder whose files this service may read and write\n"
        }
        LogFault::InUse => {
            "error: the logs are in use\n  another running service records in the folder of --log\n"
        }
    }
}

/// The line of a refusal of the keys.
fn keys_line(why: NoKeys) -> &'static str
    ensures { result.now ≡ keys_line why }
{
    match why {
        NoKeys::Unreadable => "refused keys 1 Unreadable\n",
        NoKeys::Unusable(KeyFault::WantOfMemory) => "refused keys 0 WantOfMemory\n",
        NoKeys::Unusable(KeyFault::NoKey) => "refused keys 2 NoKey\n",
        NoKeys::Unusable(KeyFault::TooLarge) => "refused keys 3 TooLarge\n",
        NoKeys::Unusable(KeyFault::BadKey(_)) => "refused keys 4 BadKey\n",
    }
}

/// Why there are no keys, for a person, where the file is not named.
fn why_no_keys(why: NoKeys) -> &'static str {
    match why {
        NoKeys::Unreadable => {
            "error: the file of --keys cannot be read\n  it is a file with a key on each line\n"
        }
        NoKeys::Unusable(KeyFault::WantOfMemory) => {
            "error: memory ran out while the keys were read\n"
        }
        NoKeys::Unusable(KeyFault::NoKey) => {
            "error: the file of --keys is empty\n  without a key no client could ask for a flag\n"
        }
        NoKeys::Unusable(KeyFault::TooLarge) => {
            "error: the file of --keys has more than 65536 bytes\n"
        }
        NoKeys::Unusable(KeyFault::BadKey(_)) => {
            "error: a line of the file of --keys is not a key\n  a key has at least 16 bytes, all of them visible ASCII; blank lines are not allowed\n"
        }
    }
}
