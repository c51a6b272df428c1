//! Which files of a folder are logs.
ghost use Rattle.std.specs.Prelude.{◌≡◌};
ghost use Rattle.control_desk.specs.Names.{has_log, is_chosen, is_compressed, is_log};

/// Whether a file is one of the logs of workers, by its name: `worker-*.log*`. Those that were rotated are, too.
pub(crate) fn is_log(name: &[u8]) -> bool
    ensures { result ≡ is_log name.now }
{
    name.starts_with(b"worker-") && has_log(name)
}

/// Whether `.log` stands in a name.
fn has_log(name: &[u8]) -> bool
    ensures { result ≡ has_log name.now }
{
    for place in 0..name.len() {
        if name[place..].starts_with(b".log") {
            return true;
        }
    }
    false
}

/// Whether a file is compressed, by its name.
pub(crate) fn is_compressed(name: &[u8]) -> bool
    ensures { result ≡ is_compressed name.now }
{
    name.ends_with(b".gz")
        || name.ends_with(b".xz")
        || name.ends_with(b".zst")
        || name.ends_with(b".bz2")
}

/// Whether a file is a log, and is compressed or is not.
pub(crate) fn is_chosen(compressed: bool, name: &[u8]) -> bool
    ensures { result ≡ is_chosen compressed name.now }
{
    if compressed {
        is_log(name) && is_compressed(name)
    } else {
        is_log(name) && !is_compressed(name)
    }
}
