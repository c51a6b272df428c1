//! How a log's file is lost.
ghost use Rattle.std.specs.Prelude.{◌≡◌};
ghost use Rattle.log_file.specs.Loss.{loss_of, loss_with_links};

/// How a log's file is lost.
#[derive(Clone, Copy, Debug, PartialEq, Eq)]
pub enum Loss {
    /// Nothing is at its path.
    Missing,
    /// Another file is at its path.
    Replaced,
    /// It has fewer bytes than it was left with.
    Shorter,
    /// The system does not say what is at its path.
    Unseen,
    /// It has no name any more: what stands in it is gone once it is closed.
    Removed,
}

/// What tells a file from others (the device that it is on, and its number there), and how many bytes it has.
#[derive(Clone, Copy, Debug, PartialEq, Eq)]
pub(crate) struct FileMark {
    pub(crate) device: u64,
    pub(crate) inode: u64,
    pub(crate) len: u64,
}

/// How the file that is held open, which was left with `len` bytes, is lost, where this one is at its path.
pub(crate) fn loss_of(held: FileMark, at_path: FileMark, len: u64) -> Option<Loss>
    ensures { result ≡ loss_of held at_path len }
{
    if held.device != at_path.device || held.inode != at_path.inode {
        Some(Loss::Replaced)
    } else if at_path.len < len {
        Some(Loss::Shorter)
    } else {
        None
    }
}

/// How a file is lost that has so many names, where the number is known, and is lost so by what is at its path.
pub(crate) fn loss_with_links(loss: Loss, links: Option<u64>) -> Loss
    ensures { result ≡ loss_with_links loss links }
{
    match links {
        Some(0) => Loss::Removed,
        _ => loss,
    }
}
