//! What a service is asked, and what it answers.
use crate::fault::HubFault;
use crate::hub::SubId;
use crate::snapshot::Snapshot;
use book_core::{BookFault, Noted, Page};
use source_merge::SourceFault;
use thiserror::Error;

/// What a service is asked.
#[derive(Drop)]
pub enum Event {
    /// To read a document and keep it as the last one of a source.
    SetSource {
        /// The name of the source.
        source: String,
        /// The document.
        bytes: Vec<u8>,
    },
    /// To drop the document of a source.
    ClearSource {
        /// The name of the source.
        source: String,
    },
    /// To merge the sources and publish that.
    Publish,
    /// For an id, to take snapshots with.
    Join,
    /// For the last snapshot, where it is newer than the one taken last.
    Take {
        /// The id of the subscriber.
        sub: SubId,
    },
    /// To be a subscriber no more.
    Leave {
        /// The id of the subscriber.
        sub: SubId,
    },
    /// To note a hash input in the book.
    Note {
        /// The number of the seat that notes it, from 0.
        seat: u32,
        /// The page that it is noted on.
        page: Page,
        /// The hash input.
        input: String,
    },
    /// To note nothing more.
    Seal,
}

/// What a service answers.
#[derive(Drop)]
pub enum Answer {
    /// A source was set or cleared, or a subscriber has left.
    Done,
    /// The number of the snapshot that was published.
    Published(u64),
    /// The id of the new subscriber.
    Joined(SubId),
    /// The last snapshot; none where it was taken before.
    Taken(Option<Snapshot>),
    /// Whether the input was new on its page.
    Noted(Noted),
    /// How many inputs the sealed book has.
    Sealed(u128),
    /// The event was refused, and has changed nothing.
    Refused(Refusal),
}

/// Why an event was refused.
#[derive(Clone, Copy, Debug, PartialEq, Eq, Error)]
pub enum Refusal {
    /// By the sources.
    #[error("{0}")]
    Source(SourceFault),
    /// By the hub.
    #[error("{0}")]
    Hub(HubFault),
    /// By the book.
    #[error("{0}")]
    Book(BookFault),
    /// The book is sealed.
    #[error("the book is sealed")]
    AlreadySealed,
}
