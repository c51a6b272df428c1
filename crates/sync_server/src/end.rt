//! How streams end.
ghost use Rattle.std.specs.Prelude.{◌≡◌, false};
ghost use Rattle.sync_server.specs.End.{is_limit_read, name_of, of_fault};

use sync_frames::FrameFault;

/// Why no more snapshots were read.
#[derive(Clone, Copy, Debug, PartialEq, Eq)]
pub enum ReadEnd {
    /// The input ended behind a whole frame, or was empty.
    Ended,
    /// The input ended within a frame.
    EndedInside,
    /// As many turns were taken as were allowed.
    Limit,
    /// The bytes show this fault.
    Frame(FrameFault),
    /// A read failed.
    ReadFault,
    /// Memory ran out.
    WantOfMemory,
}

/// Why no more frames were written.
#[derive(Clone, Copy, Debug, PartialEq, Eq)]
pub enum StreamEnd {
    /// There will be no higher number.
    Closed,
    /// As many turns were taken as were allowed.
    Limit,
    /// A write failed, or took no byte.
    WriteFault,
    /// The current snapshot can't be read any more.
    ReadSeatFault,
    /// Memory ran out.
    WantOfMemory,
}

impl ReadEnd {
    /// The name that an end is printed with: the variant's.
    pub fn name(&self) -> &'static str
        ensures { result.now ≡ name_of self.now }
    {
        match self {
            ReadEnd::Ended => "Ended",
            ReadEnd::EndedInside => "EndedInside",
            ReadEnd::Limit => "Limit",
            ReadEnd::Frame(_) => "Frame",
            ReadEnd::ReadFault => "ReadFault",
            ReadEnd::WantOfMemory => "WantOfMemory",
        }
    }
}

/// The end by a fault of a feed.
pub(crate) fn end_by(fault: FrameFault) -> ReadEnd
    ensures by_fault { result ≡ of_fault fault }
    ensures other { is_limit_read result ≡ false }
{
    match fault {
        FrameFault::WantOfMemory => ReadEnd::WantOfMemory,
        FrameFault::Length => ReadEnd::Frame(fault),
        FrameFault::NotRising => ReadEnd::Frame(fault),
        FrameFault::Document => ReadEnd::Frame(fault),
        FrameFault::Failed => ReadEnd::Frame(fault),
    }
}
