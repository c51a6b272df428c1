//! What holds of the definitions alone.
ghost use Rattle.sync_frames.specs.Sent.{GivesWhatWasSent};

/// Of a stream of frames of snapshots, each snapshot that comes out is the first that was framed with its number: it has the same
/// flags, of which the same have floats.
pub fn streams_give_what_was_sent()
    ensures flags { GivesWhatWasSent }
{}
