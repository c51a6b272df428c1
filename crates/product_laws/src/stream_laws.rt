//! What holds of the definitions of frames and of resolutions.
ghost use Rattle.product_laws.specs.Resolves.{ResolvesAsSent, ResolvesFloatsAsSent};

/// Of a stream of frames of snapshots, each snapshot that comes out resolves everything as the flags do that were first framed
/// with its number, also where flags have floats. A law: it computes nothing.
pub fn streams_resolve_as_sent()
    ensures plain { ResolvesAsSent }
    ensures floats { ResolvesFloatsAsSent }
{}
