//! The commands of the network with their words.
ghost use Rattle.std.specs.Prelude.{◌<◌, length};

/// What `serve` is asked for: to publish documents, by their paths, to so many subscribers on a port, each within so many
/// seconds, 0 for ever.
#[derive(Debug, Drop)]
pub struct Serving<'a> {
    pub port: u16,
    pub subscribers: usize,
    pub wait: u64,
    pub documents: Vec<&'a str>,
    /// Whether the documents may have floats.
    pub floats: bool,
    ghost some: { 0 < length documents.items },
}

/// What `follow` is asked for: so many turns of the stream on a port, none of which waits longer than so many seconds, 0 for
/// ever.
#[derive(Clone, Copy, Debug, PartialEq, Eq)]
pub struct Following {
    pub port: u16,
    pub turns: u64,
    pub wait: u64,
}
