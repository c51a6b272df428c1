//! The command with its words.
ghost use Rattle.std.specs.Prelude.{◌<◌, ◌≤◌, length};

use ofrep_worker::WithoutRecord;

/// What becomes of flags that are broken.
#[derive(Clone, Copy, Debug, PartialEq, Eq)]
pub enum OnBroken {
    /// Those of the start are answered as errors. A document that is read again and harms a flag is refused.
    Keep,
    /// The same, and none is there at the start.
    Refuse,
    /// Whatever a document makes of its flags is answered.
    Serve,
}

/// What `ofrep` is asked for: to answer from documents, by their paths, at an address, also the web pages of these origins, whoever
/// shows a key of a file where one is named, operations at another address where one is given, which may be asked to stop it, and to apply plans to its document, with a line
/// told of each request or none, by so many workers that keep their notes in a folder, with the inputs or with their hashes alone,
/// and remember so many of them together, to serve the stream on a port, and to read the documents again after so many seconds, 0 for
/// never, with idle connections kept for so many seconds and bodies of so many bytes at most; and what becomes of answers that can't
/// be recorded, and of flags that are broken.
#[derive(Debug, Drop)]
pub struct Answering<'a> {
    pub listen: Option<&'a str>,
    pub cors: Vec<&'a str>,
    pub keys: Option<&'a str>,
    pub admin: Option<&'a str>,
    pub allow_stop: bool,
    pub allow_apply: bool,
    pub access_log: bool,
    pub log: Option<&'a str>,
    pub log_points: bool,
    pub remember: u64,
    pub without_record: WithoutRecord,
    pub stream: Option<u16>,
    pub workers: u64,
    pub poll: u64,
    pub idle: u64,
    pub max_body: u64,
    pub broken: OnBroken,
    pub documents: Vec<&'a str>,
    ghost some: { 0 < length documents.items },
}
