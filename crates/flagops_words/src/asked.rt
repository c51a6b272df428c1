use crate::numbers::{Factor, Moment};
use crate::shell::Shell;
use flag_defs::Kind;

/// A command with its words.
#[derive(Debug, Drop)]
pub enum Asked<'a> {
    /// Which variant a rule file gives to a key.
    Bucket {
        rule: &'a str,
        key: &'a str,
        /// Whether the answer is printed as JSON.
        json: bool,
    },
    /// What a new rule costs the keys of a file.
    Price {
        old: &'a str,
        new: &'a str,
        request: &'a str,
        keys: &'a str,
        /// Whether the answer is printed as JSON.
        json: bool,
    },
    /// What the flag of a key resolves to.
    Resolve {
        document: &'a str,
        key: &'a str,
        kind: Kind,
        default: &'a str,
        context: &'a str,
        moment: Moment,
        /// Whether the document may have floats.
        floats: bool,
    },
    /// Whether the answer of a plan file is right.
    Verify {
        document: &'a str,
        request: &'a str,
        book: &'a str,
        plan: &'a str,
        refine: Option<Factor>,
        /// Whether what is doubted is refused, and not only told.
        strict: bool,
        /// Whether the answer is printed as JSON.
        json: bool,
        /// Whether the document may have floats.
        floats: bool,
    },
    /// The answer of the planner to a request.
    Plan {
        document: &'a str,
        request: &'a str,
        book: &'a str,
        refine: Option<Factor>,
        /// Whether what is doubted is refused, and not only told.
        strict: bool,
        /// Whether the answer is told in words.
        explain: bool,
        /// Whether the document may have floats.
        floats: bool,
    },
    /// The document with the rule of a plan file at a site.
    Apply {
        document: &'a str,
        plan: &'a str,
        key: &'a str,
        site: u32,
        /// Whether it is refused, and not only told, that what is printed leaves something of the document out.
        strict: bool,
        /// Whether the document may have floats.
        floats: bool,
    },
    /// The text of the document with the buckets of the request's site replaced by the rule of a plan file that is right.
    Keep {
        document: &'a str,
        plan: &'a str,
        request: &'a str,
        book: &'a str,
        /// Whether the text is written over the document, and not printed.
        write: bool,
        refine: Option<Factor>,
        /// Whether what is doubted is refused, and not only told.
        strict: bool,
        /// Whether the document may have floats.
        floats: bool,
    },
    /// The resolutions of the asks of a file, and the book of what they reach.
    Drive {
        document: &'a str,
        asks: &'a str,
        workers: u16,
        book: &'a str,
        /// Whether the book keeps what it has.
        add: bool,
        /// Whether what it has may be lost.
        replace: bool,
        /// Whether what is doubted is refused, and not only told.
        strict: bool,
        /// Whether the answer is printed as JSON.
        json: bool,
        /// Whether the document may have floats.
        floats: bool,
    },
    /// The script by which a shell completes the words of the program.
    Completions {
        shell: Shell,
    },
}
