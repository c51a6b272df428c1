//! The commands on steps with their words.
use flagops_words::Factor;

/// What `ramp` is asked for: the answers to the steps of a rollout.
#[derive(Clone, Copy, Debug)]
pub struct Ramping<'a> {
    pub document: &'a str,
    pub steps: &'a str,
    pub book: &'a str,
    pub refine: Option<Factor>,
    /// Whether what is doubted is refused, and not only told.
    pub strict: bool,
    /// Whether the document may have floats.
    pub floats: bool,
}

/// What `apply --step` is asked for: a document with the rule that a step left at a site of a flag.
#[derive(Clone, Copy, Debug)]
pub struct Applying<'a> {
    pub document: &'a str,
    pub ramp: &'a str,
    pub key: &'a str,
    pub site: u32,
    pub step: u32,
    /// Whether it is refused, and not only told, that what is printed leaves something of the document out.
    pub strict: bool,
    /// Whether the document may have floats.
    pub floats: bool,
}

/// What `apply --step --keep` is asked for: a document with the rule of the answer to a step, and all else as it was.
#[derive(Clone, Copy, Debug)]
pub struct Keeping<'a> {
    pub answered: Verifying<'a>,
    /// The number of the step, from 1.
    pub step: u32,
    /// Whether the text is written over the document, and not printed.
    pub write: bool,
}

/// What `verify-ramp` is asked for: whether the answers of a file are right for a rollout in steps.
#[derive(Clone, Copy, Debug)]
pub struct Verifying<'a> {
    pub rollout: Ramping<'a>,
    pub ramp: &'a str,
}
