//! The commands with their words.
use flagops_ramps::Verifying;
use flagops_words::Factor;

/// What `picture` is asked for: the files of a rollout and of its plan, the factor that it was made with, and how the document is read.
#[derive(Clone, Copy, Debug)]
pub struct Picturing<'a> {
    pub document: &'a str,
    pub request: &'a str,
    pub book: &'a str,
    pub plan: &'a str,
    pub refine: Option<Factor>,
    /// Whether the document may have floats.
    pub floats: bool,
}

/// What `picture --ramp` is asked for: the answers to the steps of a rollout, as `verify-ramp` takes them.
#[derive(Clone, Copy, Debug)]
pub struct PicturingRamp<'a> {
    pub answers: Verifying<'a>,
}

/// What `plan --picture` is asked for: the files of a rollout, the factor, the file that the picture is written to, and how the
/// plan is told.
#[derive(Clone, Copy, Debug)]
pub struct Planning<'a> {
    pub document: &'a str,
    pub request: &'a str,
    pub book: &'a str,
    pub picture: &'a str,
    pub refine: Option<Factor>,
    /// Whether what is doubted is refused, and not only told.
    pub strict: bool,
    /// Whether the answer is told in words.
    pub explain: bool,
    /// Whether the document may have floats.
    pub floats: bool,
}
