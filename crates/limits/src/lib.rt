//! The limits of the product, each declared once: how large what is read or written may be, and how many of a kind there may be.
//!
//! How deep a JSON text nests and how large its numbers are is a limit of its reader, `flag_text`. `specs/` defines each limit by the
//! same name for contracts, which hold the code to that number.
#![tactic(auto)]

ghost use Rattle.limits.specs.Constants.{AreTheConstants};

/// The most bytes of a document, request, context, file of keys or of asks, and of a line of contexts.
pub const TEXT_BYTES: usize = 4_194_304;

/// The most bytes of a rule, plan, ramp or tally file.
pub const FILE_BYTES: usize = 67_108_864;

/// The most flags of a document, and of several that are merged.
pub const FLAGS: usize = 10_000;

/// The most variants of a flag, and names of a rule that is planned on.
pub const VARIANTS: usize = 64;

/// The most nodes of a targeting, what its references lead to counted at each of them.
pub const EXPRESSION_NODES: u32 = 10_000;

/// How deep the nodes of a targeting nest at most.
pub const EXPRESSION_LEVELS: u32 = 100;

/// The latest moment of an evaluation, in seconds since 1970: the largest whole number of a context.
pub const LATEST_MOMENT: u64 = (1 << 53) - 1;

/// How many numbers a site may have: they are below it.
pub const SITES: i64 = 1 << 32;

/// The most bytes of a hash input that is noted.
pub const INPUT_BYTES: usize = 1024;

/// The most inputs of a page.
pub const PAGE_INPUTS: usize = 1_000_000;

/// The most inputs on one point of a tally or of a rule that is planned on.
pub const POINT_INPUTS: u32 = 67_108_864;

/// The most inputs on all points of a tally or of a rule that is planned on.
pub const TALLY_INPUTS: u64 = 8_589_934_592;

/// The largest total of a rule that is planned on: the most points of a plan or tally.
pub const PLANNED_TOTAL: u32 = 1_000_000;

/// The greatest price of a change.
pub const LARGEST_PRICE: u32 = 1_000_000;

/// The most documents that are merged.
pub const SOURCES: usize = 16;

/// The most seats of a recording or of a shared snapshot, and the most workers or subscribers that take them.
pub const SEATS: usize = 64;

/// The most steps of a ramp.
pub const RAMP_STEPS: usize = 100;

/// The bytes of the stack of a thread: more than the deepest of documents, targetings, contexts and plans take, and the values
/// that they may make.
pub const STACK_BYTES: usize = 4_194_304;

/// How often a read or write that a signal interrupts is made again.
pub const INTERRUPTIONS: u32 = 1_000_000;

/// Each constant is the limit that is defined by its name.
pub fn the_constants_are_the_limits()
    ensures { AreTheConstants }
{}
