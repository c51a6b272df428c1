//! What the commands are for that libraries of their own read: a line of the program's help, and the first line of their own.

pub const CHECK: &str =
    "Prints which flags of the documents are good and which are broken, and warns of what looks like a mistake";

pub const COMPARE: &str =
    "Prints how many recorded users get another variant by an edit of a document, and which";

pub const BOOK: &str = "Merges books and files of note lines into one book";

pub const RAMP: &str = "Plans a rollout in steps, each from the rule that the step before leaves";

pub const VERIFY_RAMP: &str =
    "Checks the plans of a rollout in steps, independently of the planner";

pub const PICTURE: &str =
    "Draws a plan as SVG: what it moves, and what it costs; with --ramp the steps of a rollout";

pub const RECORD: &str =
    "Prints the hash inputs that a flag's evaluation reaches, for each context on the standard input";

pub const TALLY: &str =
    "Counts the hash inputs on each point of a site, from sorted note lines on the standard input";

pub const JOIN: &str = "Joins tallies of consecutive parts of the sorted lines into one";

pub const OFREP: &str =
    "Serves flag evaluations over HTTP (OpenFeature Remote Evaluation Protocol)";

pub const SERVE: &str = "Publishes flag documents to subscribers on a port of this host";

pub const FOLLOW: &str = "Prints a line for each snapshot that is served on a port of this host";
