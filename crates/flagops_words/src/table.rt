//! The commands of `flagops_commands` with their words, as the help of the program lists them.

use crate::numbers::{LARGEST_16, LARGEST_32, LATEST_MOMENT};
use crate::{about, example};

/// A command with its words.
pub struct Usage {
    pub name: &'static str,
    /// What it does.
    pub about: &'static str,
    pub words: &'static [Word],
    /// What its help ends with.
    pub after: &'static str,
}

/// A word of a command: the name by which it is read, and what it is.
pub enum Word {
    /// A text that has to be there.
    Text(&'static str, &'static str),
    /// A number that has to be there, from 0 to this one.
    Number(&'static str, &'static str, u64),
    /// An option with a number, which may be left out: after what it is, its long name and the bounds.
    Option(&'static str, &'static str, &'static str, u64, u64),
    /// An option without a value, by its long name.
    Flag(&'static str, &'static str),
}

const DOCUMENT: Word = Word::Text("DOC", "The flag document");

const REQUEST: Word = Word::Text("REQUEST", "The file of the rollout request");

const BOOK: Word = Word::Text(
    "BOOK",
    "The book of the hash inputs that were recorded, or a tally of them",
);

/// What `--strict` does to a command that tells what it doubts.
pub const STRICT_HELP: &str =
    "Treat warnings as errors: end with status 1 (docs/REFUSALS.md lists them)";

/// What `--floats` does to a command that reads a document.
pub const FLOATS_HELP: &str =
    "Accept any numbers as variants: a flag with one that is not whole is of the kind float";

const FLOATS: Word = Word::Flag("floats", FLOATS_HELP);

const STRICT: Word = Word::Flag("strict", STRICT_HELP);

const JSON: Word = Word::Flag("json", "Print the result as JSON, one text a line");

const EXPLAIN: Word = Word::Flag(
    "explain",
    "Explain on standard error what the plan changes, or why no rule fits",
);

const PLAN_FILE: Word = Word::Text("PLAN", "The plan file");

const REFINE: Word = Word::Option(
    "M",
    "Plan in finer points: multiply each weight of the rule by M first; 10 gives tenths of a percent",
    "refine",
    1,
    LARGEST_32,
);

/// The commands, in the order of the help: those that are read here, and then those that are only listed.
pub const COMMANDS: &[Usage] = &[
    BUCKET,
    PRICE,
    RESOLVE,
    PLAN,
    VERIFY,
    APPLY,
    DRIVE,
    COMPLETIONS,
    LISTED_CHECK,
    LISTED_COMPARE,
    LISTED_BOOK,
    LISTED_RAMP,
    LISTED_VERIFY_RAMP,
    LISTED_PICTURE,
    LISTED_RECORD,
    LISTED_TALLY,
    LISTED_JOIN,
    LISTED_OFREP,
    LISTED_SERVE,
    LISTED_FOLLOW,
];

const BUCKET: Usage = Usage {
    name: "bucket",
    about: "Prints the hash of a key, its point on a rule and the variant there",
    words: &[
        Word::Text("RULE", "The rule file, as [[\"red\",50],[\"blue\",50]]"),
        Word::Text("KEY", "The hash input, as a targeting key"),
        JSON,
    ],
    after: example::BUCKET,
};

const PRICE: Usage = Usage {
    name: "price",
    about: "Prints the totals of a new rule, and its cost over the keys of a file",
    words: &[
        Word::Text("OLD", "The file of the old rule"),
        Word::Text("NEW", "The file of the new rule, of the same total"),
        Word::Text("REQUEST", "The file of prices and prohibitions"),
        Word::Text("KEYS", "The file of hash inputs, a list of texts"),
        JSON,
    ],
    after: example::PRICE,
};

const RESOLVE: Usage = Usage {
    name: "resolve",
    about: RESOLVES,
    words: QUESTION,
    after: example::RESOLVE,
};

/// The command outside the program, with the program's name before its own.
pub const RESOLVE_ALONE: Usage = Usage {
    name: "flagops resolve",
    about: RESOLVES,
    words: QUESTION,
    after: example::RESOLVE,
};

const RESOLVES: &str = "Prints what the flag of a key resolves to in a context";

const QUESTION: &[Word] = &[
    DOCUMENT,
    Word::Text("KEY", "The flag's key"),
    Word::Text(
        "KIND",
        "bool, text, whole, object or float, or flagd's boolean, string or integer",
    ),
    Word::Text(
        "DEFAULT",
        "What to return if the flag gives no value, as JSON",
    ),
    Word::Text("CONTEXT", "The file of the evaluation context"),
    Word::Number(
        "MOMENT",
        "The time of the evaluation, in seconds since 1970",
        LATEST_MOMENT,
    ),
    FLOATS,
];

const PLAN: Usage = Usage {
    name: "plan",
    about: "Prints the rule that a rollout request asks for and that switches the fewest users; plan --picture FILE draws it, too",
    words: &[DOCUMENT, REQUEST, BOOK, REFINE, STRICT, EXPLAIN, FLOATS],
    after: example::PLAN,
};

const VERIFY: Usage = Usage {
    name: "verify",
    about: "Checks, independently of the planner, that a plan is valid and the cheapest for a rollout request",
    words: &[
        DOCUMENT, REQUEST, BOOK, PLAN_FILE, REFINE, STRICT, JSON, FLOATS,
    ],
    after: example::VERIFY,
};

const APPLY: Usage = Usage {
    name: "apply",
    about: APPLIES,
    words: RULE_AND_PLACE,
    after: example::APPLY,
};

/// The command outside the program, with the program's name before its own.
pub const APPLY_ALONE: Usage = Usage {
    name: "flagops apply",
    about: APPLIES,
    words: RULE_AND_PLACE,
    after: example::APPLY,
};

const APPLIES: &str =
    "Prints a document with the rule of a plan at a site of a flag; with --keep nothing else of its text changes; apply --step N takes a step of a ramp";

const RULE_AND_PLACE: &[Word] = &[
    DOCUMENT,
    PLAN_FILE,
    Word::Text(
        "FLAG|REQUEST",
        "The flag's key; with --keep the file of the rollout request, which names the flag and the site",
    ),
    Word::Text(
        "SITE|BOOK",
        "The number of the fractional operation, from 0; with --keep the book of the hash inputs that were recorded",
    ),
    Word::Flag(
        "keep",
        "Verify the plan first, and change nothing in the text of the document but the buckets of the plan",
    ),
    Word::Flag(
        "write",
        "With --keep: write the document over DOC instead of printing it",
    ),
    Word::Option(
        "M",
        "With --keep: the factor that the plan was made with",
        "refine",
        1,
        LARGEST_32,
    ),
    Word::Flag(
        "strict",
        "Treat warnings as errors: with --keep doubts, and without it whatever is left out of the document",
    ),
    Word::Flag(
        "doubted",
        "With --keep --write: write in spite of doubts, which are errors otherwise",
    ),
    FLOATS,
];

const DRIVE: Usage = Usage {
    name: "drive",
    about: "Prints what the asks of a file resolve to, and writes a book of the hash inputs that they reach",
    words: &[
        DOCUMENT,
        Word::Text("ASKS", "The file of the asks"),
        Word::Number(
            "WORKERS",
            "How many threads evaluate the asks, from 1 to 64",
            LARGEST_16,
        ),
        Word::Text("BOOK", "The book file that is written"),
        Word::Flag("add", "Add to what BOOK has already"),
        Word::Flag("replace", "Write BOOK even if it loses inputs"),
        STRICT,
        JSON,
        FLOATS,
    ],
    after: example::DRIVE,
};

const COMPLETIONS: Usage = Usage {
    name: "completions",
    about: COMPLETES,
    words: SHELL,
    after: example::COMPLETIONS,
};

/// The command outside the program, with the program's name before its own.
pub const COMPLETIONS_ALONE: Usage = Usage {
    name: "flagops completions",
    about: COMPLETES,
    words: SHELL,
    after: example::COMPLETIONS,
};

const COMPLETES: &str = "Prints the completion script of a shell";

const SHELL: &[Word] = &[Word::Text("SHELL", "bash, fish or zsh")];

const LISTED_CHECK: Usage = Usage {
    name: "check",
    about: about::CHECK,
    words: &[],
    after: example::CHECK,
};

const LISTED_COMPARE: Usage = Usage {
    name: "compare",
    about: about::COMPARE,
    words: &[],
    after: example::COMPARE,
};

const LISTED_BOOK: Usage = Usage {
    name: "book",
    about: about::BOOK,
    words: &[],
    after: example::BOOK,
};

const LISTED_RAMP: Usage = Usage {
    name: "ramp",
    about: about::RAMP,
    words: &[],
    after: example::RAMP,
};

const LISTED_VERIFY_RAMP: Usage = Usage {
    name: "verify-ramp",
    about: about::VERIFY_RAMP,
    words: &[],
    after: example::VERIFY_RAMP,
};

const LISTED_PICTURE: Usage = Usage {
    name: "picture",
    about: about::PICTURE,
    words: &[],
    after: example::PICTURE,
};

const LISTED_RECORD: Usage = Usage {
    name: "record",
    about: about::RECORD,
    words: &[],
    after: example::RECORD,
};

const LISTED_TALLY: Usage = Usage {
    name: "tally",
    about: about::TALLY,
    words: &[],
    after: example::TALLY,
};

const LISTED_JOIN: Usage = Usage {
    name: "join",
    about: about::JOIN,
    words: &[],
    after: example::JOIN,
};

const LISTED_OFREP: Usage = Usage {
    name: "ofrep",
    about: about::OFREP,
    words: &[],
    after: example::OFREP,
};

const LISTED_SERVE: Usage = Usage {
    name: "serve",
    about: about::SERVE,
    words: &[],
    after: example::SERVE,
};

const LISTED_FOLLOW: Usage = Usage {
    name: "follow",
    about: about::FOLLOW,
    words: &[],
    after: example::FOLLOW,
};
