//! What the help of each command ends with: the options that other forms of it take, and an example.

pub const BUCKET: &str = "Example:\n  flagops bucket rule.json user-1";

pub const PRICE: &str = "Example:\n  flagops price old.json new.json request.json keys.json";

pub const RESOLVE: &str =
    "Example:\n  flagops resolve shop.json checkout bool false context.json \"$(date +%s)\"";

pub const PLAN: &str =
    "More options:\n      --picture <FILE>  Also write the picture of the plan to this file, as SVG: flagops plan --picture FILE --help\n\nExample:\n  flagops plan shop.json request.json book.txt > plan.json";

pub const PLAN_PICTURE: &str =
    "Example:\n  flagops plan --picture plan.svg shop.json request.json book.txt > plan.json";

pub const VERIFY: &str = "Example:\n  flagops verify shop.json request.json book.txt plan.json";

pub const APPLY: &str =
    "More options:\n      --step <N>  Take the rule of step N of a ramp, as 'flagops ramp' printed it: flagops apply --step N --help\n\nExample:\n  flagops apply --keep --write shop.json plan.json request.json book.txt";

pub const APPLY_STEP: &str =
    "More options:\n      --keep  Verify the steps first, and keep the rest of the text: flagops apply --step N --keep --help\n\nExample:\n  flagops apply --step 1 shop.json ramp.txt checkout 0 > next.json";

pub const KEEP_STEP: &str =
    "Example:\n  flagops apply --step 1 --keep --write shop.json ramp.txt steps.json book.txt";

pub const DRIVE: &str = "Example:\n  flagops drive shop.json asks.json 4 book.txt > results.txt";

pub const COMPLETIONS: &str = "Example:\n  source <(flagops completions bash)";

pub const CHECK: &str = "Example:\n  flagops check --strict shop.json";

pub const COMPARE: &str = "Example:\n  flagops compare shop.json edited.json book.txt";

pub const BOOK: &str = "Example:\n  flagops book all.txt book.txt logs/worker-*.log";

pub const RAMP: &str = "Example:\n  flagops ramp shop.json steps.json book.txt > ramp.txt";

pub const VERIFY_RAMP: &str =
    "Example:\n  flagops verify-ramp shop.json steps.json book.txt ramp.txt";

pub const PICTURE: &str =
    "More options:\n      --ramp  Draw each step of a rollout, one below the other: flagops picture --ramp --help\n\nExample:\n  flagops picture shop.json request.json book.txt plan.json > plan.svg";

pub const PICTURE_RAMP: &str =
    "Example:\n  flagops picture --ramp shop.json steps.json book.txt ramp.txt > ramp.svg";

pub const RECORD: &str =
    "Example:\n  flagops record shop.json checkout < contexts.jsonl | LC_ALL=C sort -u > notes.txt";

pub const TALLY: &str = "Example:\n  flagops tally shop.json checkout 0 < notes.txt > tally.txt";

pub const JOIN: &str = "Example:\n  flagops join tally-1.txt tally-2.txt > tally.txt";

pub const OFREP: &str = "Example:\n  flagops ofrep --listen 127.0.0.1:8016 --log logs shop.json";

pub const SERVE: &str = "Example:\n  flagops serve 8017 2 shop.json";

pub const FOLLOW: &str = "Example:\n  flagops follow 8017 100";
