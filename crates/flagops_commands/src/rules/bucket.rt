//! The command `bucket`: which variant a rule gives to a key.
ghost use Rattle.std.specs.Prelude.{◌≡◌, ◌||◌, if◌then◌else◌, IfOk, IfSome, decimal, string_bytes};
ghost use Rattle.flagops_commands.specs.Attempts.{TellsOfFirst, bucket_attempts};
ghost use Rattle.flagops_commands.specs.Bucket.{bucket_json, bucket_report, bucket_text, eight_hex_digits, three_lines, three_members};
ghost use Rattle.flagops_commands.specs.Calls.{bucket_calls};
ghost use Rattle.flagops_commands.specs.Refusal.{ComesFrom, GivesUnlessWant, is_file_fault};
ghost use Rattle.flagops_shell.specs.Report.{outcome_view};
ghost use Rattle.rule_text.specs.Choosing.{choice_view};

use crate::loading::load_choice;
use crate::refusal::{ListedCall, Refused, out_of_memory};
use flagops_files::quoted;
use flagops_shell::{FileSet, Outcome, Status};
use murmur_core::hash;
use rule_text::Choice;
use std::alloc::{AllocError, Global};

/// The hash of the key, its point on the rule and its variant, a line each or with `json` as one JSON text.
#[tactic(auto, unfolding(crate::specs::Bucket::bucket_report))]
pub fn bucket<F: FileSet>(
    alloc: Global,
    files: &mut F,
    rule: &str,
    key: &str,
    json: bool,
) -> Result<Outcome, Refused>
    ensures exact { IfSome (F.holding files.old) (λ at. GivesUnlessWant outcome_view result (bucket_report at rule.now key.now json)) }
    ensures calls { ComesFrom bucket_calls result }
    ensures failed { F.has_failed files.new ≡ (F.has_failed files.old || is_file_fault result) }
    ensures kept { F.holding files.new ≡ F.holding files.old }
    ensures names { IfSome (F.holding files.old) (λ at. TellsOfFirst (bucket_attempts at rule.now key.now) result) }
{
    let choice = load_choice(alloc, files, rule, key)?;
    match answer(alloc, &choice, key, json) {
        Ok(text) => Ok(Outcome::plain(text.into_bytes(), Status::Done)),
        Err(AllocError) => Err(out_of_memory(ListedCall::Bucket)),
    }
}

#[tactic(auto, unfolding(crate::specs::Bucket::bucket_json, crate::specs::Bucket::bucket_text))]
fn answer(alloc: Global, choice: &Choice, key: &str, json: bool) -> Result<String, AllocError>
    ensures { IfOk result (λ s. string_bytes s ≡ (if json then bucket_json key.now (choice_view choice.now) else bucket_text key.now (choice_view choice.now))) }
{
    let digits = eight_hex_digits(alloc, hash(key.as_bytes(), 0))?;
    let name = quoted(alloc, choice.variant.as_str())?;
    if json {
        three_members(alloc, &digits, choice.point, &name)
    } else {
        three_lines(alloc, &digits, choice.point, &name)
    }
}

/// The eight hexadecimal digits of a hash.
fn eight_hex_digits(alloc: Global, n: u32) -> Result<String, AllocError>
    ensures { IfOk result (λ s. string_bytes s ≡ eight_hex_digits n) }
{
    format!(in alloc; "{n:08x}")
}

fn three_lines(
    alloc: Global,
    digits: &String,
    point: u32,
    name: &String,
) -> Result<String, AllocError>
    ensures { IfOk result (λ s. string_bytes s
        ≡ three_lines (string_bytes digits.now) (decimal point) (string_bytes name.now)) }
{
    format!(in alloc; "hash {digits}\npoint {point}\nvariant {name}\n")
}

fn three_members(
    alloc: Global,
    digits: &String,
    point: u32,
    name: &String,
) -> Result<String, AllocError>
    ensures { IfOk result (λ s. string_bytes s
        ≡ three_members (string_bytes digits.now) (decimal point) (string_bytes name.now)) }
{
    format!(in alloc; "{{\"hash\":\"{digits}\",\"point\":{point},\"variant\":{name}}}\n")
}
