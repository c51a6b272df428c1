//! From flags of which some have floats to the bytes of a document.
ghost use Rattle.std.specs.Prelude.{◌≡◌, ◌≤◌, ◌++◌, true, None, codes, if◌then◌else◌, length, option_copied, option_map, string_bytes, IfOk, OnOk};
ghost use Rattle.std.specs.Cmp.Lexicographic.{slice_cmp};
ghost use Rattle.std.specs.List.{zip};
ghost use Rattle.std.specs.List.Sorted.{IsStrictlySortedBy};
ghost use Rattle.std.specs.Map.{keys_of};
ghost use Rattle.std.specs.Ordering.{nat_cmp};
ghost use Rattle.flag_text.specs.Printing.{text_of};
ghost use Rattle.flag_text.specs.Readers.{as_text};
ghost use Rattle.flag_text.specs.Shape.{is_whole, members_are_whole, text};
ghost use Rattle.flag_text.specs.View.{view as tree_view, members_view};
ghost use Rattle.logic_ast.specs.Expr.{view};
ghost use Rattle.flag_defs.specs.Document.{max_bytes};
ghost use Rattle.flag_defs.specs.Flag.{entries_view, entry_view, flag_view, rules_view};
ghost use Rattle.flag_defs.specs.Flags.{flags_view};
ghost use Rattle.flag_defs.specs.Floats.{MeansFlags, are_unmarked, entries_floats, entry_floats, floats_of, floats_view};
ghost use Rattle.flag_defs.specs.Rules.{are_targetings};
ghost use Rattle.flag_defs.specs.Spelled.{default_spelled, entries_spelled, entry_spelled, flags_spelled, head_spelled, member_spelled, members_spelled, other_entries_spelled, others_spelled, printed_with_floats, rules_spelled, tail_spelled, targeting_spelled, value_spelled, variants_spelled};

use crate::flag::Flag;
use crate::flags::Flags;
use crate::print::print_entries;
use crate::rules::Rules;
use flag_text::{Tree, push_string, push_tree};
use logic_ast::{Expr, write_expr};
use std::alloc::{AllocError, Global};

/// The document of flags as [`print_flags`] writes it, where some of them have floats ([`Flag::has_floats`]): the texts of their
/// values, which are their spelling, stand for these values as they are. Where none has it is what [`print_flags`] writes. It fails only where memory runs out.
/// It is a document with floats of at most 4,194,304 bytes, and reads back as these flags, with the same of them marked.
///
/// [`print_flags`]: crate::print_flags
pub fn print_flags_with_floats(alloc: Global, flags: &Flags) -> Result<Vec<u8>, AllocError>
    ensures text { IfOk result (λ v. v.items ≡ printed_with_floats (flags_view flags.now) (floats_view flags.now)) }
    ensures reads_back { IfOk result (λ v. MeansFlags v.items (flags_view flags.now) (floats_view flags.now)) }
    ensures small { IfOk result (λ v. length v.items ≤ max_bytes) }
{
    let text = print_entries_with_floats(alloc, flags.flags.as_slice())?;
    Ok(text.into_bytes())
}

fn print_entries_with_floats(alloc: Global, flags: &[(String, Flag)]) -> Result<String, AllocError>
    requires { IsStrictlySortedBy (slice_cmp nat_cmp) (keys_of (entries_view flags.now)) }
    ensures { IfOk result (λ s. string_bytes s ≡ printed_with_floats (entries_view flags.now) (entries_floats flags.now)) }
{
    if are_unmarked(flags) {
        print_entries(alloc, flags)
    } else {
        print_spelled(alloc, flags)
    }
}

/// Whether no flag has floats.
fn are_unmarked(flags: &[(String, Flag)]) -> bool
    ensures { result ≡ are_unmarked (entries_floats flags.now) }
{
    for (_, flag) in flags {
        if flag.has_floats() {
            return false;
        }
    }
    true
}

/// The document of flags, piece by piece.
fn print_spelled(alloc: Global, flags: &[(String, Flag)]) -> Result<String, AllocError>
    ensures { IfOk result (λ s. string_bytes s ≡ flags_spelled (entries_view flags.now) (entries_floats flags.now)) }
{
    let mut out = String::from_str(alloc, "{\"flags\":{")?;
    push_entries(alloc, &mut out, flags)?;
    out.push_str("}}")?;
    Ok(out)
}

fn push_entries(alloc: Global, out: &mut String, flags: &[(String, Flag)]) -> Result<(), AllocError>
    ensures { OnOk result (string_bytes out.new ≡ string_bytes out.old ++ entries_spelled (zip (entries_view flags.now) (entries_floats flags.now))) }
{
    match flags {
        [] => Ok(()),
        [first, ..] => {
            push_entry(alloc, out, first)?;
            push_other_entries(alloc, out, &flags[1..])
        }
    }
}

fn push_other_entries(
    alloc: Global,
    out: &mut String,
    flags: &[(String, Flag)],
) -> Result<(), AllocError>
    ensures { OnOk result (string_bytes out.new ≡ string_bytes out.old ++ other_entries_spelled (zip (entries_view flags.now) (entries_floats flags.now))) }
{
    for entry in flags {
        out.push_str(",")?;
        push_entry(alloc, out, entry)?;
    }
    Ok(())
}

/// Adds a flag with its key.
fn push_entry(alloc: Global, out: &mut String, entry: &(String, Flag)) -> Result<(), AllocError>
    ensures { OnOk result (string_bytes out.new ≡ string_bytes out.old ++ entry_spelled (entry_view entry.now, entry_floats entry.now)) }
{
    let (key, flag) = entry;
    push_string(alloc, out, key.as_str())?;
    out.push_str(":{")?;
    push_members(alloc, out, flag)?;
    out.push_str("}")?;
    Ok(())
}

/// Adds the members of a flag's definition, which of a broken one are none.
fn push_members(alloc: Global, out: &mut String, flag: &Flag) -> Result<(), AllocError>
    ensures { OnOk result (string_bytes out.new ≡ string_bytes out.old ++ members_spelled (floats_of flag.now) (flag_view flag.now)) }
{
    match &flag.rules {
        Some(rules) => push_rules(alloc, out, rules),
        None => Ok(()),
    }
}

fn push_rules(alloc: Global, out: &mut String, rules: &Rules) -> Result<(), AllocError>
    ensures { OnOk result (string_bytes out.new ≡ string_bytes out.old ++ rules_spelled rules.now.has_floats (rules_view rules.now)) }
{
    push_head(alloc, out, rules)?;
    push_tail(alloc, out, rules.variants.as_slice(), rules.has_floats)?;
    Ok(())
}

/// Adds the members before the variants.
fn push_head(alloc: Global, out: &mut String, rules: &Rules) -> Result<(), AllocError>
    ensures { OnOk result (string_bytes out.new ≡ string_bytes out.old ++ head_spelled (rules_view rules.now)) }
{
    push_default(alloc, out, &rules.default_variant)?;
    out.push_str("\"state\":")?;
    push_string(alloc, out, state_text(rules.enabled))?;
    push_targeting(alloc, out, &rules.targeting)?;
    Ok(())
}

fn state_text(enabled: bool) -> &'static str
    ensures { result.now ≡ (if enabled then codes "ENABLED" else codes "DISABLED") }
{
    if enabled { "ENABLED" } else { "DISABLED" }
}

fn push_default(alloc: Global, out: &mut String, name: &Option<String>) -> Result<(), AllocError>
    ensures { OnOk result (string_bytes out.new ≡ string_bytes out.old ++ default_spelled (option_map string_bytes name.now)) }
{
    match name {
        Some(name) => push_name(alloc, out, name.as_str()),
        None => Ok(()),
    }
}

fn push_name(alloc: Global, out: &mut String, name: &str) -> Result<(), AllocError>
    ensures { OnOk result (string_bytes out.new ≡ string_bytes out.old ++ (codes "\"defaultVariant\":" ++ (text_of (text name.now) ++ codes ","))) }
{
    out.push_str("\"defaultVariant\":")?;
    push_string(alloc, out, name)?;
    out.push_str(",")?;
    Ok(())
}

fn push_targeting(
    alloc: Global,
    out: &mut String,
    targeting: &Option<Expr>,
) -> Result<(), AllocError>
    requires { are_targetings (option_map view targeting.now) ≡ true }
    ensures { OnOk result (string_bytes out.new ≡ string_bytes out.old ++ targeting_spelled (option_map view targeting.now)) }
{
    match targeting {
        Some(expr) => {
            let tree = write_expr(alloc, expr)?;
            out.push_str(",\"targeting\":")?;
            push_tree(alloc, out, &tree)?;
            Ok(())
        }
        None => Ok(()),
    }
}

/// Adds the member of the variants.
fn push_tail(
    alloc: Global,
    out: &mut String,
    variants: &[(String, Tree)],
    floats: bool,
) -> Result<(), AllocError>
    requires { members_are_whole (members_view variants.now) ≡ true }
    ensures { OnOk result (string_bytes out.new ≡ string_bytes out.old ++ tail_spelled floats (members_view variants.now)) }
{
    out.push_str(",\"variants\":{")?;
    push_variants(alloc, out, variants, floats)?;
    out.push_str("}")
}

fn push_variants(
    alloc: Global,
    out: &mut String,
    variants: &[(String, Tree)],
    floats: bool,
) -> Result<(), AllocError>
    requires { members_are_whole (members_view variants.now) ≡ true }
    ensures { OnOk result (string_bytes out.new ≡ string_bytes out.old ++ variants_spelled floats (members_view variants.now)) }
{
    match variants {
        [] => Ok(()),
        [first, ..] => {
            push_variant(alloc, out, first, floats)?;
            push_other_variants(alloc, out, &variants[1..], floats)
        }
    }
}

fn push_other_variants(
    alloc: Global,
    out: &mut String,
    variants: &[(String, Tree)],
    floats: bool,
) -> Result<(), AllocError>
    requires { members_are_whole (members_view variants.now) ≡ true }
    ensures { OnOk result (string_bytes out.new ≡ string_bytes out.old ++ others_spelled floats (members_view variants.now)) }
{
    for variant in variants {
        out.push_str(",")?;
        push_variant(alloc, out, variant, floats)?;
    }
    Ok(())
}

fn push_variant(
    alloc: Global,
    out: &mut String,
    variant: &(String, Tree),
    floats: bool,
) -> Result<(), AllocError>
    requires { is_whole (tree_view variant.now.1) ≡ true }
    ensures { OnOk result (string_bytes out.new ≡ string_bytes out.old ++ member_spelled floats (string_bytes variant.now.0) (tree_view variant.now.1)) }
{
    let (name, value) = variant;
    push_string(alloc, out, name.as_str())?;
    out.push_str(":")?;
    push_spelled(alloc, out, value, floats)
}

/// Adds the compact text of a value to another text. A text that is the spelling of a value, as the values of a flag with floats
/// are, stands for that value as it is. The condition is [`Tree::is_whole`].
pub fn push_spelled(
    alloc: Global,
    out: &mut String,
    value: &Tree,
    floats: bool,
) -> Result<(), AllocError>
    requires { is_whole (tree_view value.now) ≡ true }
    ensures { OnOk result (string_bytes out.new ≡ string_bytes out.old ++ value_spelled floats (tree_view value.now)) }
{
    match spelling(value, floats) {
        Some(text) => {
            out.push_str(text)?;
            Ok(())
        }
        None => push_tree(alloc, out, value),
    }
}

/// The text that a value stands as, where that is its spelling.
fn spelling(value: &Tree, floats: bool) -> Option<&str>
    ensures { option_copied result ≡ (if floats then as_text (tree_view value.now) else None) }
{
    if floats { value.as_text() } else { None }
}
