//! A rule in the place of a site's buckets.
ghost use Rattle.std.specs.Map.{lookup};
ghost use Rattle.std.specs.Prelude.{◌≡◌, None, Ok, Err, IfOk, IfErr, option_and_then};
ghost use Rattle.std.specs.Str.{bytes_eq};
ghost use Rattle.flag_text.specs.Outcome.{GivesUnless};
ghost use Rattle.flag_text.specs.View.{view as tree_view};
ghost use Rattle.logic_ast.specs.Expr.{view};
ghost use Rattle.logic_ast.specs.Writing.{written};
ghost use Rattle.flag_defs.specs.Flag.{targeting_in};
ghost use Rattle.flag_defs.specs.Flags.{flags_view};
ghost use Rattle.flag_defs.specs.Floats.{MeansAs};
ghost use Rattle.kept_document.specs.Place.{site_place};
ghost use Rattle.kept_document.specs.Kept.{IsRefused, KeptAt, of_reading, of_text, place_in, tree_as};

use crate::checking::checked;
use crate::editing::edited;
use crate::fault::KeepFault;
use crate::{SitePlace, place_of_site};
use bucket_core::Rule;
use flag_defs::Flags;
use flag_text::{TextFault, Tree, read_doc};
use limits::TEXT_BYTES;
use logic_ast::{Expr, write_expr};
use spelled_numbers::read_with_floats;
use std::alloc::Global;

/// The bytes of the document with the rule's entries as the buckets of a site, and all else as it was. `flags` are those of
/// the document, and `wanted` those that it should mean then; it may have floats, or may not.
///
/// Refusals: `Differs` where there is no such flag, or it has no targeting, before memory is taken; `Shared` where the buckets
/// stand in an evaluator; `TooLong` above 4,194,304 bytes; `Differs` where the text with the rule in this place is not longer and
/// means other flags, or there is no such place.
pub fn keep(
    alloc: Global,
    document: &str,
    flags: &Flags,
    key: &str,
    site: u32,
    rule: &Rule,
    wanted: &Flags,
    floats: bool,
) -> Result<Vec<u8>, KeepFault>
    ensures kept { IfOk result (λ v. KeptAt document.now (place_in floats document.now (flags_view flags.now) key.now site) rule.now v.items) }
    ensures means { IfOk result (λ v. MeansAs floats v.items (Ok (flags_view wanted.now))) }
    ensures refused { IfErr result (IsRefused floats document.now (place_in floats document.now (flags_view flags.now) key.now site) rule.now (flags_view wanted.now)) }
    // No such flag, or one without a targeting, is answered without memory.
    ensures nowhere { option_and_then targeting_in (lookup (bytes_eq key.now) (flags_view flags.now)) ≡ None → result ≡ Err KeepFault.Differs }
{
    let Some(flag) = flags.get(key) else {
        return Err(KeepFault::Differs);
    };
    let Some(targeting) = flag.targeting() else {
        return Err(KeepFault::Differs);
    };
    match document_tree(alloc, document, floats) {
        Ok(tree) => keep_in(
            alloc, document, &tree, key, targeting, site, rule, wanted, floats,
        ),
        Err(fault) => Err(fault),
    }
}

/// The same in a document that was read as this tree, at a site of this targeting.
fn keep_in(
    alloc: Global,
    document: &str,
    tree: &Tree,
    key: &str,
    targeting: &Expr,
    site: u32,
    rule: &Rule,
    wanted: &Flags,
    floats: bool,
) -> Result<Vec<u8>, KeepFault>
    ensures kept { IfOk result (λ v. KeptAt document.now (site_place (tree_view tree.now) key.now (written (view targeting.now)) site) rule.now v.items) }
    ensures means { IfOk result (λ v. MeansAs floats v.items (Ok (flags_view wanted.now))) }
    ensures refused { IfErr result (IsRefused floats document.now (site_place (tree_view tree.now) key.now (written (view targeting.now)) site) rule.now (flags_view wanted.now)) }
{
    let form = write_expr(alloc, targeting)?;
    match place_of_site(alloc, tree, key, &form, site as usize)? {
        SitePlace::Buckets { list, first, last } => match edited(
            alloc, document, list, first, last, rule,
        )? {
            Some(kept) => checked(alloc, kept, wanted, floats),
            None => Err(KeepFault::Differs),
        },
        SitePlace::Shared(_) => Err(KeepFault::Shared),
        SitePlace::Nowhere => Err(KeepFault::Differs),
    }
}

/// The tree of a document.
fn document_tree(alloc: Global, document: &str, floats: bool) -> Result<Tree, KeepFault>
    ensures { GivesUnless KeepFault.WantOfMemory tree_view result (of_reading (tree_as floats document.now)) }
{
    match tree_as(alloc, document.as_bytes(), floats) {
        Ok(tree) => Ok(tree),
        Err(fault) => Err(of_text(fault)),
    }
}

/// The tree of bytes that may have floats, as `spelled_numbers::read_with_floats` reads them, or may not, as `flag_text::read_doc` does;
/// of at most 4,194,304 of them.
pub fn tree_as(alloc: Global, bytes: &[u8], floats: bool) -> Result<Tree, TextFault>
    ensures { GivesUnless TextFault.WantOfMemory tree_view result (tree_as floats bytes.now) }
{
    if floats {
        Ok(read_with_floats(alloc, bytes, TEXT_BYTES)?.tree)
    } else {
        read_doc(alloc, bytes, TEXT_BYTES)
    }
}

/// The fault of a text that is not read as a document.
fn of_text(fault: TextFault) -> KeepFault
    ensures { result ≡ of_text fault }
{
    match fault {
        TextFault::WantOfMemory => KeepFault::WantOfMemory,
        TextFault::NotJson | TextFault::NotWhole | TextFault::TooLarge | TextFault::TooDeep =>
            KeepFault::Differs,
    }
}
