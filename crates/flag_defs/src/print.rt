//! From flags to the bytes of a document.
ghost use Rattle.std.specs.Prelude.{◌≡◌, IfOk, Ok, codes, string_bytes};
ghost use Rattle.std.specs.Cmp.Lexicographic.{slice_cmp};
ghost use Rattle.std.specs.List.Sorted.{IsStrictlySortedBy};
ghost use Rattle.std.specs.Map.{keys_of};
ghost use Rattle.std.specs.Ordering.{nat_cmp};
ghost use Rattle.flag_text.specs.Shape.{object, no_members, member};
ghost use Rattle.flag_text.specs.View.{view, members_view};
ghost use Rattle.flag_defs.specs.Document.{DocumentMeans, printed};
ghost use Rattle.flag_defs.specs.Flag.{entries_view};
ghost use Rattle.flag_defs.specs.Flags.{flags_view};
ghost use Rattle.flag_defs.specs.Law.{ReadsBack, document_written};

use crate::flag::Flag;
use crate::flags::Flags;
use crate::write::write_entries;
use flag_text::{Tree, print_tree};
use std::alloc::{AllocError, Global};

/// The document of flags: `{"flags":{..}}` without blanks, its keys sorted and its targetings inlined. A broken flag is
/// written as `{}`. It reads back as these flags. It fails only where memory runs out.
pub fn print_flags(alloc: Global, flags: &Flags) -> Result<Vec<u8>, AllocError>
    ensures text { IfOk result (λ v. v.items ≡ printed (flags_view flags.now)) }
    ensures reads_back { IfOk result (λ v. DocumentMeans v.items (Ok (flags_view flags.now))) }
{
    Ok(print_entries(alloc, flags.flags.as_slice())?.into_bytes())
}

pub(crate) fn print_entries(alloc: Global, flags: &[(String, Flag)]) -> Result<String, AllocError>
    requires { IsStrictlySortedBy (slice_cmp nat_cmp) (keys_of (entries_view flags.now)) }
    ensures text { IfOk result (λ s. string_bytes s ≡ printed (entries_view flags.now)) }
    ensures reads { IfOk result (λ s. ReadsBack (string_bytes s) (document_written (entries_view flags.now))) }
{
    let definitions = write_entries(alloc, flags)?;
    let document = document_of(alloc, definitions)?;
    print_tree(alloc, &document)
}

/// The document with these definitions.
fn document_of(alloc: Global, definitions: Vec<(String, Tree)>) -> Result<Tree, AllocError>
    ensures { IfOk result (λ t. view t ≡ object (member (codes "flags") (object (members_view definitions.items)) no_members)) }
{
    let name = String::from_str(alloc, "flags")?;
    let mut members = Vec::new(alloc);
    members.push((name, Tree::Object(definitions)))?;
    Ok(Tree::Object(members))
}
