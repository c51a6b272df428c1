//! What is printed of a document as JSON.
ghost use Rattle.std.specs.Prelude.{◌≡◌, ◌++◌, codes, map, IfOk, OnOk, string_bytes};
ghost use Rattle.flag_text.specs.Printing.{text_of};
ghost use Rattle.flag_text.specs.View.{view};
ghost use Rattle.flagops_checks.specs.Judged.{judged_view};
ghost use Rattle.flagops_checks.specs.Printed.{document_shape, in_list, keys_shape};

use crate::judging::Judged;
use flag_text::{Tree, print_tree};
use std::alloc::{AllocError, Global};

/// A list of flags in the object of a document.
#[derive(Clone, Copy, Debug)]
pub(crate) enum Listed {
    /// Those that are broken.
    Broken,
    /// Those of which something is doubted.
    Doubted,
    /// Those that are not broken, doubted or not.
    Good,
}

impl Listed {
    /// Whether a flag stands in the list.
    fn has(self, flag: &Judged<'_>) -> bool
        ensures { result ≡ in_list self (judged_view flag.now) }
    {
        match self {
            Listed::Broken => flag.is_broken,
            Listed::Doubted => flag.is_doubted(),
            Listed::Good => !flag.is_broken,
        }
    }
}

/// Adds the line of a document at a path that has these flags.
pub(crate) fn push_object(
    alloc: Global,
    out: &mut Vec<u8>,
    path: &str,
    flags: &[Judged<'_>],
) -> Result<(), AllocError>
    ensures { OnOk result (out.new.items ≡ out.old.items ++ (text_of (document_shape path.now (map judged_view flags.now)) ++ codes "\n")) }
{
    let object = object_of(alloc, path, flags)?;
    let text = print_tree(alloc, &object)?;
    out.extend_from_slice(text.as_bytes())?;
    out.extend_from_slice(b"\n")
}

/// The object of a document.
fn object_of(alloc: Global, path: &str, flags: &[Judged<'_>]) -> Result<Tree, AllocError>
    ensures { IfOk result (λ t. view t ≡ document_shape path.now (map judged_view flags.now)) }
{
    let broken = (
        String::from_str(alloc, "broken")?,
        keys(alloc, flags, Listed::Broken)?,
    );
    let document = (
        String::from_str(alloc, "document")?,
        Tree::Text(String::from_str(alloc, path)?),
    );
    let doubted = (
        String::from_str(alloc, "doubted")?,
        keys(alloc, flags, Listed::Doubted)?,
    );
    let good = (
        String::from_str(alloc, "good")?,
        keys(alloc, flags, Listed::Good)?,
    );
    Ok(Tree::Object(vec![in alloc; broken, document, doubted, good]?))
}

/// The keys of the flags in a list.
fn keys(alloc: Global, flags: &[Judged<'_>], which: Listed) -> Result<Tree, AllocError>
    ensures { IfOk result (λ t. view t ≡ keys_shape which (map judged_view flags.now)) }
{
    let mut keys = Vec::new(alloc);
    for flag in flags {
        if which.has(flag) {
            keys.push(Tree::Text(String::from_str(alloc, flag.key)?))?;
        }
    }
    Ok(Tree::List(keys))
}
