//! What is found of the flags of a document.
ghost use Rattle.std.specs.Prelude.{◌≡◌, ◌||◌, IfOk, true, map, option_and_then, option_map, string_bytes};
ghost use Rattle.std.specs.Cmp.Lexicographic.{slice_cmp};
ghost use Rattle.std.specs.List.{list_any};
ghost use Rattle.std.specs.List.Sorted.{IsStrictlySortedBy};
ghost use Rattle.std.specs.Ordering.{nat_cmp};
ghost use Rattle.std.specs.Str.{bytes_eq};
ghost use Rattle.flag_defs.specs.Flags.{flags_view};
ghost use Rattle.flag_defs.specs.Document.{flags_in, or_no_members};
ghost use Rattle.flag_defs.specs.Flag.{flag_view};
ghost use Rattle.flag_doubts.specs.Doubts.{gives_foreign, gives_none, is_weighed_badly};
ghost use Rattle.flag_text.specs.Readers.{find_member};
ghost use Rattle.flag_text.specs.Shape.{is_tidy, names_rise};
ghost use Rattle.flag_text.specs.View.{members_view, view};
ghost use Rattle.flagops_checks.specs.Judged.{definition_of, flag_doubts, has, is_doubted, is_unread, judged, judged_view};
ghost use Rattle.flagops_checks.specs.Names.{AreKnown};

use crate::names::Names;
use crate::sites::SiteDoubts;
use flag_defs::{Flag, Flags};
use flag_doubts::{Doubt, FlagDoubts, doubts_of};
use flag_text::{Tree, member_by_halving};
use std::alloc::{AllocError, Global};

/// What is found of a flag.
#[derive(Clone, Copy)]
pub(crate) struct Judged<'a> {
    pub(crate) key: &'a str,
    pub(crate) flag: &'a Flag,
    /// The definition in the document.
    pub(crate) definition: Option<&'a Tree>,
    pub(crate) is_broken: bool,
    /// What is doubted of the flag by itself.
    pub(crate) doubts: FlagDoubts,
    /// What is doubted of the sites of its targeting.
    pub(crate) sites: SiteDoubts,
    /// Whether the key stands more than once in the document.
    pub(crate) is_doubled: bool,
    /// The place of a member that stands more than once in the definition.
    pub(crate) repeated: Option<&'a str>,
}

impl Judged<'_> {
    /// Whether this is doubted.
    pub(crate) fn has(&self, doubt: Doubt) -> bool
        ensures { result ≡ has doubt (judged_view self.now) }
    {
        match doubt {
            Doubt::Doubled => self.is_doubled,
            Doubt::Repeated => self.repeated.is_some(),
            Doubt::Unread => self.doubts.unread,
            Doubt::Weight => self.doubts.weight,
            Doubt::Variant => self.doubts.variant,
            Doubt::Never => self.doubts.never,
        }
    }

    /// Whether anything is.
    pub(crate) fn is_doubted(&self) -> bool
        ensures { result ≡ is_doubted (judged_view self.now) }
    {
        self.is_doubled
            || self.repeated.is_some()
            || self.doubts.is_any()
            || self.sites.total
            || self.sites.constant
    }
}

/// What is found of each of the flags of a document, in the order of their keys.
pub(crate) fn judge<'a>(
    alloc: Global,
    names: &'a Names<'_>,
    flags: &'a Flags,
) -> Result<Vec<Judged<'a>>, AllocError>
    requires { AreKnown names.now }
    ensures { IfOk result (λ v. map judged_view v.items ≡ map (judged names.now.floats names.now.bytes.now) (flags_view flags.now)) }
{
    let definitions = definitions_in(&names.document);
    let mut all = Vec::with_capacity(alloc, flags.len())?;
    for i in 0..flags.len() {
        let (key, flag) = flags.at(i);
        let definition = member_by_halving(definitions, key);
        all.push(Judged {
            key,
            flag,
            definition,
            is_broken: flag.is_broken(),
            doubts: doubts_in(definition, flag),
            sites: SiteDoubts::of(flag),
            is_doubled: is_among(names.repeated.keys.as_slice(), key),
            repeated: names.place_in(key),
        })?;
    }
    Ok(all)
}

/// The definitions of the flags of a document by their keys, none where there are no flags.
fn definitions_in(document: &Tree) -> &[(String, Tree)]
    requires { is_tidy (view document.now) ≡ true }
    ensures members { members_view result.now ≡ or_no_members (flags_in (view document.now)) }
    ensures rising { names_rise (members_view result.now) ≡ true }
{
    match flags_in(document) {
        Some(members) => members,
        None => &[],
    }
}

fn flags_in(document: &Tree) -> Option<&[(String, Tree)]>
    ensures { option_map (λ ms. members_view ms.now) result ≡ flags_in (view document.now) }
{
    document.member("flags")?.as_object()
}

/// What is doubted of a flag by itself, which has this definition.
fn doubts_in(definition: Option<&Tree>, flag: &Flag) -> FlagDoubts
    ensures unread { result.unread ≡ is_unread (option_map (λ t. view t.now) definition.entry) }
    ensures weight { result.weight ≡ is_weighed_badly (flag_view flag.now) }
    ensures variant { result.variant ≡ gives_foreign (flag_view flag.now) }
    ensures never { result.never ≡ gives_none (flag_view flag.now) }
{
    match definition {
        Some(definition) => doubts_of(definition, flag),
        None => doubts_of(&Tree::Null, flag),
    }
}

/// Whether a key is one of these, which rise strictly, by halving.
fn is_among(keys: &[String], key: &str) -> bool
    requires { IsStrictlySortedBy (slice_cmp nat_cmp) (map string_bytes keys.now) }
    ensures { result ≡ list_any (bytes_eq key.now) (map string_bytes keys.now) }
{
    match keys.binary_search_by(|other| other.as_str().cmp(key)) {
        Ok(_) => true,
        Err(_) => false,
    }
}
