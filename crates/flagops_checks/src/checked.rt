//! A document that was checked.
ghost use Rattle.std.specs.Prelude.{◌≡◌, ◌||◌, map};
ghost use Rattle.std.specs.List.{list_any};
ghost use Rattle.flagops_checks.specs.Judged.{checked_view, has_broken, has_doubted, is_doubted, judged_view};

use crate::judging::Judged;
use flag_text::Tree;

/// What is found of a document.
#[derive(Drop)]
pub(crate) struct Checked<'a> {
    pub(crate) path: &'a str,
    pub(crate) bytes: &'a [u8],
    /// A tree with the members that are not read.
    pub(crate) document: &'a Tree,
    pub(crate) flags: Vec<Judged<'a>>,
    /// Whether a member of the document is not read.
    pub(crate) is_unread: bool,
    /// The place of a member that stands more than once in it, or in what stands beside its flags.
    pub(crate) repeated: Option<&'a str>,
}

impl Checked<'_> {
    /// Whether a flag is broken.
    pub(crate) fn has_broken(&self) -> bool
        ensures { result ≡ has_broken (checked_view self.now) }
    {
        one_is_broken(self.flags.as_slice())
    }

    /// Whether a flag is broken or doubted, or a member of the document is not read or stands more than once.
    pub(crate) fn is_wrong(&self) -> bool
        ensures { result ≡ (has_broken (checked_view self.now) || has_doubted (checked_view self.now)) }
    {
        self.has_broken()
            || self.is_unread
            || self.repeated.is_some()
            || one_is_doubted(self.flags.as_slice())
    }
}

fn one_is_broken(flags: &[Judged<'_>]) -> bool
    ensures { result ≡ list_any (λ j. j.is_broken) (map judged_view flags.now) }
{
    for flag in flags {
        if flag.is_broken {
            return true;
        }
    }
    false
}

fn one_is_doubted(flags: &[Judged<'_>]) -> bool
    ensures { result ≡ list_any is_doubted (map judged_view flags.now) }
{
    for flag in flags {
        if flag.is_doubted() {
            return true;
        }
    }
    false
}
