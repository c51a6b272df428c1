//! What is known of the documents of a snapshot beside their flags.
ghost use Rattle.std.specs.Prelude.{◌≡◌, ◌<◌, IfOk, Some, length, string_bytes};
ghost use Rattle.std.specs.Sync.Mutex.{mutex_guard_value};
ghost use Rattle.control_desk.specs.Sources.{IsAbsent, IsDocumentOf};

use flag_defs::Flags;
use snap_share::{ShareName, Told};
use std::alloc::{AllocError, Global};
use std::marker::Model;
use std::snapshot::Snapshot;
use std::sync::{Mutex, MutexGuard, Wait};

/// What is known of the documents of a snapshot beside their flags. Contracts see it as the flags that were published by then, of
/// which those of the snapshot are the last, and as its texts. Its document means these flags.
#[derive(Drop)]
pub struct SourceText<J: ShareName> {
    told: Told<J>,
    document: String,
    remarks: String,
}

impl<J: ShareName> Model for SourceText<J> {
    ghost use Rattle.std.specs.Prelude.{string_bytes};
    ghost use Rattle.std.specs.Coded.{codes};
    ghost use Rattle.flag_defs.specs.contracts.flags.Flags as entry;
    ghost use Rattle.control_desk.specs.Sources.{IsDocumentOf, Source};

    ghost Value = { Source };

    ghost coded = { Prim.hlevel (codes, entry.the_row.coded) };

    ghost view = { λ text. record { published = text.told; document = string_bytes text.document; remarks = string_bytes text.remarks } };

    ghost invariant = { λ text. IsDocumentOf text.told (string_bytes text.document) };
}

impl<J: ShareName> SourceText<J> {
    /// What is known of the documents of the snapshot that was published last, as its publisher told it: the text of its document,
    /// where it is of one alone, and else its flags, printed; and what a person is told of its broken flags, a line each.
    pub fn new(told: Told<J>, document: String, remarks: String) -> SourceText<J>
        requires { IsDocumentOf told (string_bytes document) }
        ensures published { result.published ≡ told }
        ensures document { result.document ≡ string_bytes document }
        ensures remarks { result.remarks ≡ string_bytes remarks }
    {
        SourceText {
            told,
            document,
            remarks,
        }
    }

    /// The number of the snapshot.
    fn number(&self) -> u64
        ensures { result ≡ length self.now.published }
    {
        self.told.number()
    }

    /// An equal one.
    fn copied(&self, alloc: Global) -> Result<SourceText<J>, AllocError>
        ensures { IfOk result (λ text. text ≡ self.now) }
    {
        let document = String::from_str(alloc, self.document.as_str())?;
        let remarks = String::from_str(alloc, self.remarks.as_str())?;
        Ok(SourceText {
            told: self.told.again(),
            document,
            remarks,
        })
    }

    /// What was published by then, the document and the remarks.
    pub(crate) fn into_parts(self) -> (Told<J>, String, String)
        ensures published { result.0 ≡ self.published }
        ensures document { string_bytes result.1 ≡ self.document }
        ensures remarks { string_bytes result.2 ≡ self.remarks }
        ensures means { IsDocumentOf self.published self.document }
    {
        let SourceText {
            told,
            document,
            remarks,
        } = self;
        (told, document, remarks)
    }
}

/// What is known of the documents of the snapshot that was published last, for all desks.
#[derive(Drop)]
pub struct PublishedSources<J: ShareName> {
    last: Mutex<Option<SourceText<J>>>,
}

/// Why nothing is known of the documents of a snapshot.
#[derive(Clone, Copy, Debug, PartialEq, Eq)]
pub(crate) enum Absent {
    WantOfMemory,
    /// It was not set yet.
    Unset,
    /// A later snapshot was published.
    Outdated,
}

impl From<AllocError> for Absent {
    ghost use Rattle.control_desk.specs.declared.sources.Absent.TheVariants.{WantOfMemory};

    ghost from_gives = { λ _ e. e ≡ WantOfMemory };

    fn from(_fault: AllocError) -> Absent {
        Absent::WantOfMemory
    }
}

impl<J: ShareName> PublishedSources<J> {
    /// Nothing was published.
    pub fn new() -> PublishedSources<J> {
        PublishedSources {
            last: Mutex::new(None),
        }
    }

    /// Sets what is known of the snapshot that was published last, and returns what holds it then.
    pub fn set<R: Wait>(&self, rt: &R, text: SourceText<J>) -> MutexGuard<'_, Option<SourceText<J>>>
        ensures { mutex_guard_value result ≡ Some text }
    {
        let mut last = self.last.lock(rt);
        *last = Some(text);
        last
    }

    /// What is known of the snapshot of a number.
    pub(crate) fn find(&self, alloc: Global, number: u64) -> Result<SourceText<J>, Absent>
        ensures { IfOk result (λ text. length text.published ≡ number) }
    {
        match self.last.try_lock() {
            Some(last) => found_in(alloc, &*last, number),
            None => Err(Absent::Unset),
        }
    }
}

/// What is known of the snapshot of a number, where this was set last.
fn found_in<J: ShareName>(
    alloc: Global,
    last: &Option<SourceText<J>>,
    number: u64,
) -> Result<SourceText<J>, Absent>
    ensures number { IfOk result (λ text. length text.published ≡ number) }
    ensures found { IfOk result (λ text. last.now ≡ Some text) }
    ensures absent { IsAbsent last.now number result }
{
    let Some(text) = last else {
        return Err(Absent::Unset);
    };
    if text.number() < number {
        return Err(Absent::Unset);
    }
    if text.number() > number {
        return Err(Absent::Outdated);
    }
    Ok(text.copied(alloc)?)
}

/// A text that was set for all desks to find, as a lock of theirs held it. It has no bytes: contracts see the text.
#[derive(Drop)]
pub struct ShownText<J: ShareName> {
    text: Snapshot<SourceText<J>>,
}

impl<J: ShareName> Model for ShownText<J> {
    ghost use Rattle.std.specs.Coded.{codes};
    ghost use Rattle.flag_defs.specs.contracts.flags.Flags as entry;
    ghost use Rattle.control_desk.specs.Sources.{Source};

    ghost Value = { Source };

    ghost coded = { Prim.hlevel (codes, entry.the_row.coded) };

    ghost view = { λ shown. shown.text.value };

    ghost invariant = { λ shown. Unit {0} };
}

impl<J: ShareName> ShownText<J> {
    /// The text that a lock holds, which is let go.
    pub fn of(held: MutexGuard<'_, Option<SourceText<J>>>) -> Option<ShownText<J>>
        ensures { result ≡ mutex_guard_value held.entry }
    {
        match &*held {
            Some(text) => Some(ShownText {
                text: Snapshot::of(text),
            }),
            None => None,
        }
    }
}
