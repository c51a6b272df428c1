//! What stands more than once in a document, and whether each member of it is read.
ghost use Rattle.std.specs.Prelude.{◌≡◌, length, None, Some, Err, IfOk};
ghost use Rattle.json.specs.Json.{document, max_depth, members, object, value};
ghost use Rattle.member_names.specs.Passed.{Passes};
ghost use Rattle.member_names.specs.Repeated.{json_of};
ghost use Rattle.flag_doubts.specs.FoundFlags.{FindsFlags};
ghost use Rattle.flag_doubts.specs.Repeated.{Finds};

use crate::definition::takes_each;
use crate::flags::{RepeatedFlags, in_flags, none};
use json::{Reader, Scratch};
use member_names::{Next, Reader as Taker, Stop, begin, member_place, place_in, twin_or};
use simdutf8::basic;
use std::alloc::{AllocError, Global};
use std::collections::BTreeMap;

/// How deep lists and objects of a document nest at most.
const MAX_DEPTH: usize = flag_text::JSON_LEVELS + 1;

/// What stands more than once in a document, and whether each member of it is read.
#[derive(Drop)]
pub struct Repeated {
    /// The keys of flags, each once and in the order of their bytes.
    pub keys: Vec<String>,
    /// For the key of each flag in whose definition a member does, the place of such a member.
    pub definitions: BTreeMap<String, String>,
    /// The place of such a member of the document, or of what stands beside its flags.
    pub document: Option<String>,
    /// Whether it is an object of which each member is read, and each of the definitions in it, under whichever member `flags`
    /// they stand.
    pub all_read: bool,
}

/// What stands more than once in a document: nothing where the bytes are no document. Of several members `flags` the last
/// counts, and it is the one whose flags are read; its keys are told apart from the members of definitions.
///
/// It fails only where memory runs out. It walks the tokens, and keeps the names of the objects that are open and what it finds.
pub fn repeated_in(alloc: Global, bytes: &[u8]) -> Result<Repeated, AllocError>
    ensures { IfOk result (Finds (json_of bytes.now)) }
{
    let Ok(text) = basic::from_utf8(bytes) else {
        return Ok(nothing(alloc));
    };
    match of_text(alloc, text) {
        Ok(found) => Ok(found),
        Err(Stop::Invalid) => Ok(nothing(alloc)),
        Err(Stop::WantOfMemory) => Err(AllocError),
    }
}

/// What is found of a text.
fn of_text(alloc: Global, text: &str) -> Result<Repeated, Stop>
    ensures ok { IfOk result (Finds (document text.now)) }
    ensures err { result ≡ Err Stop.Invalid → document text.now ≡ None }
{
    let mut scratch = Scratch::new(alloc);
    let mut reader = Reader::new(text, &mut scratch)?;
    let mut names = Vec::new(alloc);
    let found = pass_document(alloc, &mut reader, &mut names)?;
    if reader.next().is_some() {
        return Err(Stop::Invalid);
    }
    Ok(found)
}

/// Nothing.
fn nothing(alloc: Global) -> Repeated
    ensures { Finds None result }
{
    told(none(alloc), None, false)
}

/// Passes a document.
fn pass_document<'a>(
    alloc: Global,
    reader: &mut Reader<'a>,
    names: &mut Vec<&'a str>,
) -> Result<Repeated, Stop>
    ensures ok { IfOk result (λ r. Passes (value max_depth) reader.old reader.new (λ j. Finds (Some j) r)) }
    ensures err { result ≡ Err Stop.Invalid → value max_depth reader.old ≡ None }
{
    match begin(alloc, reader, MAX_DEPTH, names)? {
        Next::Object => in_members(alloc, reader, MAX_DEPTH - 1, names),
        Next::Other(_) => Ok(nothing(alloc)),
    }
}

/// Passes the members of a document, and its end.
fn in_members<'a>(
    alloc: Global,
    reader: &mut Reader<'a>,
    depth: usize,
    names: &mut Vec<&'a str>,
) -> Result<Repeated, Stop>
    ensures ok { IfOk result (λ r. Passes (members (value depth) (length reader.old)) reader.old reader.new (λ ms. Finds (Some (object ms)) r)) }
    ensures err { result ≡ Err Stop.Invalid → members (value depth) (length reader.old) reader.old ≡ None }
{
    let outer = names.len();
    let mut flags = none(alloc);
    let mut place = None;
    let mut all_read = true;
    'members: while let Some(name) = reader.next_key().or(Err(Stop::Invalid))? {
        names.push(name)?;
        if name == "flags" {
            flags = in_flags(alloc, reader, depth, names)?;
            all_read &= flags.all_read;
        } else {
            let inner = place_in(alloc, reader, depth, names)?;
            place = member_place(alloc, place, name, inner)?;
        }
    }
    let own = &names[outer..];
    let all_read = takes_each(Taker::Document, own) & all_read;
    Ok(told(flags, twin_or(alloc, own, place)?, all_read))
}

/// What is found of the flags, the place beside them, and whether all is read.
fn told(flags: RepeatedFlags, document: Option<String>, all_read: bool) -> Repeated
    ensures flags { FindsFlags flags result }
    ensures document { result.document ≡ document }
    ensures all_read { result.all_read ≡ all_read }
{
    Repeated {
        keys: flags.keys,
        definitions: flags.definitions,
        document,
        all_read,
    }
}
