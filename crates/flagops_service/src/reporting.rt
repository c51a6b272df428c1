//! The lines of the command, and why it is refused.
ghost use Rattle.std.specs.Prelude.{◌≡◌, IfOk, false, string_bytes};
ghost use Rattle.flagops_service.specs.Ended.{Fails, Refuses, serving_line, stop_line};
ghost use Rattle.flagops_streams.specs.Told.{TellsText};

use crate::asked::Answering;
use crate::stop::{NoKeys, Stop, why_no_origin};
use crate::telling::of_bad_keys;
use crate::unbound::{Unbound, of_unbound};
use file_diagnostics::{of_document, of_unreadable, quoted_name};
use flag_text::Outlet;
use flagops_shell::tell;
use flagops_streams::{Refusal, refuse, say_refused, write_line};
use ofrep_guards::origin_fault;
use source_merge::SourceFault;
use std::alloc::{AllocError, Global};
use std::io;

/// The line that says how many documents are answered from.
#[tactic(auto, unfolding(crate::specs::Ended::serving_line))]
pub(crate) fn serving_line(alloc: Global, documents: usize) -> Result<String, AllocError>
    ensures { IfOk result (λ s. string_bytes s ≡ serving_line documents) }
{
    format!(in alloc; "serving {documents}\n")
}

/// Writes the line of a refusal, and tells a person of it.
pub(crate) fn refuse_and_tell<O: Outlet, E: Outlet>(
    alloc: Global,
    out: &mut O,
    err: &mut E,
    refusal: Refusal,
) -> u8
    requires { O.is_broken out.old ≡ false }
    ensures { Refuses (O.bytes out.old) (O.bytes out.new) (O.is_broken out.new) (E.bytes err.old) (E.bytes err.new) (E.is_broken err.new) result refusal }
{
    say_refused(alloc, err, refusal);
    refuse(alloc, out, refusal)
}

/// The service does not start. Where a file can't be read, why is told in the system's words, as far as these are known.
pub(crate) fn refuse_start<O: Outlet, E: Outlet>(
    alloc: Global,
    out: &mut O,
    err: &mut E,
    answering: &Answering<'_>,
    trouble: Option<io::Error>,
    stop: Stop,
) -> u8
    requires out_whole { O.is_broken out.old ≡ false }
    requires err_whole { E.is_broken err.old ≡ false }
    ensures { Fails (O.bytes out.old) (O.bytes out.new) (O.is_broken out.new) (E.bytes err.old) (E.bytes err.new) (E.is_broken err.new) result (stop_line stop) }
{
    tell_stop(err, why_stopped(alloc, answering, trouble, stop), stop);
    write_line(out, stop.line(), 1)
}

/// Why the service does not start, with the word or the file that is the reason, where there is one.
fn why_stopped(
    alloc: Global,
    answering: &Answering<'_>,
    trouble: Option<io::Error>,
    stop: Stop,
) -> Result<String, AllocError> {
    match (stop, answering.keys) {
        (Stop::BadOrigin(_), _) => of_bad_origin(alloc, answering.cors.as_slice()),
        (Stop::NoKeys(NoKeys::Unreadable), Some(path)) => of_unreadable(alloc, path, trouble),
        (Stop::NoKeys(NoKeys::Unusable(fault)), Some(path)) => {
            let why = of_bad_keys(alloc, path, fault)?;
            format!(in alloc; "error: {why}\n  each line of the file of --keys is a key\n")
        }
        (Stop::NoLog(_), _) => of_no_log(alloc, answering.log, trouble, stop),
        (_, _) => String::from_str(alloc, stop.why()),
    }
}

/// Why the logs can't be opened, with the path of their folder, and in the system's words where these are known.
fn of_no_log(
    alloc: Global,
    folder: Option<&str>,
    trouble: Option<io::Error>,
    stop: Stop,
) -> Result<String, AllocError> {
    let (Some(folder), Some(trouble)) = (folder, trouble) else {
        return String::from_str(alloc, stop.why());
    };
    let folder = quoted_name(alloc, folder)?;
    format!(in alloc;
        "error: the folder {folder} of --log cannot be used: {trouble}\n  --log has to name a folder whose files this service may read and write\n"
    )
}

/// The first of these origins that no browser names so, and why.
fn of_bad_origin(alloc: Global, origins: &[&str]) -> Result<String, AllocError> {
    for origin in origins {
        if let Some(fault) = origin_fault(origin) {
            let name = quoted_name(alloc, origin)?;
            let why = why_no_origin(fault);
            return format!(in alloc;
                "error: no browser sends the origin {name} of --cors\n  {why}\n"
            );
        }
    }
    Ok(String::new(alloc))
}

/// Tells why the service does not start, or the reason alone where there is no memory for more.
fn tell_stop<E: Outlet>(err: &mut E, text: Result<String, AllocError>, stop: Stop)
    requires { E.is_broken err.old ≡ false }
    ensures { TellsText (E.bytes err.old) (E.bytes err.new) (E.is_broken err.new) }
{
    match text {
        Ok(text) => tell(err, text.as_str()),
        Err(AllocError) => tell(err, stop.why()),
    }
}

/// An address can't be listened on.
pub(crate) fn refuse_unbound<O: Outlet, E: Outlet>(
    alloc: Global,
    out: &mut O,
    err: &mut E,
    answering: &Answering<'_>,
    unbound: Unbound,
    refusal: Refusal,
) -> u8
    requires out_whole { O.is_broken out.old ≡ false }
    requires err_whole { E.is_broken err.old ≡ false }
    ensures { Refuses (O.bytes out.old) (O.bytes out.new) (O.is_broken out.new) (E.bytes err.old) (E.bytes err.new) (E.is_broken err.new) result refusal }
{
    tell_made(alloc, err, of_unbound(alloc, answering, unbound), refusal);
    refuse(alloc, out, refusal)
}

/// The document at a path was not loaded; where it can't be read, why is told in the system's words, as far as these are known.
pub(crate) fn refuse_unloaded<O: Outlet, E: Outlet>(
    alloc: Global,
    out: &mut O,
    err: &mut E,
    refusal: Refusal,
    path: &str,
    trouble: Option<io::Error>,
) -> u8
    requires out_whole { O.is_broken out.old ≡ false }
    requires err_whole { E.is_broken err.old ≡ false }
    ensures { Refuses (O.bytes out.old) (O.bytes out.new) (O.is_broken out.new) (E.bytes err.old) (E.bytes err.new) (E.is_broken err.new) result refusal }
{
    match refusal {
        Refusal::Unreadable => tell_made(alloc, err, of_unreadable(alloc, path, trouble), refusal),
        _ => say_refused(alloc, err, refusal),
    }
    refuse(alloc, out, refusal)
}

/// One of the documents of these paths and bytes was not accepted.
pub(crate) fn refuse_document<O: Outlet, E: Outlet>(
    alloc: Global,
    out: &mut O,
    err: &mut E,
    paths: &[&str],
    texts: &[Vec<u8>],
    refusal: Refusal,
) -> u8
    requires out_whole { O.is_broken out.old ≡ false }
    requires err_whole { E.is_broken err.old ≡ false }
    ensures { Refuses (O.bytes out.old) (O.bytes out.new) (O.is_broken out.new) (E.bytes err.old) (E.bytes err.new) (E.is_broken err.new) result refusal }
{
    match why_refused(alloc, paths, texts, refusal) {
        Some(text) => tell_made(alloc, err, text, refusal),
        None => say_refused(alloc, err, refusal),
    }
    refuse(alloc, out, refusal)
}

/// What is wrong with the document that a refusal is of.
fn why_refused(
    alloc: Global,
    paths: &[&str],
    texts: &[Vec<u8>],
    refusal: Refusal,
) -> Option<Result<String, AllocError>> {
    let Refusal::Set(SourceFault::Refused(fault), number) = refusal else {
        return None;
    };
    let place = number.saturating_sub(1) as usize;
    let path = *paths.get(place)?;
    let text = texts.get(place)?;
    Some(of_document(alloc, path, text.as_slice(), fault))
}

/// Tells a text that was made, or of the refusal alone where there is no memory for one.
fn tell_made<E: Outlet>(
    alloc: Global,
    err: &mut E,
    text: Result<String, AllocError>,
    refusal: Refusal,
)
    requires { E.is_broken err.old ≡ false }
    ensures { TellsText (E.bytes err.old) (E.bytes err.new) (E.is_broken err.new) }
{
    match text {
        Ok(text) => tell(err, text.as_str()),
        Err(AllocError) => say_refused(alloc, err, refusal),
    }
}
