//! What a person is told while documents are answered from. It changes no answer.
use crate::asked::Answering;
use crate::preparing::{LISTEN, most_subscribers};
use crate::taking::Unfit;
use file_diagnostics::{of_definition_errors, of_document, quoted_name};
use flag_defs::Flags;
use flag_doubts::Regression;
use flag_metadata::{Broken, Metadata};
use flag_text::Outlet;
use flagops_streams::say;
use ofrep_guards::KeyFault;
use ofrep_service::{AdminPost, Post};
use ofrep_worker::WithoutRecord;
use source_merge::SourceFault;
use std::alloc::{AllocError, Global};
use std::net::SocketAddr;

/// Tells a text that was made. One that could not be made is left out.
pub(crate) fn say_made<E: Outlet>(err: &mut E, text: Result<String, AllocError>) {
    if let Ok(text) = text {
        say(err, text.as_str());
    }
}

/// Where these posts listen, how many workers there are, whether anything is recorded, and where the stream is.
pub(crate) fn say_listening<E: Outlet>(
    alloc: Global,
    err: &mut E,
    answering: &Answering<'_>,
    posts: &[Post],
) {
    let workers = answering.workers;
    let line = match bound_address(posts) {
        Some(address) => {
            format!(in alloc; "ofrep: listens on {address}, with {workers} workers\n")
        }
        None => {
            let address = answering.listen.unwrap_or(LISTEN);
            format!(in alloc; "ofrep: listens on {address}, with {workers} workers\n")
        }
    };
    say_made(err, line);
    say_recording(alloc, err, answering);
    if let Some(path) = answering.keys {
        say_made(
            err,
            format!(in alloc; "ofrep: each evaluation needs a key of the file \"{path}\"\n"),
        );
    }
    if let Some(port) = answering.stream {
        let most = most_subscribers(answering);
        say_made(
            err,
            format!(in alloc;
                "ofrep: streams snapshots on 127.0.0.1:{port}, to at most {most} subscribers at once\n"
            ),
        );
    }
}

/// The address that the system gave, with the port that it chose where 0 was asked for.
fn bound_address(posts: &[Post]) -> Option<SocketAddr> {
    posts.first()?.listener.local_addr().ok()
}

/// Where operations are asked for, where they have an address of their own.
pub(crate) fn say_operations<E: Outlet>(
    alloc: Global,
    err: &mut E,
    admin: &Option<AdminPost>,
    answering: &Answering<'_>,
) {
    let Some(post) = admin else {
        return;
    };
    let address = post.address();
    let ends = if answering.allow_stop {
        "; POST /stop there ends it"
    } else {
        ""
    };
    let writes = if answering.allow_apply {
        "; POST /apply there writes the document"
    } else {
        ""
    };
    say_made(
        err,
        format!(in alloc;
            "ofrep: serves /healthz, /readyz and /metrics on {address}, and the console{ends}{writes}\n"
        ),
    );
}

/// Whether anything is recorded, and where, and what becomes of an answer that can't be.
fn say_recording<E: Outlet>(alloc: Global, err: &mut E, answering: &Answering<'_>) {
    match answering.log {
        Some(folder) => {
            let what = if answering.log_points {
                "the hashes of hash inputs, and no input,"
            } else {
                "hash inputs"
            };
            say_made(
                err,
                format!(in alloc; "ofrep: records {what} in the folder \"{folder}\"\n"),
            );
            if let WithoutRecord::Answer = answering.without_record {
                say(
                    err,
                    "ofrep: answers requests even if they cannot be recorded\n",
                );
            }
        }
        None => say(
            err,
            "ofrep: records nothing; --log FOLDER records hash inputs in a folder\n",
        ),
    }
}

/// Why the service has ended: it was asked to stop, and its workers have ended; or no thread could be made for one of them.
pub(crate) fn say_ended<E: Outlet>(err: &mut E, was_stopped: bool) {
    if was_stopped {
        say(
            err,
            "ofrep: stopped as requested; no answer is left unsent\n",
        );
    } else {
        say(
            err,
            "error: the system made no thread for a worker, or memory ran out; the service has ended\n",
        );
    }
}

/// How many of the flags are broken.
pub(crate) fn broken_in(flags: &Flags) -> usize {
    let mut broken: usize = 0;
    for i in 0..flags.len() {
        let (_, flag) = flags.at(i);
        if flag.is_broken() {
            broken = broken.saturating_add(1);
        }
    }
    broken
}

/// What was published.
pub(crate) fn say_published<E: Outlet>(
    alloc: Global,
    err: &mut E,
    number: u64,
    flags: usize,
    broken: usize,
) {
    say_made(
        err,
        format!(in alloc;
            "ofrep: answers from snapshot {number}, with {flags} flags, of which {broken} are broken\n"
        ),
    );
}

/// The broken flags of a document, a line for each.
pub(crate) fn say_broken<E: Outlet>(alloc: Global, err: &mut E, path: &str, text: &[u8]) {
    let Ok(lines) = of_definition_errors(alloc, text, true) else {
        return;
    };
    if lines.is_empty() {
        return;
    }
    say_made(
        err,
        format!(in alloc; "note: \"{path}\" has broken flags, which are answered as errors\n"),
    );
    say(err, lines.as_str());
}

/// The metadata of a document that is broken, and that of each of its flags, a line for each.
pub(crate) fn say_broken_metadata<E: Outlet>(alloc: Global, err: &mut E, path: &str, text: &[u8]) {
    let Ok(Broken { document, flags }) = Metadata::none(alloc).add(alloc, text) else {
        return;
    };
    if document {
        say_made(
            err,
            format!(in alloc;
                "note: the metadata of \"{path}\" is broken and left out of answers: it is not an object, or has a value that is not a boolean, a number or a text\n"
            ),
        );
    }
    for key in &flags {
        say_made(err, of_broken_metadata(alloc, path, key.as_str()));
    }
}

/// The metadata of a flag that is broken.
fn of_broken_metadata(alloc: Global, path: &str, key: &str) -> Result<String, AllocError> {
    let key = quoted_name(alloc, key)?;
    format!(in alloc;
        "note: the metadata of the flag {key} of \"{path}\" is broken and left out of answers: it is not an object, or has a value that is not a boolean, a number or a text\n"
    )
}

/// Another text of a document was accepted, and what of its metadata is broken.
pub(crate) fn say_accepted<E: Outlet>(alloc: Global, err: &mut E, path: &str, text: &[u8]) {
    say_made(err, format!(in alloc; "ofrep: \"{path}\" has changed\n"));
    say_broken_metadata(alloc, err, path, text);
}

/// Why a document is not taken.
pub(crate) fn say_kept<E: Outlet>(err: &mut E, why: Result<String, AllocError>) {
    say_made(err, why);
    say(err, "  the last version that was accepted stays in use\n");
}

/// Other keys are wanted.
pub(crate) fn say_keys_changed<E: Outlet>(alloc: Global, err: &mut E, path: &str) {
    say_made(
        err,
        format!(in alloc; "ofrep: \"{path}\" has changed; its keys are in use\n"),
    );
}

/// Why the keys stay as they are.
pub(crate) fn say_keys_kept<E: Outlet>(err: &mut E, why: Result<String, AllocError>) {
    say_made(err, why);
    say(err, "  the keys that were read last stay in use\n");
}

/// Why what a file has are no keys.
pub(crate) fn say_keys_refused<E: Outlet>(alloc: Global, err: &mut E, path: &str, fault: KeyFault) {
    let why = match of_bad_keys(alloc, path, fault) {
        Ok(why) => format!(in alloc; "error: {why}\n"),
        Err(AllocError) => Err(AllocError),
    };
    say_keys_kept(err, why);
}

/// Why what the file at a path has are no keys, and in which of its lines.
pub(crate) fn of_bad_keys(
    alloc: Global,
    path: &str,
    fault: KeyFault,
) -> Result<String, AllocError> {
    let path = quoted_name(alloc, path)?;
    match fault {
        KeyFault::BadKey(Some(at)) => {
            let line = at.saturating_add(1);
            format!(in alloc;
                "line {line} of {path} is not a key: a key has at least 16 bytes, all of them visible ASCII"
            )
        }
        KeyFault::BadKey(None) => format!(in alloc; "{path} is not a text in UTF-8"),
        KeyFault::NoKey | KeyFault::TooLarge | KeyFault::WantOfMemory => {
            format!(in alloc; "{path} has no keys: {fault}")
        }
    }
}

/// Why the text of a document is not set.
pub(crate) fn say_unfit<E: Outlet>(
    alloc: Global,
    err: &mut E,
    path: &str,
    text: &[u8],
    why: Unfit,
) {
    match why {
        Unfit::WantOfMemory => {}
        Unfit::Refused(fault) => say_kept(err, of_refused(alloc, path, text, fault)),
        Unfit::Harms(regression) => say_kept(err, of_harm(alloc, path, text, &regression)),
    }
}

/// Why a document is refused.
fn of_refused(
    alloc: Global,
    path: &str,
    text: &[u8],
    fault: SourceFault,
) -> Result<String, AllocError> {
    match fault {
        SourceFault::Refused(fault) => of_document(alloc, path, text, fault),
        _ => {
            let name = fault.name();
            format!(in alloc; "error: \"{path}\" is refused ({name})\n")
        }
    }
}

/// What a document harms, and each of its flags that is broken.
fn of_harm(
    alloc: Global,
    path: &str,
    text: &[u8],
    regression: &Regression,
) -> Result<String, AllocError> {
    match regression {
        Regression::Broken(key) => {
            let key = quoted_name(alloc, key.as_str())?;
            let lines = of_definition_errors(alloc, text, true)?;
            format!(in alloc;
                "error: \"{path}\" is refused: it breaks the flag {key}, which is good now\n{lines}"
            )
        }
        Regression::Lost(key) => {
            let key = quoted_name(alloc, key.as_str())?;
            format!(in alloc;
                "error: \"{path}\" is refused: it still has {key}, but no flag of this key\n"
            )
        }
    }
}

/// What can't be read again, since a read might wait for ever.
pub(crate) fn of_device(alloc: Global, path: &str) -> Result<String, AllocError> {
    format!(in alloc; "note: \"{path}\" is not a plain file, so it is not read again\n")
}
