//! Which commands someone at a terminal watches, and what is told of them.
ghost use Rattle.std.specs.Prelude.{◌≡◌, false, IfErr, IfOk, None, map, option_map, string_bytes};
ghost use Rattle.flagops.specs.First.{family_of};
ghost use Rattle.flagops.specs.Watched.{is_filter, is_service, work_in, work_of};

use crate::family::{Family, family_of, has_word};
use progress::{Progress, TerminalLine};
use std::io::{self, Write};
use std::sync::Wait;
use std::time::Clock;

/// Someone who watches the commands while they run in another thread.
pub trait Watcher: Sync {
    /// Tells how far they are, until they have ended or write themselves.
    fn follow(&self);

    /// They have ended.
    fn end(&self);
}

/// Someone at a terminal.
#[derive(Drop)]
pub struct Watch<'a, R, W> {
    pub rt: &'a R,
    pub progress: &'a Progress,
    pub line: &'a TerminalLine<W>,
    /// What the commands do beside reading and answering.
    pub work: &'a str,
}

impl<R: AllocGlobal + Wait + Clock + Sync, W: Write + Send> Watcher for Watch<'_, R, W> {
    fn follow(&self) {
        self.line.follow(self.rt, self.progress, self.work);
    }

    fn end(&self) {
        self.line.end(self.rt);
    }
}

/// The word for what a command does, for the line of its progress; None for one that runs until it is stopped or reads what is
/// typed.
pub fn work_of(words: &io::Result<Vec<String>>, is_typed: bool) -> Option<&'static str>
    ensures told { IfOk words.now (λ w. option_map (λ s. s.now) result ≡ work_of is_typed (map string_bytes w.items)) }
    ensures unread { IfErr words.now (λ _. option_map (λ s. s.now) result ≡ None) }
{
    let Ok(words) = words else {
        return None;
    };
    let first = words.first()?;
    if is_typed && has_word(words.as_slice(), "-") {
        return None;
    }
    work_in(is_typed, first.as_str(), family_of(words.as_slice()))
}

/// What a command does, by its name and its family. Nothing is told of a filter that reads what is typed.
fn work_in(is_typed: bool, name: &str, family: Family) -> Option<&'static str>
    ensures { option_map (λ s. s.now) result ≡ work_in is_typed name.now family }
{
    match family {
        Family::Serve | Family::Follow | Family::Ofrep => None,
        Family::Record | Family::Tally if is_typed => None,
        Family::Record | Family::Tally => Some("reading the standard input"),
        Family::Ramp | Family::PlanPicture => Some("planning"),
        _ if name == "plan" => Some("planning"),
        _ => Some("working"),
    }
}

/// Whether the words ask for the command that writes while it reads.
pub fn is_filter(words: &io::Result<Vec<String>>) -> bool
    ensures asked { IfOk words.now (λ w. result ≡ is_filter (family_of (map string_bytes w.items))) }
    ensures unread { IfErr words.now (λ _. result ≡ false) }
{
    match words {
        Ok(words) => asks_for_filter(words.as_slice()),
        Err(_) => false,
    }
}

/// The same of words that were read.
fn asks_for_filter(words: &[String]) -> bool
    ensures { result ≡ is_filter (family_of (map string_bytes words.now)) }
{
    writes_while_it_reads(family_of(words))
}

fn writes_while_it_reads(family: Family) -> bool
    ensures { result ≡ is_filter family }
{
    matches!(family, Family::Record)
}

/// Whether the words ask for the command that serves until it is ended, and tells what happens to it meanwhile.
pub fn is_service(words: &io::Result<Vec<String>>) -> bool
    ensures asked { IfOk words.now (λ w. result ≡ is_service (family_of (map string_bytes w.items))) }
    ensures unread { IfErr words.now (λ _. result ≡ false) }
{
    match words {
        Ok(words) => asks_for_service(words.as_slice()),
        Err(_) => false,
    }
}

/// The same of words that were read.
fn asks_for_service(words: &[String]) -> bool
    ensures { result ≡ is_service (family_of (map string_bytes words.now)) }
{
    answers_over_http(family_of(words))
}

fn answers_over_http(family: Family) -> bool
    ensures { result ≡ is_service family }
{
    matches!(family, Family::Ofrep)
}
