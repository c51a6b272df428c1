//! The words that the program is asked by, as a command reads them: `help NAME` and what a person at a terminal is told.
ghost use Rattle.std.specs.Prelude.{◌≡◌, [], ◌∷◌, drop, IfErr, IfOk, IsErrOf, map, option_map, string_bytes};
ghost use Rattle.std.specs.Vec.Iter.{into_iter_items};
ghost use Rattle.flagops.specs.First.{explained, help_for, helped, is_plan, reads_its_words};

use crate::family::{Family, family_named, has_word};
use std::alloc::Global;
use std::env::Args;
use std::io;

/// The arguments after the program's name; at a terminal `plan` gets `--explain`.
pub fn asked_words(
    alloc: Global,
    words: io::Result<Args>,
    is_terminal: bool,
) -> io::Result<Vec<String>>
    ensures asked { IfOk result (λ v. IfOk words (λ w. map string_bytes v.items ≡ explained is_terminal (helped (map string_bytes (drop 1 (into_iter_items w)))))) }
    ensures unread { IfErr words (λ e. IsErrOf result e) }
{
    let words = helped(alloc, behind_name(alloc, words)?)?;
    explained(alloc, words, is_terminal)
}

/// The words behind the first, which is the program's name.
fn behind_name(alloc: Global, words: io::Result<Args>) -> io::Result<Vec<String>>
    ensures behind { IfOk result (λ v. IfOk words (λ w. v.items ≡ drop 1 (into_iter_items w))) }
    ensures unread { IfErr words (λ e. IsErrOf result e) }
{
    let mut words = words?;
    let _name = words.next();
    let mut behind = Vec::new(alloc);
    for word in words {
        behind.push(word)?;
    }
    Ok(behind)
}

/// The words, or `NAME --help` in place of `help NAME` where the name is that of a command that reads its words by itself.
fn helped(alloc: Global, words: Vec<String>) -> io::Result<Vec<String>>
    ensures { IfOk result (λ v. map string_bytes v.items ≡ helped (map string_bytes words.items)) }
{
    match help_for(words.as_slice()) {
        Some(name) => {
            let name = String::from_str(alloc, name)?;
            let help = String::from_str(alloc, "--help")?;
            Ok(vec![in alloc; name, help]?)
        }
        None => Ok(words),
    }
}

/// The words, with `--explain` behind `plan` where what is told is read at a terminal.
fn explained(alloc: Global, words: Vec<String>, is_terminal: bool) -> io::Result<Vec<String>>
    ensures { IfOk result (λ v. map string_bytes v.items ≡ explained is_terminal (map string_bytes words.items)) }
{
    let mut words = words;
    if is_terminal && is_plan(words.as_slice()) {
        words.insert(1, String::from_str(alloc, "--explain")?)?;
    }
    Ok(words)
}

/// Whether the words ask for `plan`, and do not ask for words beside it by themselves.
fn is_plan(words: &[String]) -> bool
    ensures { result ≡ is_plan (map string_bytes words.now) }
{
    match words.first() {
        Some(first) => first.as_str() == "plan" && !has_word(words, "--explain"),
        None => false,
    }
}

/// The command whose help the words ask for by `help NAME`, where it reads its words by itself.
fn help_for(words: &[String]) -> Option<&str>
    ensures { option_map (λ s. s.now) result ≡ help_for (map string_bytes words.now) }
{
    match words {
        [] => None,
        [_first] => None,
        [first, name] => help_of(first.as_str(), name.as_str()),
        [_first, _name, _more, ..] => None,
    }
}

fn help_of<'a>(first: &str, name: &'a str) -> Option<&'a str>
    ensures { option_map (λ s. s.now) result ≡ help_for (first.now ∷ name.now ∷ []) }
{
    if first == "help" && reads_its_words(family_named(name)) {
        Some(name)
    } else {
        None
    }
}

/// Whether a command of the family reads its words by itself.
fn reads_its_words(family: Family) -> bool
    ensures { result ≡ reads_its_words family }
{
    !matches!(family, Family::Files)
}
