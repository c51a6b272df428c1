//! What bytes look like that are not the JSON text that is wanted: another file of this program, or no JSON at all.
use crate::quoting::is_plain;
use flag_text::Tree;
use simdutf8::basic;

/// What bytes look like by their beginning, and what to do with them, where that is known.
pub fn look_of(bytes: &[u8]) -> Option<&'static str> {
    if bytes.starts_with(b"\x1f\x8b") {
        Some("gzip: decompress it first")
    } else if bytes.starts_with(b"\x28\xb5\x2f\xfd") {
        Some("zstd: decompress it first")
    } else if bytes.starts_with(b"PK\x03\x04") {
        Some("a zip archive: unpack it first")
    } else if bytes.starts_with(b"\xff\xfe") || bytes.starts_with(b"\xfe\xff") {
        Some("UTF-16: save it as UTF-8")
    } else {
        text_look(bytes)
    }
}

/// What a text looks like by its first line.
fn text_look(bytes: &[u8]) -> Option<&'static str> {
    if bytes.starts_with(b"{\"book\":1}") {
        return Some("a book: check the order of the arguments");
    }
    if bytes.starts_with(b"{\"tally\":1}") {
        return Some("a tally: check the order of the arguments");
    }
    let Ok(text) = basic::from_utf8(bytes) else {
        return None;
    };
    if is_yaml(text) {
        Some("YAML: write it as JSON")
    } else {
        None
    }
}

/// Whether the first line that is neither empty nor a comment has the form of YAML.
fn is_yaml(text: &str) -> bool {
    match text
        .lines()
        .find(|line| !line.is_empty() && !line.starts_with("#"))
    {
        Some(line) => is_yaml_line(line),
        None => false,
    }
}

/// Whether a line begins a document or a list of YAML, or a member whose name is a plain word.
fn is_yaml_line(line: &str) -> bool {
    if line.starts_with("---") || line.starts_with("- ") {
        return true;
    }
    match line.split_once(':') {
        Some((name, value)) => is_plain(name) && (value.is_empty() || value.starts_with(" ")),
        None => false,
    }
}

/// What a JSON text looks like that is not of the form that is wanted, and what to do with it, where that is known.
pub fn look_of_tree(tree: &Tree) -> Option<&'static str> {
    if tree.member("plan").is_some() {
        look_of_plan(tree)
    } else if tree.member("flags").is_some() {
        Some("a flag document: check the order of the arguments")
    } else if tree.member("book").is_some() {
        Some("a book: check the order of the arguments")
    } else if tree.member("tally").is_some() {
        Some("a tally: check the order of the arguments")
    } else if tree.member("variants").is_some() {
        Some("the definition of one flag: put it into \"flags\", under its key")
    } else if tree.member("targetingKey").is_some() {
        Some("an evaluation context: check the order of the arguments")
    } else {
        None
    }
}

/// The same of one with the member `plan`, which plans and requests have.
fn look_of_plan(tree: &Tree) -> Option<&'static str> {
    if tree.member("rule").is_some() || tree.member("none").is_some() {
        Some("a plan: check the order of the arguments")
    } else if tree.member("totals").is_some() || tree.member("steps").is_some() {
        Some("a rollout request: check the order of the arguments")
    } else {
        None
    }
}
