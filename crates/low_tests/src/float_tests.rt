//! Documents with floats: which variants become texts, and by what spelling.
use crate::rows::each;
use flag_text::{Tree, print_tree};
use spelled_numbers::{Mark, read_with_floats};
use std::alloc::Global;
use std::test::Fail;

/// Whether the tree is printed so; one that has a number which is not whole is printed as `other`.
fn is_printed(alloc: Global, tree: &Tree, want: &str) -> bool {
    if !tree.is_whole() {
        return want == "other";
    }
    match print_tree(alloc, tree) {
        Ok(text) => text.as_str() == want,
        Err(_) => false,
    }
}

/// Whether the text is read as the wanted tree, or refused by the wanted name.
fn reads(alloc: Global, text: &str, want: &str) -> bool {
    match read_with_floats(alloc, text.as_bytes(), 200) {
        Ok(document) => is_printed(alloc, &document.tree, want),
        Err(fault) => fault.name() == want,
    }
}

#[test]
fn documents(rt: HostRuntime) -> Result<(), Fail> {
    each(
        rt.alloc(),
        r#"{"flags":{"a":{"variants":{"x":0.5,"y":1}}}} -> {"flags":{"a":{"variants":{"x":"0.5","y":"1"}}}}
{"flags":{"a":{"variants":{"x":5.0}}}} -> {"flags":{"a":{"variants":{"x":"5.0"}}}}
{"flags":{"a":{"variants":{"x":-0,"y":1e400,"z":1E-2}}}} -> {"flags":{"a":{"variants":{"x":"-0","y":"1e400","z":"1E-2"}}}}
{"flags":{"a":{"variants":{"x":9007199254740992}}}} -> {"flags":{"a":{"variants":{"x":"9007199254740992"}}}}
{"flags":{"a":{"variants":{"x":9007199254740991}}}} -> {"flags":{"a":{"variants":{"x":9007199254740991}}}}
{"flags":{"a":{"variants":{"x":{"s":[ 1, "t" ],"r":0.50},"y":{}}}}} -> {"flags":{"a":{"variants":{"x":"{\"s\":[1,\"t\"],\"r\":0.50}","y":"{}"}}}}
{"flags":{"a":{"variants":{"x":{"s":1}}}}} -> {"flags":{"a":{"variants":{"x":{"s":1}}}}}
{"flags":{"a":{"variants":{"x":0.5,"x":1}}}} -> {"flags":{"a":{"variants":{"x":1}}}}
{"flags":{"a":{"variants":{"x":true,"x":0.5}}}} -> {"flags":{"a":{"variants":{"x":"0.5"}}}}
{"flags":{"a":{"variants":{"x":0.5,"y":true}}}} -> other
{"flags":{"a":{"variants":{"x":0.5,"y":"t"}}}} -> other
{"flags":{"a":{"variants":{"x":[0.5]}}}} -> other
{"flags":{"a":{"targeting":{"variants":{"x":0.5}}}}} -> other
{"flagd":{"a":{"variants":{"x":0.5}}}} -> other
{"flags":{"a":{"variants":{"x":"t","y":"0.5"}}}} -> {"flags":{"a":{"variants":{"x":"t","y":"0.5"}}}}
{"flags":{"a":{"state":1e400}}} -> NotJson
{"flags":{"a":{"variants":{"x":05}}}} -> NotJson
[1] -> [1]"#,
        reads,
    )
}

/// Whether the mark is of this key, with a star where the flag has floats.
fn is_marked(mark: &Mark, want: &str) -> bool {
    match want.strip_suffix('*') {
        Some(key) => mark.key.as_str() == key && mark.has_floats,
        None => mark.key.as_str() == want && !mark.has_floats,
    }
}

/// Whether the marks of the flags are these, one behind the other.
fn marks(alloc: Global, text: &str, want: &str) -> bool {
    let Ok(document) = read_with_floats(alloc, text.as_bytes(), 200) else {
        return false;
    };
    let mut wanted = want.split_whitespace();
    for mark in &document.marks {
        match wanted.next() {
            Some(want) if is_marked(mark, want) => {}
            _ => return false,
        }
    }
    wanted.next().is_none()
}

#[test]
fn flags_with_floats(rt: HostRuntime) -> Result<(), Fail> {
    each(
        rt.alloc(),
        r#"{"flags":{"b":{"variants":{"x":0.5}},"a":{"variants":{"x":1}},"c":5}} -> b* a c
{"flags":{"a":{"variants":{"x":0.5},"variants":{"x":1}}}} -> a
{"flags":{"a":{"variants":{"x":0.5}},"a":{}}} -> a* a
{"flags":{"a":{}},"flags":{"b":{"variants":{"x":{"y":2.5}}}}} -> b*"#,
        marks,
    )
}
