//! The metadata of documents: what a flag is answered with, what all documents are, and what is broken.
use crate::rows::each;
use flag_metadata::Metadata;
use std::alloc::{AllocError, Global};
use std::test::Fail;

/// The metadata of the flag `f` and of all documents, which stand with ` & ` between them, and the keys of the flags whose metadata is
/// broken, with a star for that of a document; with blanks between.
fn described(alloc: Global, texts: &str) -> Result<String, AllocError> {
    let mut metadata = Metadata::none(alloc);
    let mut broken = String::new(alloc);
    for text in texts.split(" & ") {
        let found = metadata.add(alloc, text.as_bytes())?;
        if found.document {
            broken.push_str(" *")?;
        }
        for key in &found.flags {
            broken.push_str(" ")?;
            broken.push_str(key.as_str())?;
        }
    }
    let mut told = String::new(alloc);
    metadata.push_flag(alloc, &mut told, "f")?;
    told.push_str(" ")?;
    match metadata.merged(alloc)? {
        Some(all) => told.push_str(all.as_str())?,
        None => told.push_str("none")?,
    }
    told.push_str(broken.as_str())?;
    Ok(told)
}

fn is_described(alloc: Global, texts: &str, want: &str) -> bool {
    match described(alloc, texts) {
        Ok(told) => told.as_str() == want,
        Err(_) => false,
    }
}

#[test]
fn documents_and_their_flags_are_described(rt: HostRuntime) -> Result<(), Fail> {
    each(
        rt.alloc(),
        r#"{"flags":{"f":{}}} -> {} none
{"metadata":{"b":1,"a":"x"},"flags":{"f":{"metadata":{"c":true,"b":2.50}}}} -> {"a":"x","b":2.50,"c":true} {"a":"x","b":1}
{"metadata":{"a":1e400,"b":-0},"flags":{"f":{}}} -> {"a":1e400,"b":-0} {"a":1e400,"b":-0}
{"metadata":{"a":1},"flags":{"f":{"metadata":{"a":null,"b":1}},"g":{"metadata":[]}}} -> {"a":1} {"a":1} f g
{"metadata":{"a":{}},"flags":{"f":{"metadata":{"b":1}}}} -> {"b":1} none *
{"metadata":{"a":1},"flags":{"f":{"metadata":{"b":1}}}} & {"metadata":{"a":2,"c":3},"flags":{"f":{}}} -> {"a":2,"c":3} {"a":2,"c":3}
{"metadata":{"a":1},"flags":{"f":{"metadata":{"b":1}}}} & {"metadata":{"c":3},"flags":{"g":{}}} -> {"a":1,"b":1} {"a":1,"c":3}
{"flags":{"f":{"metadata":{"a":1}},"f":{"metadata":{"b":1,"b":2}}}} -> {"b":2} none
{"flags":{"g":{"metadata":{"a":1}}}} -> {} none
{"metadata":{"\u0061\u000a":"\u00e9\""},"flags":{"f":1}} -> {"a\n":"é\""} {"a\n":"é\""}
[1] -> {} none
{ -> {} none"#,
        is_described,
    )
}
