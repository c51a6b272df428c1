//! The bytes of a value in its text, and a document with a rule in the place of a site's buckets.
use crate::rows::each;
use bucket_core::read_rule;
use flag_defs::read_flags;
use flag_text::read_tree;
use kept_document::{KeepFault, keep};
use std::alloc::Global;
use std::test::Fail;
use text_spans::{Step, find};

/// Whether the second item of the member `a` has these bytes in the text.
fn stands(alloc: Global, text: &str, want: &str) -> bool {
    match find(alloc, text, &[Step::Name("a"), Step::Index(1)]) {
        Ok(Some(span)) => text.as_bytes().get(span.start..span.end) == Some(want.as_bytes()),
        Ok(None) => want == "nowhere",
        Err(_) => false,
    }
}

const VALUES: &str = r#"{"a": [1, 22 ,333]} -> 22
{"b":[0,1],"a":[ "x" , {"b":[2]} ]} -> {"b":[2]}
{"a":[1,2],"a":[3,4]} -> 4
{"a":[1,2],"a":3} -> nowhere
{"\u0061":["]","\"},["]} -> "\"},["
{"a":[1]} -> nowhere
{"a":{"1":2}} -> nowhere
{"a":[1,2] -> nowhere"#;

#[test]
fn bytes_of_a_value(rt: HostRuntime) -> Result<(), Fail> {
    each(rt.alloc(), VALUES, stands)
}

/// The document with the rule of 3 and 7 at site 1 of its flag `color`, where it means what the wanted text does.
fn kept(alloc: Global, document: &str, wanted: &str) -> Option<Vec<u8>> {
    let flags = read_flags(alloc, document.as_bytes()).ok()?;
    let wanted = read_flags(alloc, wanted.as_bytes()).ok()?;
    let entries = read_tree(alloc, br#"[["red",3],["blue",7]]"#, 100).ok()?;
    let rule = read_rule(alloc, &entries).ok()?;
    keep(alloc, document, &flags, "color", 1, &rule, &wanted, false).ok()
}

/// Whether the rule makes this text of the document.
fn is_kept(alloc: Global, document: &str, want: &str) -> bool {
    match kept(alloc, document, want) {
        Some(text) => text.as_slice() == want.as_bytes(),
        None => want == "refused",
    }
}

const DOCUMENTS: &str =
    r#"{ "$schema" : 1, "flags":{"half":{},"color":{"state":"ENABLED","variants":{"red":"r","blue":"b"},"defaultVariant":"red","targeting":{"if":[{"fractional":[["red",1]]}, "red" ,{"fractional":[{"var":"k"},["red",5], ["blue"] ,["red",2]  ]} ] }}} } -> { "$schema" : 1, "flags":{"half":{},"color":{"state":"ENABLED","variants":{"red":"r","blue":"b"},"defaultVariant":"red","targeting":{"if":[{"fractional":[["red",1]]}, "red" ,{"fractional":[{"var":"k"},["red",3], ["blue",7]  ]} ] }}} }
{"flags":{"color":{"state":"ENABLED","variants":{"red":"r","blue":"b"},"defaultVariant":"red","targeting":{"if":[{"$ref":"s"},"red",{"fractional":[["red",1]]}]}}},"$evaluators":{"s":{"fractional":[["blue",1]]}}} -> {"flags":{"color":{"state":"ENABLED","variants":{"red":"r","blue":"b"},"defaultVariant":"red","targeting":{"if":[{"$ref":"s"},"red",{"fractional":[["red",3],["blue",7]]}]}}},"$evaluators":{"s":{"fractional":[["blue",1]]}}}"#;

#[test]
fn documents_with_a_rule(rt: HostRuntime) -> Result<(), Fail> {
    each(rt.alloc(), DOCUMENTS, is_kept)
}

/// Whether site 0 of the flag `color` stands in an evaluator.
fn is_shared(alloc: Global, document: &str) -> Option<bool> {
    let flags = read_flags(alloc, document.as_bytes()).ok()?;
    let entries = read_tree(alloc, br#"[["red",3],["blue",7]]"#, 100).ok()?;
    let rule = read_rule(alloc, &entries).ok()?;
    match keep(alloc, document, &flags, "color", 0, &rule, &flags, false) {
        Err(KeepFault::Shared) => Some(true),
        _ => Some(false),
    }
}

#[test]
fn a_site_in_an_evaluator(rt: HostRuntime) {
    let document =
        r#"{"flags":{"color":{"state":"ENABLED","variants":{"red":"r"},"targeting":{"if":[true,{"$ref":"s"}]}}},"$evaluators":{"s":{"fractional":[["red",1]]}}}"#;
    assert!(rt; is_shared(rt.alloc(), document) == Some(true));
}
