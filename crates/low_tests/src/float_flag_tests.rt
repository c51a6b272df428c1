//! Flags with floats: how they are printed, and what they resolve to.
ghost use Rattle.std.specs.Prelude.{◌≡◌, true};
ghost use Rattle.flag_text.specs.Shape.{is_whole};
ghost use Rattle.flag_text.specs.View.{view};

use crate::rows::each;
use flag_defs::{Flags, print_flags_with_floats, read_flags_with_floats};
use flag_resolve::{Kind, Resolution, floats_in, push_resolution_spelled, resolve_with_floats};
use flag_text::{Tree, read_tree};
use std::alloc::Global;
use std::test::Fail;

/// Whether the flags of a document are printed so.
fn are_printed(alloc: Global, text: &str, want: &str) -> bool {
    match read_flags_with_floats(alloc, text.as_bytes()) {
        Ok(flags) => match print_flags_with_floats(alloc, &flags) {
            Ok(printed) => printed.as_slice() == want.as_bytes(),
            Err(_) => false,
        },
        Err(_) => false,
    }
}

#[test]
fn flags_are_printed_by_their_spelling(rt: HostRuntime) -> Result<(), Fail> {
    each(
        rt.alloc(),
        r#"{"flags":{"f":{"state":"ENABLED","variants":{"y":1,"x":0.50},"defaultVariant":"x"}}} -> {"flags":{"f":{"defaultVariant":"x","state":"ENABLED","variants":{"x":0.50,"y":1}}}}
{"flags":{"f":{"state":"DISABLED","variants":{"x":5.0}}}} -> {"flags":{"f":{"state":"DISABLED","variants":{"x":5.0}}}}
{"flags":{"f":{"state":"ENABLED","variants":{"x":{"s":[ 1, "t" ],"r":1e2}}}}} -> {"flags":{"f":{"state":"ENABLED","variants":{"x":{"s":[1,"t"],"r":1e2}}}}}
{"flags":{"f":{"state":"ENABLED","variants":{"x":"0.5"}}}} -> {"flags":{"f":{"state":"ENABLED","variants":{"x":"0.5"}}}}
{"flags":{"g":{"state":"ENABLED","variants":{"x":"0.5"}},"f":{"state":"ENABLED","variants":{"x":0.5},"targeting":{"var":"k"}}}} -> {"flags":{"f":{"state":"ENABLED","targeting":{"var":["k"]},"variants":{"x":0.5}},"g":{"state":"ENABLED","variants":{"x":"0.5"}}}}
{"flags":{"f":{"state":"ENABLED","variants":{"x":0.5,"y":"t"}}}} -> {"flags":{"f":{}}}
{"flags":{"f":{"state":"ENABLED","variants":{"x":0.5}},"f":{"state":"ENABLED","variants":{"x":"0.5"}}}} -> {"flags":{"f":{"state":"ENABLED","variants":{"x":"0.5"}}}}
{"flags":{}} -> {"flags":{}}"#,
        are_printed,
    )
}

/// Flags of each kind of floats, and one without.
const FLAGS: &[u8] = br#"{"flags":{
    "f":{"state":"ENABLED","variants":{"low":0.50,"high":1},"defaultVariant":"low"},
    "o":{"state":"ENABLED","variants":{"x":{"r":1.50}},"defaultVariant":"x"},
    "w":{"state":"ENABLED","variants":{"x":1},"defaultVariant":"x"}}}"#;

/// Whether a resolution is printed so.
fn is_told(alloc: Global, resolution: &Resolution, floats: bool, want: &str) -> bool {
    let mut text = String::new(alloc);
    match push_resolution_spelled(alloc, &mut text, resolution, floats) {
        Ok(()) => text.as_str() == want,
        Err(_) => false,
    }
}

/// Whether the flag of a key resolves so for a kind, in a context.
#[tactic(auto, using(logic_eval::proofs::Tidy::tidy_whole))]
fn is_resolved(
    alloc: Global,
    flags: &Flags,
    key: &str,
    kind: Kind,
    context: &Tree,
    want: &str,
) -> bool
    requires { is_whole (view context.now) ≡ true }
{
    match resolve_with_floats(alloc, Some(flags), key, kind, &Tree::Null, context, 0) {
        Ok(resolution) => {
            let floats = floats_in(Some(flags), key).is_some();
            is_told(alloc, &resolution, floats, want)
        }
        Err(_) => false,
    }
}

/// The same for a key and the word of a kind, with a blank between them.
fn resolves(alloc: Global, given: &str, want: &str) -> bool {
    let Some((key, word)) = given.split_once(' ') else {
        return false;
    };
    let Some(kind) = Kind::named(word) else {
        return false;
    };
    let Ok(context) = read_tree(alloc, b"{}", 10) else {
        return false;
    };
    match read_flags_with_floats(alloc, FLAGS) {
        Ok(flags) => is_resolved(alloc, &flags, key, kind, &context, want),
        Err(_) => false,
    }
}

#[test]
fn floats_are_of_their_kind(rt: HostRuntime) -> Result<(), Fail> {
    each(
        rt.alloc(),
        r#"f float -> {"code":null,"reached":[],"reason":"STATIC","value":0.50,"variant":"low"}
f whole -> {"code":"TYPE_MISMATCH","reached":[],"reason":"ERROR","value":null,"variant":null}
f text -> {"code":"TYPE_MISMATCH","reached":[],"reason":"ERROR","value":null,"variant":null}
f object -> {"code":"TYPE_MISMATCH","reached":[],"reason":"ERROR","value":null,"variant":null}
o object -> {"code":null,"reached":[],"reason":"STATIC","value":{"r":1.50},"variant":"x"}
o text -> {"code":"TYPE_MISMATCH","reached":[],"reason":"ERROR","value":null,"variant":null}
o float -> {"code":"TYPE_MISMATCH","reached":[],"reason":"ERROR","value":null,"variant":null}
w float -> {"code":null,"reached":[],"reason":"STATIC","value":1,"variant":"x"}
w whole -> {"code":null,"reached":[],"reason":"STATIC","value":1,"variant":"x"}"#,
        resolves,
    )
}
