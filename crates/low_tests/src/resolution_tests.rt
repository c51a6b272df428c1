//! Resolutions that no command shows.
ghost use Rattle.std.specs.Prelude.{◌≡◌, true};
ghost use Rattle.flag_text.specs.Shape.{is_whole};
ghost use Rattle.flag_text.specs.View.{view};

use flag_resolve::{Code, Kind, Reason, print_resolution, resolve};
use flag_text::{Tree, read_tree};
use std::alloc::Global;

/// Whether a text resolves so without flags.
#[tactic(auto, using(logic_eval::proofs::Tidy::tidy_whole))]
fn is_resolved(alloc: Global, default: &Tree, context: &Tree, want: &str) -> bool
    requires default { is_whole (view default.now) ≡ true }
    requires context { is_whole (view context.now) ≡ true }
{
    match resolve(alloc, None, "color", Kind::Text, default, context, 0) {
        Ok(resolution) => match print_resolution(alloc, &resolution) {
            Ok(text) => text.as_str() == want,
            Err(_) => false,
        },
        Err(_) => false,
    }
}

/// The same with the default and the context of texts.
fn is_resolved_in(alloc: Global, default: &[u8], context: &[u8], want: &str) -> bool {
    match read_tree(alloc, default, 100) {
        Ok(default) => match read_tree(alloc, context, 100) {
            Ok(context) => is_resolved(alloc, &default, &context, want),
            Err(_) => false,
        },
        Err(_) => false,
    }
}

#[test]
fn without_flags_the_provider_is_not_ready(rt: HostRuntime) {
    let context = b"{\"key\":\"test\",\"targetingKey\":\"st\"}";
    let want =
        r#"{"code":"PROVIDER_NOT_READY","reached":[],"reason":"ERROR","value":"d","variant":null}"#;
    assert!(rt; is_resolved_in(rt.alloc(), b"\"d\"", context, want));
}

/// Whether a reason and a code are written so.
fn are_written(alloc: Global, reason: Reason, code: Code, want: &str) -> bool {
    match format!(in alloc; "{reason} {code}") {
        Ok(text) => text.as_str() == want,
        Err(_) => false,
    }
}

#[test]
fn words_of_reasons_and_codes(rt: HostRuntime) {
    let want = "TARGETING_MATCH PROVIDER_NOT_READY";
    assert!(rt;
        are_written(
            rt.alloc(),
            Reason::TargetingMatch,
            Code::ProviderNotReady,
            want
        )
    );
}
