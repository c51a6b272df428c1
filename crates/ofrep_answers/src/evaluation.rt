//! The evaluation of one flag.
ghost use Rattle.std.specs.Prelude.{◌≡◌, ◌<◌, ◌^◌, true, IfOk};
ghost use Rattle.flag_defs.specs.Flags.{flags_view};
ghost use Rattle.flag_defs.specs.Floats.{floats_view};
ghost use Rattle.flag_resolve.specs.Views.{resolution_view};
ghost use Rattle.flag_text.specs.Shape.{is_tidy};
ghost use Rattle.flag_text.specs.View.{view};
ghost use Rattle.ofrep_answers.specs.Evaluation.{evaluation, is_spelled};

use crate::kind::flag_kind;
use flag_defs::Flags;
use flag_resolve::{Resolution, floats_in, resolve};
use flag_text::Tree;
use std::alloc::{AllocError, Global};

/// What the flag of a key resolves to in a context at a moment, for a caller who takes the kind of its variants and has no
/// default. The values of a flag with floats are texts, which are their spelling ([`is_spelled`]).
#[tactic(auto, unfolding(crate::specs::Evaluation::evaluation))]
pub(crate) fn evaluate(
    alloc: Global,
    flags: &Flags,
    key: &str,
    context: &Tree,
    moment: u64,
) -> Result<Resolution, AllocError>
    requires context { is_tidy (view context.now) ≡ true }
    requires moment { moment < 2 ^ 53 }
    ensures { IfOk result (λ r. resolution_view r ≡ evaluation (flags_view flags.now) key.now (view context.now) moment) }
{
    let kind = flag_kind(alloc, flags.get(key))?;
    resolve(alloc, Some(flags), key, kind, &Tree::Null, context, moment)
}

/// Whether the flag of a key has floats, so that a value of it stands as a text, which is printed as it is.
pub(crate) fn is_spelled(flags: &Flags, key: &str) -> bool
    ensures { result ≡ is_spelled key.now (flags_view flags.now, floats_view flags.now) }
{
    floats_in(Some(flags), key).is_some()
}
