//! What is doubted of one flag.
ghost use Rattle.std.specs.Prelude.{◌≡◌};
ghost use Rattle.flag_text.specs.View.{view};
ghost use Rattle.flag_defs.specs.Flag.{flag_view};
ghost use Rattle.flag_doubts.specs.Doubts.{gives_foreign, gives_none, is_unread, is_weighed_badly};

use crate::doubt::FlagDoubts;
use crate::results::{Sought, is_result};
use crate::weights::has_bad_site;
use flag_defs::Flag;
use flag_text::Tree;
use member_names::Reader;

/// What is doubted of a flag, which has this definition in its document. A broken one is doubted by its members alone.
///
/// It takes no memory. Beside the definition's members it looks at each node of the targeting, a few times.
pub fn doubts_of(definition: &Tree, flag: &Flag) -> FlagDoubts
    ensures unread { result.unread ≡ is_unread (view definition.now) }
    ensures weight { result.weight ≡ is_weighed_badly (flag_view flag.now) }
    ensures variant { result.variant ≡ gives_foreign (flag_view flag.now) }
    ensures never { result.never ≡ gives_none (flag_view flag.now) }
{
    let unread = Reader::Definition.unread(definition).is_some();
    match flag.targeting() {
        Some(targeting) => FlagDoubts {
            unread,
            weight: has_bad_site(targeting.root()),
            variant: is_result(targeting.root(), Sought::Foreign, flag),
            never: !is_result(targeting.root(), Sought::Variant, flag),
        },
        None => FlagDoubts {
            unread,
            weight: false,
            variant: false,
            never: false,
        },
    }
}
