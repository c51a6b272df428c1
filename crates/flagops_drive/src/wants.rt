//! The kinds that flags with floats are asked for.
ghost use Rattle.std.specs.Prelude.{◌≡◌, map};
ghost use Rattle.flag_defs.specs.Floats.{marked_view};
ghost use Rattle.flag_resolve.specs.Floats.{kind_asked};
ghost use Rattle.flagops_drive.specs.Asks.{ask_view};
ghost use Rattle.flagops_drive.specs.Floats.{asked_as};

use book_share::Ask;
use flag_defs::Flags;
use flag_resolve::{Kind, floats_in};

/// Has each ask want the kind that its flag is asked for: where the values of the flag stand as texts, which are their spelling, a
/// text if the flag's kind is wanted, and else a whole number, which no text is. Cost: a search by the key for each ask.
pub(crate) fn want_spellings(flags: &Flags, asks: &mut Vec<Ask<'_>>)
    ensures { map ask_view asks.new.items ≡ map (asked_as (marked_view flags.now)) (map ask_view asks.old.items) }
{
    for ask in asks.iter_mut() {
        ask.want = kind_asked(floats_in(Some(flags), ask.key), ask.want);
    }
}

/// The kind that a flag with floats of this kind is asked for in place of the wanted one.
fn kind_asked(floats: Option<Kind>, want: Kind) -> Kind
    ensures { result ≡ kind_asked floats want }
{
    match (floats, want) {
        (None, _) => want,
        (Some(Kind::Float), Kind::Float) | (Some(Kind::Object), Kind::Object) => Kind::Text,
        (Some(_), _) => Kind::Whole,
    }
}
