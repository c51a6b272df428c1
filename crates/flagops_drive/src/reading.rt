//! From an object of an asks file to an ask.
ghost use Rattle.std.specs.Prelude.{◌≡◌, ◌<◌, ◌^◌, true, IfSome, option_copied, option_map};
ghost use Rattle.flag_text.specs.Shape.{is_whole};
ghost use Rattle.flag_text.specs.View.{view};
ghost use Rattle.flagops_drive.specs.Asks.{ask_in, ask_view, context_in, default_in, if_moment, key_in, kind_spelled, moment_in, want_in};

use book_share::Ask;
use flag_resolve::Kind;
use flag_text::Tree;
use limits::LATEST_MOMENT;

/// The ask that an object is. Each of its members is required; others are passed over.
#[tactic(auto, unfolding(crate::specs::Asks::ask_in))]
pub(crate) fn ask_in<'a>(tree: &'a Tree) -> Option<Ask<'a>>
    requires { is_whole (view tree.now) ≡ true }
    ensures { option_map ask_view result ≡ ask_in (view tree.now) }
{
    let key = key_in(tree)?;
    let want = want_in(tree)?;
    let default = default_in(tree)?;
    let context = context_in(tree)?;
    let moment = moment_in(tree)?;
    Some(Ask {
        key,
        want,
        default,
        context,
        moment,
    })
}

pub(crate) fn key_in(tree: &Tree) -> Option<&str>
    ensures { option_copied result ≡ key_in (view tree.now) }
{
    tree.member("key")?.as_text()
}

pub(crate) fn want_in(tree: &Tree) -> Option<Kind>
    ensures { result ≡ want_in (view tree.now) }
{
    kind_spelled(tree.member("want")?.as_text()?)
}

/// The kind that a word asks for: flagd's `boolean`, `string` and `integer` beside the words of kinds.
fn kind_spelled(word: &str) -> Option<Kind>
    ensures { result ≡ kind_spelled word.now }
{
    match word {
        "boolean" => Some(Kind::Bool),
        "string" => Some(Kind::Text),
        "integer" => Some(Kind::Whole),
        _ => Kind::named(word),
    }
}

pub(crate) fn default_in(tree: &Tree) -> Option<&Tree>
    ensures { option_map (λ t. view t.now) result ≡ default_in (view tree.now) }
{
    tree.member("default")
}

pub(crate) fn context_in(tree: &Tree) -> Option<&Tree>
    ensures { option_map (λ t. view t.now) result ≡ context_in (view tree.now) }
{
    let context = tree.member("context")?;
    match context {
        Tree::Object(_) => Some(context),
        _ => None,
    }
}

pub(crate) fn moment_in(tree: &Tree) -> Option<u64>
    ensures value { result ≡ moment_in (view tree.now) }
    ensures small { IfSome result (λ n. n < 2 ^ 53) }
{
    moment_of(tree.member("moment")?)
}

/// The moment that a tree is.
pub(crate) fn moment_of(tree: &Tree) -> Option<u64>
    ensures value { result ≡ if_moment (view tree.now) }
    ensures small { IfSome result (λ n. n < 2 ^ 53) }
{
    match tree {
        Tree::Whole(moment) if 0 <= *moment && *moment <= LATEST_MOMENT as i64 => Some(
            *moment as u64,
        ),
        _ => None,
    }
}
