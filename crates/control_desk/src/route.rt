//! Where a request leads.
ghost use Rattle.std.specs.Prelude.{◌≡◌};
ghost use Rattle.control_desk.specs.Route.{admitted, other_method, route_at, route_of, served, takes};

use crate::reply::Reply;
use control_flags::ControlPlace;

/// Where a request leads.
#[derive(Clone, Copy, Debug, PartialEq, Eq)]
pub(crate) enum Route {
    /// To the service behind the desk.
    Forwarded,
    /// To a reply.
    Replied(Reply),
    /// To a call.
    Called(ControlPlace),
}

/// Where a request leads, by its method and path, where plans may be applied or not, and it shows a key that is wanted or does not.
pub(crate) fn route_of(may_apply: bool, is_admitted: bool, method: &str, path: &str) -> Route
    ensures { result ≡ route_of may_apply is_admitted method.now path.now }
{
    let place = served(may_apply, ControlPlace::of(path));
    match place.method() {
        Some(taken) => {
            if takes(taken, method) {
                admitted(is_admitted, place)
            } else {
                Route::Replied(other_method(taken))
            }
        }
        None => Route::Forwarded,
    }
}

/// A place, where it is served: the application of plans is not, unless it is allowed.
fn served(may_apply: bool, place: ControlPlace) -> ControlPlace
    ensures { result ≡ served may_apply place }
{
    match place {
        ControlPlace::Apply => {
            if may_apply {
                ControlPlace::Apply
            } else {
                ControlPlace::Elsewhere
            }
        }
        ControlPlace::Console => ControlPlace::Console,
        ControlPlace::Flags => ControlPlace::Flags,
        ControlPlace::Snapshot => ControlPlace::Snapshot,
        ControlPlace::Record => ControlPlace::Record,
        ControlPlace::Plan => ControlPlace::Plan,
        ControlPlace::Check => ControlPlace::Check,
        ControlPlace::History => ControlPlace::History,
        ControlPlace::Elsewhere => ControlPlace::Elsewhere,
    }
}

/// Whether a method is taken where this one is: HEAD is where GET is.
fn takes(taken: &str, method: &str) -> bool
    ensures { result ≡ takes taken.now method.now }
{
    method == taken || taken == "GET" && method == "HEAD"
}

/// The reply where this method is taken, and another one came.
fn other_method(taken: &str) -> Reply
    ensures { result ≡ other_method taken.now }
{
    if taken == "GET" {
        Reply::OnlyGet
    } else {
        Reply::OnlyPost
    }
}

/// Where a call leads, by whether a key that is wanted is shown. The console wants none: it asks for it.
fn admitted(is_admitted: bool, place: ControlPlace) -> Route
    ensures { result ≡ admitted is_admitted place }
{
    if is_admitted || matches!(place, ControlPlace::Console) {
        Route::Called(place)
    } else {
        Route::Replied(Reply::Unauthorized)
    }
}
