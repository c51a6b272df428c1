//! What the path of a request leads to.
ghost use Rattle.std.specs.Prelude.{◌≡◌, option_map};
ghost use Rattle.ofrep_requests.specs.Request as spec;

const EVERY_FLAG_PATH: &str = "/ofrep/v1/evaluate/flags";

pub(crate) const ONE_FLAG_ROUTE: &[u8] = b"/ofrep/v1/evaluate/flags/";

/// What a path leads to.
#[derive(Clone, Copy, Debug, PartialEq, Eq)]
pub enum Place {
    /// The evaluation of the flag whose key ends the path.
    OneFlag,
    /// The evaluation of every flag.
    EveryFlag,
    /// Whether the service is alive, or ready.
    Health,
    /// What the service counts.
    Metrics,
    /// A path that the service doesn't know.
    Nowhere,
}

impl Place {
    ghost use Rattle.ofrep_requests.specs.Request.{place_of, method_at};

    /// What a request's path, without its query, leads to. The key of [`Place::OneFlag`] may still be one that can't be decoded.
    pub fn of(path: &str) -> Place
        ensures exact { result ≡ place_of path.now }
    {
        match path {
            EVERY_FLAG_PATH => Place::EveryFlag,
            "/healthz" | "/readyz" => Place::Health,
            "/metrics" => Place::Metrics,
            _ if is_of_one_flag(path) => Place::OneFlag,
            _ => Place::Nowhere,
        }
    }

    /// The method that is taken there, as the field `Allow` names it.
    pub fn method(self) -> Option<&'static str>
        ensures exact { option_map (λ name. name.now) result ≡ method_at self }
    {
        match self {
            Place::OneFlag | Place::EveryFlag => Some("POST"),
            Place::Health | Place::Metrics => Some("GET"),
            Place::Nowhere => None,
        }
    }
}

/// Whether a path is the route of one flag's evaluation and then a key.
fn is_of_one_flag(path: &str) -> bool
    ensures { result ≡ spec.is_of_one_flag path.now }
{
    path.as_bytes().strip_prefix(ONE_FLAG_ROUTE).is_some()
}
