//! What the path of a request leads to.
ghost use Rattle.std.specs.Prelude.{◌≡◌, option_map};

/// What a path leads to.
#[derive(Clone, Copy, Debug, PartialEq, Eq)]
pub enum ControlPlace {
    /// The console.
    Console,
    /// The flags of the snapshot.
    Flags,
    /// The document of the snapshot.
    Snapshot,
    /// What is recorded at a site.
    Record,
    /// The plan of a request.
    Plan,
    /// The check of a plan.
    Check,
    /// The application of a plan.
    Apply,
    /// What was applied.
    History,
    /// Something else.
    Elsewhere,
}

impl ControlPlace {
    ghost use Rattle.control_flags.specs.Calls.{method_at, place_of};

    /// What a request's path, without its query, leads to.
    pub fn of(path: &str) -> ControlPlace
        ensures exact { result ≡ place_of path.now }
    {
        match path {
            "/" => ControlPlace::Console,
            "/flags" => ControlPlace::Flags,
            "/snapshot" => ControlPlace::Snapshot,
            "/record" => ControlPlace::Record,
            "/plan" => ControlPlace::Plan,
            "/check" => ControlPlace::Check,
            "/apply" => ControlPlace::Apply,
            "/history" => ControlPlace::History,
            _ => ControlPlace::Elsewhere,
        }
    }

    /// The method that is taken there, as the field `Allow` names it.
    pub fn method(self) -> Option<&'static str>
        ensures exact { option_map (λ name. name.now) result ≡ method_at self }
    {
        match self {
            ControlPlace::Console
            | ControlPlace::Flags
            | ControlPlace::Snapshot
            | ControlPlace::Record
            | ControlPlace::History => Some("GET"),
            ControlPlace::Plan | ControlPlace::Check | ControlPlace::Apply => Some("POST"),
            ControlPlace::Elsewhere => None,
        }
    }
}
