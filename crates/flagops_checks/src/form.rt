//! How documents are read and printed.
ghost use Rattle.std.specs.Prelude.{◌≡◌, map};
ghost use Rattle.flagops_checks.specs.Printed.{form_of};

/// How a document is read and printed.
#[derive(Clone, Copy, Debug)]
pub struct Form {
    /// It may have floats.
    pub floats: bool,
    /// As JSON.
    pub is_json: bool,
    /// There is no other document.
    pub is_alone: bool,
}

impl Form {
    /// The form of the documents at these paths.
    pub(crate) fn of(json: bool, floats: bool, paths: &[&str]) -> Form
        ensures { result ≡ form_of json floats (map (λ p. p.now) paths.now) }
    {
        Form {
            floats,
            is_json: json,
            is_alone: paths.len() == 1,
        }
    }
}
