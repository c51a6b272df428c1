ghost use Rattle.std.specs.Prelude.{◌≡◌, Some};
ghost use Rattle.std.specs.Fmt.{padded};
ghost use Rattle.flag_resolve.specs.Words.{code_word};

use std::fmt;

/// What went wrong where a resolution gives the caller's default (OpenFeature: error code).
#[derive(Clone, Copy, Debug, PartialEq, Eq)]
pub enum Code {
    /// There are no flags yet.
    ProviderNotReady,
    /// The evaluation context is not an object.
    InvalidContext,
    /// No flag has the key.
    FlagNotFound,
    /// The flag is broken, or its targeting can't be evaluated.
    ParseError,
    /// The targeting gives something that names no variant.
    General,
    /// The variant's value is not of the wanted kind.
    TypeMismatch,
}

impl Code {
    /// OpenFeature's word for the code.
    pub fn as_str(&self) -> &'static str
        ensures { result.now ≡ code_word self.now }
    {
        match self {
            Code::ProviderNotReady => "PROVIDER_NOT_READY",
            Code::InvalidContext => "INVALID_CONTEXT",
            Code::FlagNotFound => "FLAG_NOT_FOUND",
            Code::ParseError => "PARSE_ERROR",
            Code::General => "GENERAL",
            Code::TypeMismatch => "TYPE_MISMATCH",
        }
    }
}

impl fmt::Display for Code {
    ghost output = { λ code. Some (code_word code) };

    ghost styled_output = { λ code spec. Some (padded spec (code_word code)) };

    fn fmt<W: fmt::Write>(&self, f: &mut fmt::Formatter<W>) -> fmt::Result {
        f.pad(self.as_str())
    }
}
