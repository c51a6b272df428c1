//! Why a request's body has no context.
ghost use Rattle.std.specs.Prelude.{◌≡◌};
ghost use Rattle.ofrep_answers.specs.declared.fault.ContextFault.TheVariants.{WantOfMemory};
ghost use Rattle.ofrep_answers.specs.Fault.{of_text};

use flag_text::TextFault;
use std::alloc::AllocError;
use thiserror::Error;

/// Why a request's body has no context that a flag can be evaluated in. A body is tested for them in their order.
#[derive(Clone, Copy, Debug, PartialEq, Eq, Error)]
pub enum ContextFault {
    /// Memory ran out. It may come in place of any answer but `TooLarge`.
    #[error("out of memory")]
    WantOfMemory,
    /// There are more than 4,194,304 bytes.
    #[error("the body is too large")]
    TooLarge,
    /// The body nests deeper than 127 levels, whatever else it is.
    #[error("the body nests deeper than 127 levels")]
    BodyTooDeep,
    /// The body is no JSON text in UTF-8.
    #[error("the body is not valid JSON")]
    NotJson,
    /// The body is no object.
    #[error("the body is not an object")]
    BodyNotObject,
    /// Its member `context` is neither an object nor null.
    #[error("`context` is not an object")]
    NotObject,
    /// The context has more than 120 levels.
    #[error("`context` has more than 120 levels")]
    TooDeep,
}

impl ContextFault {
    ghost use Rattle.ofrep_answers.specs.Fault.{details_of};

    /// What is wrong, for people.
    pub fn details(self) -> &'static str
        ensures exact { result.now ≡ details_of self }
    {
        match self {
            ContextFault::WantOfMemory => "out of memory",
            ContextFault::TooLarge => "the body is too large",
            ContextFault::BodyTooDeep => "the body nests deeper than 127 levels",
            ContextFault::NotJson => "the body is not valid JSON",
            ContextFault::BodyNotObject => "the body is not an object",
            ContextFault::NotObject => "`context` is not an object",
            ContextFault::TooDeep => "`context` has more than 120 levels",
        }
    }
}

impl From<AllocError> for ContextFault {
    ghost from_gives = { λ _ e. e ≡ WantOfMemory };

    fn from(_e: AllocError) -> ContextFault {
        ContextFault::WantOfMemory
    }
}

impl From<TextFault> for ContextFault {
    ghost from_gives = { λ f e. e ≡ of_text f };

    fn from(fault: TextFault) -> ContextFault {
        match fault {
            TextFault::WantOfMemory => ContextFault::WantOfMemory,
            TextFault::TooLarge => ContextFault::TooLarge,
            // (no text is refused for a number of it that is not whole)
            TextFault::NotJson | TextFault::NotWhole => ContextFault::NotJson,
            TextFault::TooDeep => ContextFault::TooDeep,
        }
    }
}
