ghost use Rattle.std.specs.Prelude.{◌≡◌};
ghost use Rattle.flag_text.specs.declared.fault.TextFault.TheVariants as texts;
ghost use Rattle.rule_text.specs.declared.fault.RuleTextFault.TheVariants.{Text, Rule};

use bucket_core::RuleFault;
use flag_text::TextFault;
use std::alloc::AllocError;
use thiserror::Error;

/// Why a text is not read as a rule: first what its bytes are refused for, then what its tree is. Memory that ran out
/// is the want of memory of either.
#[derive(Clone, Copy, Debug, PartialEq, Eq, Error)]
pub enum RuleTextFault {
    /// The bytes are not read as a tree.
    #[error("{0}")]
    Text(TextFault),
    /// The tree is not read as a rule.
    #[error("{0}")]
    Rule(RuleFault),
}

impl From<TextFault> for RuleTextFault {
    ghost from_gives = { λ fault e. e ≡ Text fault };

    fn from(fault: TextFault) -> RuleTextFault {
        RuleTextFault::Text(fault)
    }
}

impl From<RuleFault> for RuleTextFault {
    ghost from_gives = { λ fault e. e ≡ Rule fault };

    fn from(fault: RuleFault) -> RuleTextFault {
        RuleTextFault::Rule(fault)
    }
}

impl From<AllocError> for RuleTextFault {
    ghost from_gives = { λ _ e. e ≡ Text texts.WantOfMemory };

    fn from(_e: AllocError) -> RuleTextFault {
        RuleTextFault::Text(TextFault::WantOfMemory)
    }
}
