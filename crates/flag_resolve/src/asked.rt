//! What a caller asks for, and the answers to it.
ghost use Rattle.std.specs.Prelude.{◌≡◌, true, IfOk, map, option_map};
ghost use Rattle.flag_text.specs.Shape.{is_whole};
ghost use Rattle.flag_text.specs.View.{view};
ghost use Rattle.logic_eval.specs.Views.{reach_view};

use crate::code::Code;
use crate::reason::Reason;
use crate::resolution::Resolution;
use flag_defs::Kind;
use flag_text::Tree;
use logic_eval::Reached;
use std::alloc::{AllocError, Global};

/// A kind of value, and a default for where the flag gives none.
#[derive(Drop)]
pub(crate) struct Asked<'a> {
    pub(crate) want: Kind,
    pub(crate) default: &'a Tree,
    ghost whole: { is_whole (view default.now) ≡ true },
}

/// A variant of a flag.
#[derive(Drop)]
pub(crate) struct Variant<'a> {
    pub(crate) name: &'a str,
    pub(crate) value: &'a Tree,
    ghost whole: { is_whole (view value.now) ≡ true },
}

impl Asked<'_> {
    ghost use Rattle.flag_resolve.specs.Resolution.{defaulted, failed, given, given_default};
    ghost use Rattle.flag_resolve.specs.Views.{asked_view, resolution_view, variant_view};

    /// The caller's default.
    pub(crate) fn defaulted(
        &self,
        alloc: Global,
        reason: Reason,
        reached: Vec<Reached>,
    ) -> Result<Resolution, AllocError>
        ensures { IfOk result (λ r. resolution_view r ≡ defaulted (asked_view self.now) reason (map reach_view reached.items)) }
    {
        Ok(Resolution {
            value: self.default.copy(alloc)?,
            variant: None,
            reason,
            code: None,
            reached,
        })
    }

    /// The caller's default and an error code.
    pub(crate) fn failed(
        &self,
        alloc: Global,
        code: Code,
        reached: Vec<Reached>,
    ) -> Result<Resolution, AllocError>
        ensures { IfOk result (λ r. resolution_view r ≡ failed (asked_view self.now) code (map reach_view reached.items)) }
    {
        Ok(Resolution {
            value: self.default.copy(alloc)?,
            variant: None,
            reason: Reason::Error,
            code: Some(code),
            reached,
        })
    }

    /// The variant, where its value is of the wanted kind.
    pub(crate) fn given(
        &self,
        alloc: Global,
        variant: Variant<'_>,
        reason: Reason,
        reached: Vec<Reached>,
    ) -> Result<Resolution, AllocError>
        ensures { IfOk result (λ r. resolution_view r ≡ given (asked_view self.now) (variant_view variant.entry) reason (map reach_view reached.items)) }
    {
        if !self.want.is_of(variant.value) {
            return self.failed(alloc, Code::TypeMismatch, reached);
        }
        Ok(Resolution {
            value: variant.value.copy(alloc)?,
            variant: Some(String::from_str(alloc, variant.name)?),
            reason,
            code: None,
            reached,
        })
    }

    /// The default variant, or else the caller's default.
    pub(crate) fn given_default(
        &self,
        alloc: Global,
        variant: Option<Variant<'_>>,
        reason: Reason,
        reached: Vec<Reached>,
    ) -> Result<Resolution, AllocError>
        ensures { IfOk result (λ r. resolution_view r ≡ given_default (asked_view self.now) (option_map variant_view variant.entry) reason (map reach_view reached.items)) }
    {
        match variant {
            Some(variant) => self.given(alloc, variant, reason, reached),
            None => self.defaulted(alloc, Reason::Default, reached),
        }
    }
}
