//! A flag and its parts.
ghost use Rattle.std.specs.Prelude.{◌≡◌, true, false, IfOk, IsOk, IfSome, map, option_map, option_copied, string_bytes};
ghost use Rattle.std.specs.Cmp.Lexicographic.{slice_cmp};
ghost use Rattle.std.specs.List.Sorted.{IsStrictlySortedBy};
ghost use Rattle.std.specs.Ordering.{nat_cmp};
ghost use Rattle.flag_text.specs.Shape.{is_whole};
ghost use Rattle.flag_text.specs.View.{view as tree_view};
ghost use Rattle.logic_ast.specs.Expr.{view};
ghost use Rattle.flag_defs.specs.Definition.{good};
ghost use Rattle.flag_defs.specs.Flag.{rules_view};
ghost use Rattle.flag_defs.specs.Floats.{floats_kind};

use crate::kind::{Kind, kind_as_spelled};
use crate::members::names_of;
use crate::rules::Rules;
use flag_text::{Tree, member_by_halving};
use logic_ast::Expr;
use std::alloc::{AllocError, Global};

/// A flag: broken, or good with its rules.
#[derive(Drop)]
pub struct Flag {
    pub(crate) rules: Option<Rules>,
}

impl Flag {
    ghost use Rattle.flag_defs.specs.Flag.{flag_view, is_broken, is_enabled, default_variant_of, variant_of, variant_names, targeting_in};
    ghost use Rattle.flag_defs.specs.Floats.{floats_of};

    /// Whether its definition breaks a rule of flag documents, so that it has no parts.
    pub fn is_broken(&self) -> bool
        ensures { result ≡ is_broken (flag_view self.now) }
    {
        self.rules.is_none()
    }

    /// Whether its state is `ENABLED`. The condition is that it is not broken.
    pub fn enabled(&self) -> bool
        requires { is_broken (flag_view self.now) ≡ false }
        ensures { result ≡ is_enabled (flag_view self.now) }
    {
        match &self.rules {
            Some(rules) => rules.enabled,
            None => false,
        }
    }

    /// The name of its default variant, where it has one. The condition is that it is not broken.
    pub fn default_variant(&self) -> Option<&str>
        requires { is_broken (flag_view self.now) ≡ false }
        ensures value { option_copied result ≡ default_variant_of (flag_view self.now) }
    {
        match &self.rules {
            Some(rules) => default_name(&rules.default_variant),
            None => None,
        }
    }

    /// The value of the variant of this name, where there is one. The condition is that it is not broken.
    pub fn variant(&self, name: &str) -> Option<&Tree>
        requires { is_broken (flag_view self.now) ≡ false }
        ensures value { option_map (λ t. tree_view t.now) result ≡ variant_of name.now (flag_view self.now) }
        ensures whole { IfSome result (λ t. is_whole (tree_view t.now) ≡ true) }
    {
        match &self.rules {
            Some(rules) => member_by_halving(rules.variants.as_slice(), name),
            None => None,
        }
    }

    /// Whether the values of its variants stand as texts, which are their spelling, since a number among them is not whole. Those of
    /// a broken flag do not.
    pub fn has_floats(&self) -> bool
        ensures { result ≡ floats_of self.now }
    {
        match &self.rules {
            Some(rules) => rules.has_floats,
            None => false,
        }
    }

    /// The kind of the values of its variants where these stand as texts: [`Kind::Float`] or [`Kind::Object`].
    pub fn floats_kind(&self) -> Option<Kind>
        ensures { result ≡ floats_kind (flag_view self.now) (floats_of self.now) }
    {
        match &self.rules {
            Some(rules) => floats_kind(rules),
            None => None,
        }
    }

    /// Its targeting, where it has one. A broken flag has none.
    pub fn targeting(&self) -> Option<&Expr>
        ensures value { option_map (λ e. view e.now) result ≡ targeting_in (flag_view self.now) }
    {
        match &self.rules {
            Some(rules) => rules.targeting.as_ref(),
            None => None,
        }
    }

    /// The names of its variants in the order of their bytes. A broken flag has none, which takes no memory.
    pub fn names(&self, alloc: Global) -> Result<Vec<String>, AllocError>
        ensures value { IfOk result (λ v. map string_bytes v.items ≡ variant_names (flag_view self.now)) }
        ensures rising { IfOk result (λ v. IsStrictlySortedBy (slice_cmp nat_cmp) (map string_bytes v.items)) }
        ensures broken { is_broken (flag_view self.now) ≡ true → IsOk result }
    {
        match &self.rules {
            Some(rules) => names_of(alloc, rules.variants.as_slice()),
            None => Ok(Vec::new(alloc)),
        }
    }
}

fn default_name(name: &Option<String>) -> Option<&str>
    ensures { option_copied result ≡ option_map string_bytes name.now }
{
    match name {
        Some(name) => Some(name.as_str()),
        None => None,
    }
}

fn floats_kind(rules: &Rules) -> Option<Kind>
    ensures { result ≡ floats_kind (good (rules_view rules.now)) rules.now.has_floats }
{
    if rules.has_floats {
        Some(kind_as_spelled(rules.variants.as_slice()))
    } else {
        None
    }
}
