//! A site of a flag in a document, which a request or a plan is for.
use bucket_core::{Rule, RuleFault, total_weight};
use file_diagnostics::Name;
use flag_defs::Flags;
use logic_ast::{Expr, LogicFault, site};
use price_core::Request;
use std::alloc::{AllocError, Global};
use std::fmt;

/// A site of a flag in a document. It is shown as the site and the flag, in words.
#[derive(Clone, Copy)]
pub(crate) struct Place<'a> {
    pub(crate) alloc: Global,
    pub(crate) flags: &'a Flags,
    pub(crate) key: &'a str,
    pub(crate) number: u32,
}

impl fmt::Display for Place<'_> {
    fn fmt<W: fmt::Write>(&self, f: &mut fmt::Formatter<W>) -> fmt::Result {
        let (number, alloc, name) = (self.number, self.alloc, self.key);
        write!(f, "site {number} of {}", Name { alloc, name })
    }
}

impl<'a> Place<'a> {
    /// The place that a request is for.
    pub(crate) fn of(alloc: Global, flags: &'a Flags, asked: &'a Request) -> Place<'a> {
        Place {
            alloc,
            flags,
            key: asked.flag(),
            number: asked.site(),
        }
    }

    pub(crate) fn targeting(&self) -> Option<&'a Expr> {
        self.flags.get(self.key)?.targeting()
    }

    /// The names of the flag's variants, none where there is no flag.
    pub(crate) fn variants(&self) -> Result<Vec<String>, AllocError> {
        match self.flags.get(self.key) {
            Some(flag) => flag.names(self.alloc),
            None => Ok(Vec::new(self.alloc)),
        }
    }

    /// The names with their weights at the site, none where there is no such site.
    pub(crate) fn entries(&self) -> Result<Vec<(String, u64)>, AllocError> {
        let Some(targeting) = self.targeting() else {
            return Ok(Vec::new(self.alloc));
        };
        match site(self.alloc, targeting, self.number) {
            Ok(site) => Ok(site.entries),
            Err(LogicFault::WantOfMemory) => Err(AllocError),
            Err(_) => Ok(Vec::new(self.alloc)),
        }
    }

    /// The points of the rule at the site.
    pub(crate) fn total(&self) -> Result<u128, AllocError> {
        let entries = self.entries()?;
        Ok(total_weight(entries.as_slice()))
    }

    /// The rule at the site, refined by a factor.
    pub(crate) fn rule(&self, factor: u32) -> Result<Rule, RuleFault> {
        Rule::make(self.alloc, self.entries()?)?.refine(self.alloc, factor.max(1))
    }
}
