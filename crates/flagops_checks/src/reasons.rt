//! Why a flag is doubted, in words.
ghost use Rattle.std.specs.Prelude.{◌≡◌, false};
ghost use Rattle.flag_defs.specs.Flag.{flag_view, is_broken};

use crate::judging::Judged;
use crate::places::{foreign_in, ill_in};
use crate::sites::SiteDoubt;
use flag_defs::Flag;
use flag_doubts::Doubt;
use flag_text::Tree;
use flagops_files::quoted;
use member_names::{Reader, within};
use std::alloc::{AllocError, Global};

/// Why this is doubted of a flag, behind its key.
pub(crate) fn reason(
    alloc: Global,
    judged: &Judged<'_>,
    doubt: Doubt,
) -> Result<String, AllocError> {
    match doubt {
        Doubt::Doubled => String::from_str(
            alloc,
            "stands more than once, and its last definition counts",
        ),
        Doubt::Repeated => repeated(alloc, judged.repeated),
        Doubt::Unread => unread(alloc, judged.definition),
        Doubt::Weight => weight(alloc, judged.flag),
        Doubt::Variant => variant(alloc, judged.flag),
        Doubt::Never => String::from_str(alloc, "has a targeting that never gives a variant"),
    }
}

/// Why this is doubted of a site of a flag, behind its key.
pub(crate) fn site_reason(doubt: SiteDoubt) -> &'static str {
    match doubt {
        SiteDoubt::Total => {
            "has a fractional whose weights sum to 99 or 101: if they are percentages, they sum to 100"
        }
        SiteDoubt::Constant => {
            "has a fractional whose bucketing expression is the same for everybody, so all get one variant: read a member of the context, as {\"var\":\"targetingKey\"}"
        }
    }
}

/// The place of a member that stands more than once.
pub(crate) fn repeated(alloc: Global, place: Option<&str>) -> Result<String, AllocError> {
    let text = "has a member that stands more than once, and the last counts";
    match place {
        Some(place) => {
            let place = within(place);
            format!(in alloc; "{text}: {place}")
        }
        None => String::from_str(alloc, text),
    }
}

/// The members of a definition that are not read, each with the one that may be meant.
fn unread(alloc: Global, definition: Option<&Tree>) -> Result<String, AllocError> {
    let mut text = String::from_str(alloc, "has a member that is not read:")?;
    let Some(Tree::Object(members)) = definition else {
        return Ok(text);
    };
    for (name, _) in members {
        if !Reader::Definition.reads(name.as_str()) {
            let shown = shown_member(alloc, name.as_str())?;
            text.push_str(shown.as_str())?;
        }
    }
    Ok(text)
}

fn shown_member(alloc: Global, name: &str) -> Result<String, AllocError> {
    let shown = quoted(alloc, name)?;
    match Reader::Definition.meant(name) {
        Some(meant) => {
            let meant = quoted(alloc, meant)?;
            format!(in alloc; " {shown} (perhaps {meant} is meant)")
        }
        None => format!(in alloc; " {shown}"),
    }
}

fn weight(alloc: Global, flag: &Flag) -> Result<String, AllocError> {
    let place = match flag.targeting() {
        Some(targeting) => ill_in(alloc, targeting.root())?,
        None => None,
    };
    let place = placed(alloc, place)?;
    format!(in alloc; "has a fractional that gives no variant to anybody{place}")
}

fn variant(alloc: Global, flag: &Flag) -> Result<String, AllocError> {
    let place = foreign_of(alloc, flag)?;
    let place = placed(alloc, place)?;
    format!(in alloc; "can result in what is not one of its variants{place}")
}

fn foreign_of(alloc: Global, flag: &Flag) -> Result<Option<String>, AllocError> {
    if flag.is_broken() {
        return Ok(None);
    }
    match flag.targeting() {
        Some(targeting) => foreign_in(alloc, targeting.root(), flag),
        None => Ok(None),
    }
}

/// A place in a targeting, with its references replaced.
fn placed(alloc: Global, place: Option<String>) -> Result<String, AllocError> {
    match place {
        Some(place) => format!(in alloc; ": targeting{place}"),
        None => Ok(String::new(alloc)),
    }
}
