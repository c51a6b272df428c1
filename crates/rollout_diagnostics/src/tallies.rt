//! Diagnostics of a tally that has no input, or is for another page or total than a request.
ghost use Rattle.std.specs.Prelude.{IfOk, string_bytes};
ghost use Rattle.file_diagnostics.specs.Named.{Names};

use crate::pages::whole_page;
use crate::place::Place;
use book_core::Page;
use file_diagnostics::{Lines, Opening};
use flag_defs::Flags;
use logic_ast::LogicFault;
use note_tallies::PageTally;
use rollout::RequestFile;
use std::alloc::{AllocError, Global};

/// Says that the tally at `path` has no input.
pub fn of_empty_tally(alloc: Global, path: &str, page: &Page) -> Result<String, AllocError>
    ensures names { IfOk result (λ s. Names path.now (string_bytes s)) }
{
    let page = whole_page(alloc, page)?;
    let mut lines = Lines::new(alloc);
    write!(
        lines,
        " counts no input of the page of the request, so no recorded user counts:\n  {page}\n",
    );
    lines.headed(Opening::Note, path)
}

/// Explains why the tally at `tally_path` doesn't serve the request at `path`: it is for another page or total.
pub fn of_other_tally(
    alloc: Global,
    path: &str,
    flags: &Flags,
    request: &RequestFile,
    tally_path: &str,
    tally: &PageTally,
) -> Result<String, AllocError>
    ensures names { IfOk result (λ s. Names path.now (string_bytes s)) }
{
    let mut lines = Lines::new(alloc);
    write!(
        lines,
        " is for another page or total than the tally {}:\n",
        lines.name(tally_path),
    );
    write!(
        lines,
        "  the tally is for {}, at {} points\n",
        whole_page(alloc, &tally.page)?,
        tally.total,
    );
    if let Ok(asked) = request.asked() {
        let place = Place::of(alloc, flags, asked);
        put_asked(&mut lines, place)?;
        put_advice(&mut lines, tally.total, place.total()?);
    }
    lines.headed(Opening::Request, path)
}

/// The page that is asked for, and the points of its rule.
fn put_asked(lines: &mut Lines, place: Place<'_>) -> Result<(), AllocError> {
    let Some(targeting) = place.targeting() else {
        return Ok(());
    };
    match Page::of(lines.alloc, place.key, targeting, place.number) {
        Ok(page) => write!(
            lines,
            "  the request is for {}, at {} points (with --refine M: M times as many)\n",
            whole_page(lines.alloc, &page)?,
            place.total()?,
        ),
        Err(LogicFault::WantOfMemory) => return Err(AllocError),
        Err(_) => {}
    }
    Ok(())
}

/// With which factor the tally was made, where its points are a multiple of the rule's; and what to do.
fn put_advice(lines: &mut Lines, tallied: u32, total: u128) {
    let tallied = u128::from(tallied);
    if total > 0 && tallied % total == 0 {
        match tallied / total {
            1 => write!(lines, "  the tally was made without --refine"),
            times => write!(lines, "  the tally was made with --refine {times}"),
        }
        write!(
            lines,
            ": tally the page of the request as it is planned, with the same --refine\n"
        );
    } else {
        write!(
            lines,
            "  tally the page of the request, with the --refine that it is planned with\n",
        );
    }
}
