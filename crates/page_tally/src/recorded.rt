//! What a planner asks of recorded inputs.
ghost use Rattle.std.specs.Prelude.{◌≡◌, ◌≤◌, length, IfOk};
ghost use Rattle.bucket_core.specs.Rule.{IsRuleTotal};
ghost use Rattle.book_core.specs.Book.{Contents, inputs_on, most_inputs};
ghost use Rattle.book_core.specs.Counts.{counts_of};

use book_core::{Book, Page, counts};
use std::alloc::{AllocError, Global};
use std::thread::Threads;

/// Pages with their inputs, of which it can be told how many fall on each point.
pub trait Recorded {
    // The pages, each with its inputs.
    ghost contents: { Self → Contents };

    /// For each point below the total, the number of the page's inputs that fall on it: entry p counts those whose hash,
    /// scaled to the total, is p. A page that is not there has no inputs. Want of memory is its one fault.
    fn tally<R: Threads + Sync>(
        &self,
        rt: &R,
        alloc: Global,
        page: &Page,
        total: u32,
    ) -> Result<Vec<u32>, AllocError>
        requires { IsRuleTotal total }
        ensures counts { IfOk result (λ counts. counts.items ≡ counts_of (inputs_on (contents self.now) page.now) total) }
        ensures few { IfOk result (λ counts. length (inputs_on (contents self.now) page.now) ≤ most_inputs) };
}

impl Recorded for Book {
    ghost contents = { λ book. book };

    fn tally<R: Threads + Sync>(
        &self,
        _rt: &R,
        alloc: Global,
        page: &Page,
        total: u32,
    ) -> Result<Vec<u32>, AllocError> {
        let exposure = self.exposure(alloc, page)?;
        // Called for what its contract says: an exposure has at most 1,000,000 inputs.
        let _inputs = exposure.inputs();
        counts(alloc, &exposure, total)
    }
}
