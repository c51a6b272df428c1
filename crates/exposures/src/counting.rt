//! How many inputs fall on each point.
ghost use Rattle.std.specs.Prelude.{◌≡◌, ◌≤◌, map, string_bytes, length, IfOk};
ghost use Rattle.bucket_core.specs.Rule.{IsRuleTotal};
ghost use Rattle.exposures.specs.Counts.{counts_of};
ghost use Rattle.exposures.specs.Exposure.{most_inputs};

use crate::exposure::Exposure;
use bucket_core::point;
use std::alloc::{AllocError, Global};

/// For each point below the total, the number of inputs that fall on it: entry p counts those whose hash, scaled to
/// the total, is p. Want of memory is its one fault. Cost: O(total + bytes of the inputs).
pub fn counts(alloc: Global, exposure: &Exposure, total: u32) -> Result<Vec<u32>, AllocError>
    requires { IsRuleTotal total }
    ensures { IfOk result (λ counts. counts.items ≡ counts_of exposure.now total) }
{
    count_points(alloc, exposure.inputs(), total)
}

fn count_points(alloc: Global, inputs: &[String], total: u32) -> Result<Vec<u32>, AllocError>
    requires total { IsRuleTotal total }
    requires few { length inputs.now ≤ most_inputs }
    ensures { IfOk result (λ counts. counts.items ≡ counts_of (map string_bytes inputs.now) total) }
{
    let mut counts = vec![in alloc; 0u32; total as usize]?;
    for input in inputs {
        counts[point(total, input.as_str()) as usize] += 1;
    }
    Ok(counts)
}
