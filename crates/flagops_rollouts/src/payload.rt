//! What the line of a refusal says beyond the name of its fault: numbers in decimal, names as JSON texts.
ghost use Rattle.std.specs.Prelude.{◌≡◌, IfOk, string_bytes};
ghost use Rattle.flagops_rollouts.specs.Payload.{check_items, pair_items, verify_items};

use flagops_files::{number_item, quoted, rollout_items};
use rollout::VerifyFault;
use std::alloc::{AllocError, Global};
use transport_core::CheckFault;

/// What `verify` says of an answer that is not right, each item behind a blank.
pub fn verify_items(alloc: Global, fault: &VerifyFault) -> Result<String, AllocError>
    ensures { IfOk result (λ s. string_bytes s ≡ verify_items fault.now) }
{
    match fault {
        VerifyFault::Request(fault) => rollout_items(alloc, fault),
        VerifyFault::Check(fault) => check_items(alloc, fault),
    }
}

/// The point, or the pair of a group and a name, at which a check fails.
fn check_items(alloc: Global, fault: &CheckFault) -> Result<String, AllocError>
    ensures { IfOk result (λ s. string_bytes s ≡ check_items fault.now) }
{
    match fault {
        CheckFault::Forbidden(point) => number_item(alloc, u64::from(*point)),
        CheckFault::Slack(name, count, variant) => {
            pair_items(alloc, name.as_str(), *count, variant.as_str())
        }
        _ => Ok(String::new(alloc)),
    }
}

fn pair_items(alloc: Global, name: &str, count: u32, other: &str) -> Result<String, AllocError>
    ensures { IfOk result (λ s. string_bytes s ≡ pair_items name.now count other.now) }
{
    let name = quoted(alloc, name)?;
    let other = quoted(alloc, other)?;
    format!(in alloc; " {name} {count} {other}")
}
