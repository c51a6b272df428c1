//! Faults of plans in words; their numbers and names are printed by the command `verify`.
use rollout::VerifyFault;
use std::alloc::{AllocError, Global};
use std::test::Fail;
use transport_core::{CheckFault, deficient_sets_fit_none, weak_duality};

/// Whether a fault of a plan reads so.
fn reads(alloc: Global, fault: CheckFault, want: &str) -> bool {
    let fault = VerifyFault::Check(fault);
    match format!(in alloc; "{fault}") {
        Ok(text) => text.as_str() == want,
        Err(AllocError) => false,
    }
}

/// The fault of a plan that prices red points without inputs above what it costs them to become blue.
fn slack(alloc: Global) -> Result<CheckFault, AllocError> {
    let old = String::from_str(alloc, "red")?;
    let new = String::from_str(alloc, "blue")?;
    Ok(CheckFault::Slack(old, 0, new))
}

#[test]
fn faults_in_words(rt: HostRuntime) -> Result<(), Fail> {
    let alloc = rt.alloc();
    assert!(rt;
        reads(
            alloc,
            CheckFault::Weight,
            "the rules differ in their totals"
        ) && reads(alloc, CheckFault::Totals, "a total is outside its limits")
            && reads(
                alloc,
                CheckFault::Forbidden(2),
                "the change of point 2 is forbidden"
            )
            && reads(alloc, CheckFault::Sum, "the prices do not sum to the cost")
            && reads(alloc, CheckFault::Cost, "the rule has another cost")
            && reads(
                alloc,
                CheckFault::NotDeficient,
                "the set of names is not deficient"
            )
            && reads(
                alloc,
                CheckFault::Groups,
                "the prices are not those of exactly the groups and names"
            )
    );
    let want = "the prices of red with 0 inputs and of blue sum above the cost of the change";
    assert!(rt; reads(alloc, slack(alloc)?, want));
    weak_duality();
    deficient_sets_fit_none();
    Ok(())
}
