//! What a change to a rule of another total costs, and the fault that no command tells by its number.
use crate::posed::{Problem, posed, rule_of};
use price_core::{PriceFault, switch_cost};
use std::alloc::Global;
use std::thread::Threads;

/// No totals, and a price of 3.
const PRICED: &[u8] = br#"{"plan":1,"flag":"color","totals":{},"price":3}"#;

/// Whether the change to red alone costs the inputs this much.
fn is_priced(rt: &(impl Threads + Sync), alloc: Global, posed: &Problem, want: u64) -> bool {
    let prices = posed.request.prices();
    match rule_of(alloc, r#"[["red",1]]"#) {
        Some(new) => switch_cost(rt, alloc, &posed.old, &new, &posed.inputs, prices) == Ok(want),
        None => false,
    }
}

// The inputs on the points 6, 7 and 7 were blue.
#[test]
fn rules_of_two_totals(rt: HostRuntime) {
    let fault = PriceFault::UnknownVariant;
    assert!(rt;
        fault.number() == 2
            && fault.name() == "UnknownVariant"
            && match posed(rt.alloc(), PRICED) {
                Some(posed) => is_priced(&rt, rt.alloc(), &posed, 9),
                None => false,
            }
    );
}
