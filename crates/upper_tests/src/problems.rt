//! What the checks and the planner's instance say of a problem where no plan file can ask it.
use crate::posed::{Problem, instance, names, posed};
use std::alloc::{AllocError, Global};
use std::test::Fail;
use transport_core::{Assignment, AssignmentRow, CheckFault, Cut, CutKind, check_cut};

/// Red 3, blue 1, green 6, where red may not become green.
const GREEN_6: &[u8] =
    br#"{"plan":1,"flag":"color","totals":{"red":3,"blue":1,"green":6},"forbid":[["red","green"]]}"#;

/// Whether a set of names is refused as no reason that no rule fits.
fn is_not_deficient(alloc: Global, posed: &Problem, set: &str) -> bool {
    match names(alloc, set) {
        Ok(names) => {
            let cut = Cut {
                kind: CutKind::Over,
                names,
            };
            let prices = posed.request.prices();
            let fault = check_cut(alloc, &posed.old, &posed.totals, prices, &cut).err();
            fault == Some(CheckFault::NotDeficient)
        }
        Err(AllocError) => false,
    }
}

/// A plan file has each name once. Here a name that stands twice counts once.
#[test]
fn a_name_that_stands_twice(rt: HostRuntime) {
    assert!(rt;
        match posed(rt.alloc(), GREEN_6) {
            Some(posed) => is_not_deficient(rt.alloc(), &posed, "blue blue"),
            None => false,
        }
    );
}

/// Red 1, blue 5, green 4, where red may not become green.
const GREEN_4: &[u8] =
    br#"{"plan":1,"flag":"color","totals":{"red":1,"blue":5,"green":4},"forbid":[["red","green"]]}"#;

/// What costs 3, by the groups blue with 0, 1 and 2 inputs and red with 0, 1 and 2, each with its points for blue, green and
/// red: all red points but the one with two inputs become blue, and the blue ones with at most one input green.
const CHEAPEST: &[u32] = &[0, 3, 0, 0, 1, 0, 1, 0, 0, 2, 0, 0, 2, 0, 0, 0, 0, 1];

/// Whether the row of the blue points without inputs that become green is the second of 18, with three points.
fn is_green(rows: &[AssignmentRow<'_>]) -> bool {
    match rows {
        [_, row, ..] => {
            rows.len() == 18
                && row.name == "blue"
                && row.count == 0
                && row.variant == "green"
                && row.points == 3
        }
        _ => false,
    }
}

/// Whether the rows of an assignment name the three blue points that become green.
fn has_rows(alloc: Global, posed: &Problem, spread: &Assignment) -> bool {
    match instance(alloc, posed) {
        Ok(instance) => match spread.rows(alloc, &instance) {
            Ok(rows) => is_green(rows.as_slice()),
            Err(_) => false,
        },
        Err(_) => false,
    }
}

#[test]
fn rows_of_an_assignment(rt: HostRuntime) -> Result<(), Fail> {
    let numbers = Vec::from_slice(rt.alloc(), CHEAPEST)?;
    let spread = Assignment { numbers };
    assert!(rt;
        match posed(rt.alloc(), GREEN_4) {
            Some(posed) => has_rows(rt.alloc(), &posed, &spread),
            None => false,
        }
    );
    Ok(())
}
