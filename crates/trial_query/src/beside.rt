//! Queries on a torus and in a box of the same size.

use crate::asking::{Told, started, tells};
use crate::giving::Given;
use nl_agents::{Owner, Store};
use nl_grid::Shape;
use nl_plain::Plain;
use nl_store::Indexed;
use std::alloc::Global;
use std::process::Abort;
use trial_stores::trial_model::{FOXES, OWLS, ROPES, WIRES};
use trial_stores::trials::{Scene, Step, Wanted};

// Five by four patches. Turtle 0 has the serial 2, is of no breed, faces north-east and stands on the patch in the upper right corner. Turtle
// 1 is a fox in the lower left corner, turtle 3 a fox two patches below the caller, turtle 4 an owl two and a half to its left. Turtle 2 has
// died, and link 0 with it. Places are in tenths here.
const CORNERS: &[Scene] = &[(
    &[
        Step::Bear(0, (0, 0), None, 0),
        Step::Bear(0, (0, 0), None, 1),
        Step::ClearTurtles,
        Step::Bear(0, (20, 20), None, 2),
        Step::Bear(FOXES, (-20, -10), None, 3),
        Step::Bear(FOXES, (0, 0), None, 4),
        Step::Bear(FOXES, (20, 0), None, 5),
        Step::Bear(OWLS, (-5, 20), None, 6),
        Step::Set(Owner::Turtle(2), "heading", 450, Wanted::Number(0)),
        Step::Tie(ROPES, false, 2, 4, 0),
        Step::Tie(ROPES, false, 2, 3, 1),
        Step::Tie(WIRES, true, 2, 5, 2),
        Step::Kill(4),
    ],
    &[],
)];

/// A word, perhaps of a breed, with its inputs, its answer on the torus, and that in the box.
pub(crate) type Beside = (u16, Option<u32>, &'static [Given], Told, Told);

fn assert_on<S: Store>(
    rt: &impl Abort,
    alloc: Global,
    wraps: bool,
    caller: Owner,
    rows: &[Beside],
) {
    let shape = Shape::new(-2, 2, -1, 2, wraps, wraps);
    let tried = started::<S>(rt, alloc, shape, CORNERS);
    for row in rows {
        let (code, breed, given, torus, walled) = *row;
        let told = if wraps { torus } else { walled };
        assert!(rt;
            tells(alloc, &tried, caller, (code, breed, given, told)),
            "{wraps:?} {row:?}"
        );
    }
}

/// Asks each store that there is all of this, on the torus and in the box.
pub(crate) fn assert_beside(rt: &impl Abort, alloc: Global, caller: Owner, rows: &[Beside]) {
    assert_on::<Plain>(rt, alloc, true, caller, rows);
    assert_on::<Plain>(rt, alloc, false, caller, rows);
    assert_on::<Indexed>(rt, alloc, true, caller, rows);
    assert_on::<Indexed>(rt, alloc, false, caller, rows);
}
