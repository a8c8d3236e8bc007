//! Neighbors in worlds of one, two or three patches a side, where ways over the sides come back to the same patches.

use crate::asking::{ONE, Told, started, tells};
use crate::giving::Given;
use nl_agents::{Owner, Store};
use nl_grid::Shape;
use nl_plain::Plain;
use nl_store::Indexed;
use nl_words::codes;
use std::alloc::Global;
use std::process::Abort;
use trial_stores::naming::Named;

// The neighbors of the patch 0, those that are one step away on one axis, and all patches at most 1 away.
type Near = (&'static [u64], &'static [u64], &'static [u64]);

// The greatest coordinates, where the least are 0; what is near where the world goes on behind its sides, and where it doesn't.
type World = ((i32, i32), Near, Near);

const WORLDS: &[World] = &[
    ((0, 0), (&[], &[], &[0]), (&[], &[], &[0])),
    (
        (1, 1),
        (&[1, 2, 3], &[1, 2], &[0, 1, 2]),
        (&[1, 2, 3], &[1, 2], &[0, 1, 2]),
    ),
    (
        (0, 2),
        (&[1, 2], &[1, 2], &[0, 1, 2]),
        (&[1], &[1], &[0, 1]),
    ),
    (
        (2, 1),
        (&[1, 2, 3, 4, 5], &[1, 2, 3], &[0, 1, 2, 3]),
        (&[1, 3, 4], &[1, 3], &[0, 1, 3]),
    ),
];

const WITHIN_ONE: &[Given] = &[Given::Agent(Named::Patches), Given::Number(ONE)];

fn assert_in<S: Store>(
    rt: &impl Abort,
    alloc: Global,
    greatest: (i32, i32),
    wraps: bool,
    near: Near,
) {
    let shape = Shape::new(0, greatest.0, 0, greatest.1, wraps, wraps);
    let tried = started::<S>(rt, alloc, shape, &[]);
    let (all, straight, within) = near;
    let rows = [
        (codes::NEIGHBORS, None, &[] as &[Given], Told::Patches(all)),
        (codes::NEIGHBORS4, None, &[], Told::Patches(straight)),
        (codes::IN_RADIUS, None, WITHIN_ONE, Told::Patches(within)),
    ];
    for row in rows {
        assert!(rt;
            tells(alloc, &tried, Owner::Patch(0), row),
            "{greatest:?} {wraps:?} {row:?}"
        );
    }
}

#[test]
fn neighbors_are_named_once_in_narrow_worlds(rt: HostRuntime) {
    for (greatest, torus, walled) in WORLDS {
        assert_in::<Plain>(&rt, rt.alloc(), *greatest, true, *torus);
        assert_in::<Plain>(&rt, rt.alloc(), *greatest, false, *walled);
        assert_in::<Indexed>(&rt, rt.alloc(), *greatest, true, *torus);
        assert_in::<Indexed>(&rt, rt.alloc(), *greatest, false, *walled);
    }
}
