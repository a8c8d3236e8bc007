//! What chains hold after births, moves and deaths, by the rules of chains: a chain of births is in order of serial, and those of a patch and
//! of a breed have the agents in the order in which they came.
use crate::filing::Filing;
use nl_fixed::Num;
use nl_grid::{Point, Shape};
use nl_index::Chain;
use nl_store_records::Body;
use std::alloc::Global;
use std::test::Fail;

/// A world of patches in a row, the first at the coordinate 0.
fn row_of(patches: i32) -> Result<Shape, &'static str> {
    Shape::new(0, patches.saturating_sub(1), 0, 0, false, false).ok_or("no shape")
}

/// The center of the patch at these coordinates.
fn point(x: i64, y: i64) -> Result<Point, &'static str> {
    let x = Num::whole(x).ok_or("out of range")?;
    let y = Num::whole(y).ok_or("out of range")?;
    Ok(Point { x, y })
}

/// A new turtle at a coordinate of the row.
fn turtle(alloc: Global, filing: &mut Filing, at: i64, breed: u32) -> Result<usize, &'static str> {
    let at = point(at, 0)?;
    filing
        .bear(alloc, Body::Turtle(at), breed)
        .ok_or("not filed")
}

/// Six turtles by turns on two patches, the first three of breed 0 and the others of breed 1.
fn six(alloc: Global) -> Result<(Filing, [usize; 6]), &'static str> {
    let mut filing = Filing::new(alloc, row_of(2)?, 2).map_err(|_| "no memory")?;
    let keys = [
        turtle(alloc, &mut filing, 0, 0)?,
        turtle(alloc, &mut filing, 1, 0)?,
        turtle(alloc, &mut filing, 0, 0)?,
        turtle(alloc, &mut filing, 1, 1)?,
        turtle(alloc, &mut filing, 0, 1)?,
        turtle(alloc, &mut filing, 1, 1)?,
    ];
    Ok((filing, keys))
}

/// Whether the chains hold these serials in this order: all turtles, those on the two patches, and those of the two breeds.
fn holds(alloc: Global, filing: &Filing, lists: [&[u64]; 5]) -> bool {
    is(alloc, filing, Chain::Turtles, lists[0])
        && is(alloc, filing, Chain::Patch(0), lists[1])
        && is(alloc, filing, Chain::Patch(1), lists[2])
        && is(alloc, filing, Chain::Breed(0), lists[3])
        && is(alloc, filing, Chain::Breed(1), lists[4])
}

/// Whether a chain holds these serials in this order.
fn is(alloc: Global, filing: &Filing, chain: Chain, serials: &[u64]) -> bool {
    match filing.serials(alloc, chain) {
        Some(found) => found.as_slice() == serials,
        None => false,
    }
}

/// Whether the chains hold these lists when one of the six is gone.
fn holds_without(alloc: Global, gone: usize, lists: [&[u64]; 5]) -> Result<bool, &'static str> {
    let (mut filing, keys) = six(alloc)?;
    let key = *keys.get(gone).ok_or("no such turtle")?;
    Ok(filing.remove(key) && holds(alloc, &filing, lists))
}

#[test]
fn a_turtle_that_is_taken_out_leaves_the_others_in_order(rt: HostRuntime) -> Result<(), Fail> {
    let alloc = rt.alloc();
    let (filing, _) = six(alloc)?;
    assert!(rt;
        holds(
            alloc,
            &filing,
            [
                &[0, 1, 2, 3, 4, 5],
                &[0, 2, 4],
                &[1, 3, 5],
                &[0, 1, 2],
                &[3, 4, 5]
            ]
        )
    );
    assert!(rt;
        holds_without(
            alloc,
            0,
            [&[1, 2, 3, 4, 5], &[2, 4], &[1, 3, 5], &[1, 2], &[3, 4, 5]]
        )?
    );
    assert!(rt;
        holds_without(
            alloc,
            2,
            [&[0, 1, 3, 4, 5], &[0, 4], &[1, 3, 5], &[0, 1], &[3, 4, 5]]
        )?
    );
    assert!(rt;
        holds_without(
            alloc,
            4,
            [&[0, 1, 2, 3, 5], &[0, 2], &[1, 3, 5], &[0, 1, 2], &[3, 5]]
        )?
    );
    assert!(rt;
        holds_without(
            alloc,
            5,
            [&[0, 1, 2, 3, 4], &[0, 2, 4], &[1, 3], &[0, 1, 2], &[3, 4]]
        )?
    );
    Ok(())
}

/// Whether the chains are empty when all six were taken out, and hold a seventh that comes then.
fn all_go(alloc: Global) -> Result<bool, &'static str> {
    let (mut filing, keys) = six(alloc)?;
    for key in keys {
        if !filing.remove(key) {
            return Ok(false);
        }
    }
    let are_empty = holds(alloc, &filing, [&[], &[], &[], &[], &[]]);
    turtle(alloc, &mut filing, 1, 1)?;
    Ok(are_empty && holds(alloc, &filing, [&[6], &[], &[6], &[], &[6]]))
}

#[test]
fn chains_are_empty_when_all_are_gone(rt: HostRuntime) -> Result<(), Fail> {
    assert!(rt; all_go(rt.alloc())?);
    Ok(())
}

/// Whether the chains hold these lists when one of the six has moved.
fn holds_moved(
    alloc: Global,
    moved: usize,
    to: i64,
    breed: u32,
    lists: [&[u64]; 5],
) -> Result<bool, &'static str> {
    let (mut filing, keys) = six(alloc)?;
    let key = *keys.get(moved).ok_or("no such turtle")?;
    let to = point(to, 0)?;
    Ok(filing.refile(key, to, breed) && holds(alloc, &filing, lists))
}

#[test]
fn a_turtle_that_moves_is_the_last_of_its_patch_and_breed(rt: HostRuntime) -> Result<(), Fail> {
    let alloc = rt.alloc();
    let all: &[u64] = &[0, 1, 2, 3, 4, 5];
    // to the same patch and breed
    assert!(rt;
        holds_moved(
            alloc,
            0,
            0,
            0,
            [all, &[2, 4, 0], &[1, 3, 5], &[1, 2, 0], &[3, 4, 5]]
        )?
    );
    // to another patch
    assert!(rt;
        holds_moved(
            alloc,
            2,
            1,
            0,
            [all, &[0, 4], &[1, 3, 5, 2], &[0, 1, 2], &[3, 4, 5]]
        )?
    );
    // to another breed
    assert!(rt;
        holds_moved(
            alloc,
            4,
            0,
            0,
            [all, &[0, 2, 4], &[1, 3, 5], &[0, 1, 2, 4], &[3, 5]]
        )?
    );
    // to both
    assert!(rt;
        holds_moved(
            alloc,
            5,
            0,
            0,
            [all, &[0, 2, 4, 5], &[1, 3], &[0, 1, 2, 5], &[3, 4]]
        )?
    );
    Ok(())
}

/// The chains of two links and a turtle: of all links, of all turtles, and of breed 0.
fn with_links(alloc: Global) -> Result<bool, &'static str> {
    let mut filing = Filing::new(alloc, row_of(1)?, 1).map_err(|_| "no memory")?;
    let link = Body::Link {
        directed: false,
        end1: 0,
        end2: 1,
    };
    filing.bear(alloc, link, 0).ok_or("not filed")?;
    turtle(alloc, &mut filing, 0, 0)?;
    let link = Body::Link {
        directed: true,
        end1: 1,
        end2: 0,
    };
    filing.bear(alloc, link, 7).ok_or("not filed")?;
    Ok(
        is(alloc, &filing, Chain::Links, &[0, 2])
            && is(alloc, &filing, Chain::Turtles, &[1])
            && is(alloc, &filing, Chain::Breed(0), &[1]),
    )
}

#[test]
fn links_are_in_a_chain_of_their_own(rt: HostRuntime) -> Result<(), Fail> {
    assert!(rt; with_links(rt.alloc())?);
    Ok(())
}

/// Whether a turtle on the last patch, at these coordinates, and of the last breed is in the last chains alone.
fn is_in_the_last(
    alloc: Global,
    shape: Shape,
    breeds: u32,
    x: i64,
    y: i64,
) -> Result<bool, &'static str> {
    let patches = shape.patches();
    let mut filing = Filing::new(alloc, shape, breeds).map_err(|_| "no memory")?;
    let last = breeds.saturating_sub(1);
    let at = point(x, y)?;
    let key = filing
        .bear(alloc, Body::Turtle(at), last)
        .ok_or("not filed")?;
    let is_there = is(
        alloc,
        &filing,
        Chain::Patch(patches.saturating_sub(1)),
        &[0],
    ) && is(alloc, &filing, Chain::Breed(last), &[0]);
    Ok(is_there && filing.remove(key) && is(alloc, &filing, Chain::Breed(last), &[]))
}

#[test]
fn worlds_of_one_and_of_most_patches_have_their_chains(rt: HostRuntime) -> Result<(), Fail> {
    let alloc = rt.alloc();
    assert!(rt; is_in_the_last(alloc, row_of(1)?, 1, 0, 0)?);
    let wide = Shape::new(0, 511, -511, 0, false, false).ok_or("no shape")?;
    assert!(rt; is_in_the_last(alloc, wide, 50, 511, -511)?);
    Ok(())
}

/// Whether so many turtles can come, move and go.
fn come_move_and_go(alloc: Global, number: u64) -> Result<bool, &'static str> {
    let mut filing = Filing::new(alloc, row_of(2)?, 2).map_err(|_| "no memory")?;
    let mut keys = Vec::new(alloc);
    for _ in 0..number {
        keys.push(turtle(alloc, &mut filing, 0, 0)?)
            .map_err(|_| "no memory")?;
    }
    let to = point(1, 0)?;
    for key in &keys {
        if !filing.refile(*key, to, 1) {
            return Ok(false);
        }
    }
    for key in &keys {
        if !filing.remove(*key) {
            return Ok(false);
        }
    }
    Ok(holds(alloc, &filing, [&[], &[], &[], &[], &[]]))
}

#[test]
fn as_many_turtles_as_may_live_come_move_and_go_at_once(rt: HostRuntime) -> Result<(), Fail> {
    assert!(rt; come_move_and_go(rt.alloc(), 200_000)?);
    Ok(())
}
