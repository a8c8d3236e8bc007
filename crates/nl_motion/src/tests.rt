//! Rows of diffusion and of the best of some numbers, worked out by hand.
use crate::climbing::{is_best, surpasses};
use crate::diffusion::{diffused, is_part};
use crate::faults::MoveFault;
use nl_fixed::Num;
use nl_grid::Shape;
use std::alloc::Global;
use std::process::Abort;
use std::test::Fail;

/// What the patches have after they gave a part, in millionths, or why they give nothing.
fn gave(
    rt: &impl Abort,
    alloc: Global,
    shape: &Shape,
    field: &[i64],
    part: i64,
    four: bool,
) -> Result<Vec<i64>, MoveFault> {
    assert!(rt; field.len() == shape.patches() as usize);
    assert!(rt; is_part(part));
    let counts = diffused(alloc, shape, field, part, four)?;
    let mut found = Vec::new(alloc);
    for count in &counts {
        found.push(count.millionths())?;
    }
    Ok(found)
}

/// These counts become those.
fn becomes(
    rt: &impl Abort,
    alloc: Global,
    shape: &Shape,
    field: &[i64],
    part: i64,
    four: bool,
    expected: &[i64],
) -> Result<(), &'static str> {
    let found = gave(rt, alloc, shape, field, part, four).map_err(|_| "refused")?;
    assert_eq!(rt; found.as_slice(), expected);
    Ok(())
}

#[test]
fn patches_give_to_their_neighbors(rt: HostRuntime) -> Result<(), Fail> {
    let alloc = rt.alloc();
    let walls = Shape::new(-1, 1, -1, 1, false, false).ok_or("refused")?;
    let one = 1_000_000;
    let hill = [0, 0, 0, 0, 8_000_000, 0, 0, 0, 0];
    let around = [one, one, one, one, 0, one, one, one, one];
    let straight = [0, 2 * one, 0, 2 * one, 0, 2 * one, 0, 2 * one, 0];
    becomes(&rt, alloc, &walls, &hill, one, false, &around)?;
    becomes(&rt, alloc, &walls, &hill, one, true, &straight)?;
    becomes(&rt, alloc, &walls, &hill, 0, false, &hill)?;
    let small = Shape::new(0, 1, 0, 1, false, false).ok_or("refused")?;
    becomes(&rt, alloc, &small, &[one; 4], one, false, &[one; 4])?;
    Ok(())
}

#[test]
fn narrow_worlds_have_few_neighbors(rt: HostRuntime) -> Result<(), Fail> {
    let alloc = rt.alloc();
    let one = 1_000_000;
    let single = Shape::new(0, 0, 0, 0, true, true).ok_or("refused")?;
    becomes(&rt, alloc, &single, &[8], one, false, &[8])?;
    let pair = Shape::new(0, 1, 0, 0, false, false).ok_or("refused")?;
    becomes(&rt, alloc, &pair, &[10, 0], one, false, &[9, 1])?;
    becomes(&rt, alloc, &pair, &[-10, 0], one, false, &[-8, -2])?;
    becomes(&rt, alloc, &pair, &[16, 0], 500_000, false, &[15, 1])?;
    let ring = Shape::new(0, 1, 0, 0, true, true).ok_or("refused")?;
    becomes(&rt, alloc, &ring, &[10, 0], one, true, &[8, 2])?;
    Ok(())
}

// The middle has the greatest count but one: of a share of it seven are cut off, which it keeps, and gets eight whole shares.
#[test]
fn a_count_out_of_range_is_refused(rt: HostRuntime) -> Result<(), Fail> {
    let walls = Shape::new(-1, 1, -1, 1, false, false).ok_or("refused")?;
    let most = 9_000_000_000_000_000_000;
    let field = [most, most, most, most, most - 1, most, most, most, most];
    let found = gave(&rt, rt.alloc(), &walls, &field, 1_000_000, false);
    assert!(rt; matches!(found, Err(MoveFault::Overflow)));
    Ok(())
}

fn number(count: i64) -> Option<Num> {
    Num::new(count)
}

#[test]
fn the_best_is_a_number_that_none_surpasses(rt: HostRuntime) {
    assert!(rt; surpasses(true, number(2), number(-1)));
    assert!(rt; surpasses(false, number(-1), number(2)));
    assert!(rt; !surpasses(true, number(2), number(2)));
    assert!(rt; !surpasses(true, number(2), None));
    assert!(rt; !surpasses(true, None, number(-1)));
    let numbers = [number(-1), None, number(2), number(2)];
    assert!(rt; is_best(true, &numbers, number(2)));
    assert!(rt; !is_best(true, &numbers, number(-1)));
    assert!(rt; !is_best(true, &numbers, None));
    assert!(rt; is_best(false, &numbers, number(-1)));
}
