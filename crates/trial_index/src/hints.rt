//! Hints of where entries stand.

use nl_fixed::NoMemory;
use nl_links::guesses::Hints;
use std::alloc::Global;
use std::test::Fail;

/// More entries than turtles or links may live.
const MANY: usize = 500_000;

/// The hints of many serials from 1,000 on, whose entries stand in their order.
fn put_in_order(alloc: Global) -> Result<Hints, NoMemory> {
    let mut hints = Hints::new(alloc);
    for index in 0..MANY {
        hints.room(alloc, index + 1)?;
        hints.put((1_000 + index) as u64, index);
    }
    Ok(hints)
}

/// Whether each of these serials has the hint that was put for it.
fn are_right(hints: &Hints) -> bool {
    for index in 0..MANY {
        if hints.of((1_000 + index) as u64) != index {
            return false;
        }
    }
    true
}

#[test]
fn serials_in_order_have_the_hints_that_were_put_for_them(rt: HostRuntime) -> Result<(), Fail> {
    let hints = put_in_order(rt.alloc())?;
    assert!(rt; are_right(&hints));
    Ok(())
}

#[test]
fn without_room_each_serial_is_told_the_first_entry(rt: HostRuntime) {
    let mut hints = Hints::new(rt.alloc());
    hints.put(7, 3);
    assert_eq!(rt; hints.of(7), 0);
}

#[test]
fn serials_that_share_a_place_have_one_hint_until_more_are_kept(
    rt: HostRuntime,
) -> Result<(), Fail> {
    let mut hints = Hints::new(rt.alloc());
    hints.room(rt.alloc(), 1)?;
    hints.put(1, 5);
    hints.put(65, 9);
    assert_eq!(rt; (hints.of(1), hints.of(65), hints.of(2)), (9, 9, 0));
    hints.room(rt.alloc(), 65)?;
    assert_eq!(rt; (hints.of(1), hints.of(65), hints.of(2)), (9, 9, 0));
    hints.put(65, 7);
    assert_eq!(rt; (hints.of(1), hints.of(65), hints.of(2)), (9, 7, 0));
    Ok(())
}

#[test]
fn an_index_past_32_bits_is_no_hint(rt: HostRuntime) -> Result<(), Fail> {
    let mut hints = Hints::new(rt.alloc());
    hints.room(rt.alloc(), 1)?;
    hints.put(3, 4_294_967_295);
    hints.put(3, 4_294_967_296);
    assert_eq!(rt; hints.of(3), 4_294_967_295);
    Ok(())
}
