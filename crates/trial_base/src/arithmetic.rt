//! The operations on numbers, by rows of counts that were worked out apart from the program.

use nl_fixed::arithmetic::rounded_quotient;
use nl_fixed::number::{Num, NumFault};
use nl_fixed::powers::whole_root;
use std::test::Fail;

/// The operations on two numbers.
#[derive(Clone, Copy, Debug)]
enum Operation {
    Add,
    Sub,
    Mul,
    Div,
    Modulo,
    Remainder,
    Pow,
    Precision,
}

use Operation::{Add, Div, Modulo, Mul, Pow, Precision, Remainder, Sub};

/// What an operation is to give: a count of millionths, or a fault.
type Wanted = Result<i64, NumFault>;

const OVERFLOW: Wanted = Err(NumFault::Overflow);

const ZERO_DIVIDE: Wanted = Err(NumFault::ZeroDivide);

const DOMAIN: Wanted = Err(NumFault::Domain);

/// What the operation gives.
fn apply(operation: Operation, left: Num, right: Num) -> Result<Num, NumFault> {
    match operation {
        Add => left.add(right),
        Sub => left.sub(right),
        Mul => left.mul(right),
        Div => left.div(right),
        Modulo => left.modulo(right),
        Remainder => left.remainder(right),
        Pow => left.pow(right),
        Precision => left.precision(right),
    }
}

/// The count or the fault of an answer.
fn count_of(answer: Result<Num, NumFault>) -> Result<i64, NumFault> {
    match answer {
        Ok(number) => Ok(number.millionths()),
        Err(fault) => Err(fault),
    }
}

const OPERATIONS: &[(Operation, i64, i64, Wanted)] = &[
    (
        Add,
        9_000_000_000_000_000_000,
        0,
        Ok(9_000_000_000_000_000_000),
    ),
    (Add, 9_000_000_000_000_000_000, 1, OVERFLOW),
    (Add, -9_000_000_000_000_000_000, -1, OVERFLOW),
    (
        Sub,
        -9_000_000_000_000_000_000,
        0,
        Ok(-9_000_000_000_000_000_000),
    ),
    (Sub, -9_000_000_000_000_000_000, 1, OVERFLOW),
    (Sub, 9_000_000_000_000_000_000, -1, OVERFLOW),
    (Mul, 1_500_000, 1, Ok(2)),
    (Mul, -1_500_000, 1, Ok(-1)),
    (Mul, 500_000, 1, Ok(1)),
    (Mul, -500_000, 1, Ok(0)),
    (Mul, -500_001, 1, Ok(-1)),
    (
        Mul,
        3_000_000_000_000,
        3_000_000_000_000,
        Ok(9_000_000_000_000_000_000),
    ),
    (Mul, 3_000_000_000_000, 3_000_000_000_001, OVERFLOW),
    (
        Mul,
        -3_000_000_000_000,
        3_000_000_000_000,
        Ok(-9_000_000_000_000_000_000),
    ),
    (Mul, -3_000_000_000_000, 3_000_000_000_001, OVERFLOW),
    (Div, 1_000_000, 3_000_000, Ok(333_333)),
    (Div, -1_000_000, 3_000_000, Ok(-333_333)),
    (Div, 1, 2_000_000, Ok(1)),
    (Div, -1, 2_000_000, Ok(0)),
    (Div, 1, -2_000_000, Ok(0)),
    (Div, -1, -2_000_000, Ok(1)),
    (Div, 0, 0, ZERO_DIVIDE),
    (
        Div,
        9_000_000_000_000_000_000,
        1_000_000,
        Ok(9_000_000_000_000_000_000),
    ),
    (Div, 9_000_000_000_000_000_000, 999_999, OVERFLOW),
    (Div, -9_000_000_000_000_000_000, -999_999, OVERFLOW),
    (
        Div,
        9_000_000_000_000_000_000,
        -1_000_000,
        Ok(-9_000_000_000_000_000_000),
    ),
    (Modulo, -7_000_000, 3_000_000, Ok(2_000_000)),
    (Modulo, 7_000_000, -3_000_000, Ok(-2_000_000)),
    (Modulo, -6_000_000, 3_000_000, Ok(0)),
    (Modulo, 0, -3_000_000, Ok(0)),
    (Modulo, 5_500_000, 1_000_000, Ok(500_000)),
    (
        Modulo,
        -9_000_000_000_000_000_000,
        8_999_999_999_999_999_999,
        Ok(8_999_999_999_999_999_998),
    ),
    (Modulo, 1_000_000, 0, ZERO_DIVIDE),
    (Remainder, -7_000_000, 3_000_000, Ok(-1_000_000)),
    (Remainder, 7_000_000, -3_000_000, Ok(1_000_000)),
    (Remainder, -7_000_000, -3_000_000, Ok(-1_000_000)),
    (Remainder, -6_000_000, 3_000_000, Ok(0)),
    (Remainder, 1_000_000, 0, ZERO_DIVIDE),
    (Pow, 2_000_000, -2_000_000, Ok(250_000)),
    (Pow, 0, -1_000_000, ZERO_DIVIDE),
    (Pow, 2_000_000, 500_000, DOMAIN),
    (Pow, 0, 0, Ok(1_000_000)),
    (Pow, 0, 500_000, DOMAIN),
    (Pow, 1_000_001, 2_000_000, Ok(1_000_002)),
    (Pow, 1_500_001, 3_000_000, Ok(3_375_007)),
    (Pow, -2_000_000, 3_000_000, Ok(-8_000_000)),
    (Pow, 2_000_000, 43_000_000, Ok(8_796_093_022_208_000_000)),
    (Pow, 2_000_000, 44_000_000, OVERFLOW),
    (Pow, 2_000_000, -44_000_000, OVERFLOW),
    (Pow, -1_000_000, 1_000_000_000, Ok(1_000_000)),
    (Pow, -1_000_000, 1_001_000_000, DOMAIN),
    (Pow, 1_000_000, -1_001_000_000, DOMAIN),
    (Pow, 500_000, -30_000_000, Ok(1_000_000_000_000)),
    (Pow, 1_000, -3_000_000, ZERO_DIVIDE),
    (Precision, 2_675_000, 2_000_000, Ok(2_680_000)),
    (
        Precision,
        9_000_000_000_000_000_000,
        -12_000_000,
        Ok(9_000_000_000_000_000_000),
    ),
    (Precision, 9_000_000_000_000_000_000, -13_000_000, DOMAIN),
    (
        Precision,
        9_000_000_000_000_000_000,
        -12_999_999,
        Ok(9_000_000_000_000_000_000),
    ),
    (
        Precision,
        500_000_000_000_000_000,
        -12_000_000,
        Ok(1_000_000_000_000_000_000),
    ),
    (Precision, -500_000_000_000_000_000, -12_000_000, Ok(0)),
    (
        Precision,
        -500_001_000_000_000_000,
        -12_000_000,
        Ok(-1_000_000_000_000_000_000),
    ),
    (Precision, 1_234_565, 5_000_000, Ok(1_234_570)),
    (Precision, -1_234_565, 5_000_000, Ok(-1_234_560)),
    (Precision, -1_234_566, 5_000_000, Ok(-1_234_570)),
    (Precision, 1_234_565, 6_000_000, Ok(1_234_565)),
    (Precision, 1_234_565, 7_000_000, Ok(1_234_565)),
    (Precision, 1_234_565, 5_999_999, Ok(1_234_570)),
    (Precision, -1_500_000, -999_999, Ok(-1_000_000)),
];

/// Whether the operation on these counts gives this.
fn comes_to(operation: Operation, left: i64, right: i64, wanted: Wanted) -> bool {
    match (Num::new(left), Num::new(right)) {
        (Some(first), Some(second)) => count_of(apply(operation, first, second)) == wanted,
        _ => false,
    }
}

#[test]
fn operations_give_these_counts_and_faults(rt: HostRuntime) {
    for &(operation, left, right, wanted) in OPERATIONS {
        assert!(rt;
            comes_to(operation, left, right, wanted),
            "at {operation:?} {left} {right}"
        );
    }
}

// The count, and its nearest whole number, floor, ceiling and cut.
const ROUNDINGS: &[(i64, i64, i64, i64, i64)] = &[
    (-2_500_000, -2_000_000, -3_000_000, -2_000_000, -2_000_000),
    (2_500_000, 3_000_000, 2_000_000, 3_000_000, 2_000_000),
    (-2_500_001, -3_000_000, -3_000_000, -2_000_000, -2_000_000),
    (-2_499_999, -2_000_000, -3_000_000, -2_000_000, -2_000_000),
    (499_999, 0, 0, 1_000_000, 0),
    (-500_000, 0, -1_000_000, 0, 0),
    (-1, 0, -1_000_000, 0, 0),
    (1, 0, 0, 1_000_000, 0),
    (
        9_000_000_000_000_000_000,
        9_000_000_000_000_000_000,
        9_000_000_000_000_000_000,
        9_000_000_000_000_000_000,
        9_000_000_000_000_000_000,
    ),
    (
        -9_000_000_000_000_000_000,
        -9_000_000_000_000_000_000,
        -9_000_000_000_000_000_000,
        -9_000_000_000_000_000_000,
        -9_000_000_000_000_000_000,
    ),
];

/// Whether the number of so many millionths has this nearest whole number, floor, ceiling and cut.
fn is_rounded(count: i64, nearest: i64, floor: i64, ceiling: i64, cut: i64) -> bool {
    match Num::new(count) {
        Some(number) => {
            number.round().millionths() == nearest
                && number.floor().millionths() == floor
                && number.ceiling().millionths() == ceiling
                && number.int().millionths() == cut
        }
        None => false,
    }
}

#[test]
fn roundings_take_a_half_upwards_and_stay_in_range(rt: HostRuntime) {
    for &(count, nearest, floor, ceiling, cut) in ROUNDINGS {
        assert!(rt; is_rounded(count, nearest, floor, ceiling, cut), "{count}");
    }
}

const ROOTS: &[(i64, Wanted)] = &[
    (0, Ok(0)),
    (1, Ok(1_000)),
    (-1, Err(NumFault::Domain)),
    (2_000_000, Ok(1_414_213)),
    (4_000_000, Ok(2_000_000)),
    (250_000, Ok(500_000)),
    (9_000_000_000_000_000_000, Ok(3_000_000_000_000)),
];

/// Whether the root of the number of so many millionths is this.
fn has_root(count: i64, wanted: Wanted) -> bool {
    match Num::new(count) {
        Some(number) => count_of(number.sqrt()) == wanted,
        None => false,
    }
}

// Integers, and their whole roots.
const WHOLE_ROOTS: &[(u128, u64)] = &[
    (0, 0),
    (99, 9),
    (
        1_000_000_000_000_000_000_000_000_000_000,
        1_000_000_000_000_000,
    ),
    (999_999_999_999_999_999_999_999_999_999, 999_999_999_999_999),
];

#[test]
fn roots_are_cut_to_millionths(rt: HostRuntime) {
    for &(count, wanted) in ROOTS {
        assert!(rt; has_root(count, wanted), "root of {count}");
    }
    for &(integer, wanted) in WHOLE_ROOTS {
        assert!(rt; whole_root(integer) == wanted, "root of {integer}");
    }
}

/// Whether no number lies beyond the range.
fn none_is_beyond() -> bool {
    Num::new(9_000_000_000_000_000_001).is_none()
        && Num::new(-9_000_000_000_000_000_001).is_none()
        && Num::whole(9_000_000_000_001).is_none()
        && Num::whole(-9_000_000_000_001).is_none()
        && Num::whole(i64::MIN).is_none()
}

/// Whether these are the greatest and the least number.
fn are_ends(greatest: Num, least: Num) -> bool {
    greatest.millionths() == 9_000_000_000_000_000_000
        && least.millionths() == -9_000_000_000_000_000_000
        && least < greatest
        && greatest.negate() == least
        && least.abs() == greatest
}

#[test]
fn numbers_end_at_the_range(rt: HostRuntime) -> Result<(), Fail> {
    assert!(rt; none_is_beyond());
    let greatest = Num::whole(9_000_000_000_000).ok_or("the greatest number")?;
    let least = Num::whole(-9_000_000_000_000).ok_or("the least number")?;
    assert!(rt; are_ends(greatest, least));
    Ok(())
}

const INTEGERS: &[(i128, Wanted)] = &[
    (0, Ok(0)),
    (-7, Ok(-7_000_000)),
    (9_000_000_000_000, Ok(9_000_000_000_000_000_000)),
    (-9_000_000_000_000, Ok(-9_000_000_000_000_000_000)),
    (9_000_000_000_001, OVERFLOW),
    (-9_000_000_000_001, OVERFLOW),
    (18_446_744_073_709_551_615, OVERFLOW),
    (-9_223_372_036_854_775_808, OVERFLOW),
    (i128::MAX, OVERFLOW),
    (i128::MIN, OVERFLOW),
];

#[test]
fn integers_are_numbers_up_to_the_range(rt: HostRuntime) {
    for &(integer, wanted) in INTEGERS {
        assert!(rt; count_of(Num::from_integer(integer)) == wanted, "{integer}");
    }
}

// The count, its whole part, and whether it is whole.
const WHOLE_PARTS: &[(i64, i64, bool)] = &[
    (0, 0, true),
    (1, 0, false),
    (-1, 0, false),
    (999_999, 0, false),
    (-999_999, 0, false),
    (2_500_000, 2, false),
    (-2_500_000, -2, false),
    (-3_000_000, -3, true),
    (9_000_000_000_000_000_000, 9_000_000_000_000, true),
    (-8_999_999_999_999_999_999, -8_999_999_999_999, false),
];

/// Whether the number of so many millionths has this whole part, and whether it is whole, as is told.
fn has_whole_part(count: i64, part: i64, whole: bool) -> bool {
    match Num::new(count) {
        Some(number) => number.whole_part() == part && number.is_whole() == whole,
        None => false,
    }
}

#[test]
fn whole_parts_are_cut_toward_zero(rt: HostRuntime) {
    for &(count, part, whole) in WHOLE_PARTS {
        assert!(rt; has_whole_part(count, part, whole), "{count}");
    }
}

/// Whether a half is rounded upwards, above zero and below it.
fn halves_go_upwards() -> bool {
    rounded_quotient(5, 2) == 3
        && rounded_quotient(-5, 2) == -2
        && rounded_quotient(1, 2) == 1
        && rounded_quotient(-1, 2) == 0
}

/// Whether other quotients are rounded to the nearest integer.
fn others_go_to_the_nearest() -> bool {
    rounded_quotient(7, 3) == 2
        && rounded_quotient(-7, 3) == -2
        && rounded_quotient(-8, 3) == -3
        && rounded_quotient(u64::MAX.into(), u64::MAX) == 1
}

#[test]
fn quotients_of_integers_take_a_half_upwards(rt: HostRuntime) {
    assert!(rt; halves_go_upwards());
    assert!(rt; others_go_to_the_nearest());
}

const DIFFERENCES: &[(i64, i64, Wanted)] = &[
    (80_000_000, 60_000_000, Ok(20_000_000)),
    (60_000_000, 80_000_000, Ok(-20_000_000)),
    (5_000_000, 355_000_000, Ok(10_000_000)),
    (355_000_000, 5_000_000, Ok(-10_000_000)),
    (180_000_000, 0, Ok(180_000_000)),
    (0, 180_000_000, Ok(180_000_000)),
    (540_000_000, 0, Ok(180_000_000)),
    (0, 179_999_999, Ok(-179_999_999)),
    (0, 180_000_001, Ok(179_999_999)),
    (720_000_000, 0, Ok(0)),
    (-900_000_000, 0, Ok(180_000_000)),
    (9_000_000_000_000_000_000, 0, Ok(0)),
    (9_000_000_000_000_000_000, -1, OVERFLOW),
    (-9_000_000_000_000_000_000, 360_000_000, OVERFLOW),
];

/// Whether the difference of these headings is this.
fn is_difference(first: i64, second: i64, wanted: Wanted) -> bool {
    match (Num::new(first), Num::new(second)) {
        (Some(left), Some(right)) => count_of(left.heading_difference(right)) == wanted,
        _ => false,
    }
}

#[test]
fn differences_of_headings_are_above_minus_180_and_up_to_180(rt: HostRuntime) {
    for &(first, second, wanted) in DIFFERENCES {
        assert!(rt;
            is_difference(first, second, wanted),
            "from {second} to {first}"
        );
    }
}
