//! Sines, cosines, tangents and headings, by rows of angles and points.

use nl_fixed::number::{Num, NumFault};

// An angle with its sine, its cosine and, where it has one, its tangent.
const ANGLES: &[(i64, i64, i64, Option<i64>)] = &[
    (0, 0, 1_000_000, Some(0)),
    (30_000_000, 500_000, 866_025, Some(577_351)),
    (45_000_000, 707_107, 707_107, Some(1_000_000)),
    (60_000_000, 866_025, 500_000, Some(1_732_050)),
    (90_000_000, 1_000_000, 0, None),
    (181_000_000, -17_452, -999_848, Some(17_455)),
    (270_000_000, -1_000_000, 0, None),
    (-90_000_000, -1_000_000, 0, None),
    (500_000, 17_452, 1_000_000, Some(17_452)),
    (-500_000, 0, 999_848, Some(0)),
    (-500_001, -17_452, 999_848, Some(-17_455)),
    (359_500_000, 0, 999_848, Some(0)),
    (9_000_000_000_000_000_000, 0, 1_000_000, Some(0)),
    (-9_000_000_000_000_000_000, 0, 1_000_000, Some(0)),
    (-8_999_999_999_999_500_000, 17_452, 1_000_000, Some(17_452)),
];

/// Whether the angle has this sine and this cosine and, where it has one, this tangent.
fn has_sines(angle: i64, sine: i64, cosine: i64, tangent: Option<i64>) -> bool {
    let Some(number) = Num::new(angle) else {
        return false;
    };
    number.sin().millionths() == sine
        && number.cos().millionths() == cosine
        && number.tan().map(Num::millionths) == tangent.ok_or(NumFault::ZeroDivide)
}

#[test]
fn sines_cosines_and_tangents_by_the_table(rt: HostRuntime) {
    for &(angle, sine, cosine, tangent) in ANGLES {
        assert!(rt; has_sines(angle, sine, cosine, tangent), "{angle}");
    }
}

// A point with its heading in degrees; 0 0 has none. The point 12449 12233 reaches as far at 45 as at 46.
const POINTS: &[(i64, i64, Option<i64>)] = &[
    (0, 0, None),
    (0, 1_000_000, Some(0)),
    (1_000_000, 0, Some(90)),
    (1_000_000, -1_000_000, Some(135)),
    (0, -1_000_000, Some(180)),
    (-1_000_000, 0, Some(270)),
    (3_000_000, 4_000_000, Some(37)),
    (12_449, 12_233, Some(45)),
    (-12_449, -12_233, Some(225)),
    (
        9_000_000_000_000_000_000,
        9_000_000_000_000_000_000,
        Some(45),
    ),
    (
        -9_000_000_000_000_000_000,
        9_000_000_000_000_000_000,
        Some(315),
    ),
    (-1, -9_000_000_000_000_000_000, Some(180)),
];

/// Whether the point has this heading in degrees, or none.
fn has_heading(x: i64, y: i64, degree: Option<i64>) -> bool {
    let (Some(across), Some(along)) = (Num::new(x), Num::new(y)) else {
        return false;
    };
    let found = Num::atan(across, along).map(|heading| heading.millionths() / 1_000_000);
    found == degree.ok_or(NumFault::Domain)
}

#[test]
fn headings_are_the_least_of_the_farthest_directions(rt: HostRuntime) {
    for &(x, y, degree) in POINTS {
        assert!(rt; has_heading(x, y, degree), "the heading of {x} {y}");
    }
}
