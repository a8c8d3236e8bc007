//! Where units and nesting end.
use crate::playing::{wrong_in, wrong_with};
use crate::rows::{Ends, Row, WAYS, WIDE, Way};
use nl_exec_acts::ErrorKind;

const MODEL: &str =
    "globals [a] to dive [n] if n > 0 [ dive n - 1 ] end to-report down [n] report ifelse-value (n > 0) [ [ down (n - 1) ] of patch 0 0 ] [ n ] end to pass [n] ask patch 0 0 [ if n > 0 [ pass n - 1 ] ] end to halt [n] ifelse n > 0 [ halt n - 1 ] [ set a 5 stop ] end to fade [n] ifelse n > 0 [ fade n - 1 ] [ set a 7 die set a 8 ] end to fall loop [ fall ] end";

// Behind each text a short one runs on the same machine.
const NESTED: &[Row] = &[
    // A call in a call in a call: nesting 200,000 is the deepest.
    Row {
        text: "dive 124",
        ends: Ends::Done,
        spent: 250,
        looks: &[("a", Ends::Says("0"))],
    },
    Row {
        text: "dive 49998",
        ends: Ends::Done,
        spent: 99_998,
        looks: &[("a", Ends::Says("0"))],
    },
    Row {
        text: "dive 49999",
        ends: Ends::Fails(ErrorKind::TooNested, 29, 1),
        spent: 100_000,
        looks: &[("1 + 1", Ends::Says("2"))],
    },
    // What is nested too deep: a local, a sign before its inputs, a number, the bracket of a block.
    Row {
        text: "if true [ (dive 49998) ]",
        ends: Ends::Fails(ErrorKind::TooNested, 27, 1),
        spent: 99_999,
        looks: &[("1 + 1", Ends::Says("2"))],
    },
    Row {
        text: "if true [ if true [ halt 49998 ] ]",
        ends: Ends::Fails(ErrorKind::TooNested, 222, 4),
        spent: 100_000,
        looks: &[("1 + 1", Ends::Says("2"))],
    },
    Row {
        text: "((halt 49998))",
        ends: Ends::Fails(ErrorKind::TooNested, 249, 4),
        spent: 99_999,
        looks: &[("1 + 1", Ends::Says("2"))],
    },
    Row {
        text: "fall",
        ends: Ends::Fails(ErrorKind::TooNested, 343, 6),
        spent: 150_000,
        looks: &[("1 + 1", Ends::Says("2"))],
    },
    // By an answer of one agent, and by an `ask` in an `ask`.
    Row {
        text: "set a down 28570",
        ends: Ends::Done,
        spent: 57_142,
        looks: &[("a", Ends::Says("0"))],
    },
    Row {
        text: "set a ((down 28570))",
        ends: Ends::Fails(ErrorKind::TooNested, 92, 2),
        spent: 57_142,
        looks: &[("1 + 1", Ends::Says("2"))],
    },
    Row {
        text: "pass 33332",
        ends: Ends::Done,
        spent: 133_332,
        looks: &[("a", Ends::Says("0"))],
    },
    Row {
        text: "((( pass 33332)))",
        ends: Ends::Fails(ErrorKind::TooNested, 165, 3),
        spent: 133_330,
        looks: &[("1 + 1", Ends::Says("2"))],
    },
    // `stop` and a death at the deepest place.
    Row {
        text: "(halt 49998)",
        ends: Ends::Done,
        spent: 100_000,
        looks: &[("a", Ends::Says("5"))],
    },
    Row {
        text: "cro 1 [ (fade 49997) ]",
        ends: Ends::Done,
        spent: 100_000,
        looks: &[("a", Ends::Says("7"))],
    },
];

// At once, in slices, and by copies of a machine that stands 100,000 levels deep and more.
const DEEP: &[Way] = &[Way::Whole, Way::Slices(1_000), Way::Copies(50_000)];

#[test]
fn nodes_nest_200_000_deep(rt: HostRuntime) {
    let wrong = wrong_in(rt.alloc(), MODEL, WIDE, NESTED, DEEP);
    assert!(rt; wrong.is_none(), "{wrong:?}");
}

// The units end at the deepest level, and behind it.
const LAST: &[(u64, Row)] = &[
    (
        99_997,
        Row {
            text: "dive 49998",
            ends: Ends::Budget,
            spent: 99_997,
            looks: &[("a", Ends::Says("0"))],
        },
    ),
    (
        99_998,
        Row {
            text: "dive 49998",
            ends: Ends::Done,
            spent: 99_998,
            looks: &[],
        },
    ),
];

#[test]
fn units_end_at_the_deepest_level(rt: HostRuntime) {
    let wrong = wrong_with(rt.alloc(), MODEL, WIDE, LAST, DEEP);
    assert!(rt; wrong.is_none(), "{wrong:?}");
}

const SPENT_MODEL: &str = "";

// Where a unit is wanted and none is left, the text ends there.
const SPENT: &[(u64, Row)] = &[
    (
        5,
        Row {
            text: "loop [ ]",
            ends: Ends::Budget,
            spent: 5,
            looks: &[],
        },
    ),
    (
        5,
        Row {
            text: "cro 2 ask turtles [ die ] cro 1",
            ends: Ends::Budget,
            spent: 5,
            looks: &[("count turtles", Ends::Says("1"))],
        },
    ),
    (
        100,
        Row {
            text: "cro 2 ask turtles [ die ]",
            ends: Ends::Done,
            spent: 6,
            looks: &[("count turtles", Ends::Says("0"))],
        },
    ),
    (
        3,
        Row {
            text: "cro 2 ask turtles [ die ]",
            ends: Ends::Budget,
            spent: 3,
            looks: &[("count turtles", Ends::Says("2"))],
        },
    ),
    (
        4,
        Row {
            text: "repeat 3 [ cro 1 ]",
            ends: Ends::Budget,
            spent: 4,
            looks: &[("count turtles", Ends::Says("1"))],
        },
    ),
    (
        7,
        Row {
            text: "while [true] [ cro 1 ]",
            ends: Ends::Budget,
            spent: 7,
            looks: &[("count turtles", Ends::Says("2"))],
        },
    ),
    (
        5,
        Row {
            text: "cro 1 [ fd 3 ]",
            ends: Ends::Budget,
            spent: 5,
            looks: &[("count turtles-on patch 0 2", Ends::Says("1"))],
        },
    ),
    (
        4,
        Row {
            text: "cro 3 show [who] of turtles",
            ends: Ends::Budget,
            spent: 4,
            looks: &[("count turtles", Ends::Says("3"))],
        },
    ),
    (
        5,
        Row {
            text: "cro 3 show turtles with [true]",
            ends: Ends::Done,
            spent: 5,
            looks: &[("count turtles", Ends::Says("3"))],
        },
    ),
    (
        0,
        Row {
            text: "",
            ends: Ends::Done,
            spent: 0,
            looks: &[("1 + 1", Ends::Says("2"))],
        },
    ),
    (
        0,
        Row {
            text: "cro 1",
            ends: Ends::Budget,
            spent: 0,
            looks: &[("count turtles", Ends::Says("0"))],
        },
    ),
];

#[test]
fn a_text_ends_where_the_units_end(rt: HostRuntime) {
    let wrong = wrong_with(rt.alloc(), SPENT_MODEL, WIDE, SPENT, WAYS);
    assert!(rt; wrong.is_none(), "{wrong:?}");
}
