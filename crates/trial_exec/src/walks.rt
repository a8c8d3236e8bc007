//! Words that have the agents of a set run a block.
use crate::playing::wrong_in;
use crate::rows::{Ends, Row, SLICES, WIDE};
use nl_exec_acts::ErrorKind;

const MODEL: &str =
    "globals [x y g] to-report gone die report 1 end to bump set x x + 1 end to quits stop end to-report own-who report who end to-report looped repeat 3 [ report 4 ] report 5 end to leaves ask turtles [ stop set x 9 ] set x x + 1 end";

// Who is asked, in which order, and who asks.
const ASKS: &[Row] = &[
    Row {
        text: "cro 1 set x [gone] of turtle 0",
        ends: Ends::Fails(ErrorKind::NoAgent, 19, 0),
        spent: 4,
        looks: &[("count turtles", Ends::Says("0"))],
    },
    Row {
        text: "cro 2 ask turtle 0 [ ask turtles [ die ] fd 1 ]",
        ends: Ends::Done,
        spent: 8,
        looks: &[("count turtles", Ends::Says("0"))],
    },
    Row {
        text: "cro 4 ask turtles [ ask other turtles [ die ] ]",
        ends: Ends::Done,
        spent: 10,
        looks: &[("count turtles", Ends::Says("1"))],
    },
    Row {
        text: "cro 3 ask turtles [ hatch 1 ]",
        ends: Ends::Done,
        spent: 8,
        looks: &[("count turtles", Ends::Says("6"))],
    },
    Row {
        text: "cro 1 set x turtles set y turtle-set turtles cro 2",
        ends: Ends::Done,
        spent: 4,
        looks: &[("count x", Ends::Says("3")), ("count y", Ends::Says("1"))],
    },
    Row {
        text: "cro 1 set g turtle 0 clear-turtles cro 1",
        ends: Ends::Done,
        spent: 4,
        looks: &[
            ("g", Ends::Says("nobody")),
            ("g = nobody", Ends::Says("true")),
            ("g = turtle 0", Ends::Says("false")),
        ],
    },
    Row {
        text: "cro 3 set x [who] of turtles",
        ends: Ends::Done,
        spent: 5,
        looks: &[("x", Ends::Says("[2 1 0]"))],
    },
    Row {
        text: "set x [] cro 5 ask turtles [ set x lput who x ]",
        ends: Ends::Done,
        spent: 13,
        looks: &[("x", Ends::Says("[4 1 2 3 0]"))],
    },
    Row {
        text: "set x [] cro 5 ask turtle-set turtles [ set x lput who x ] set y random 1000",
        ends: Ends::Done,
        spent: 14,
        looks: &[("x", Ends::Says("[4 1 2 3 0]")), ("y", Ends::Says("648"))],
    },
    Row {
        text: "cro 3 ask turtle 1 [ set x who ] set y random 1000",
        ends: Ends::Done,
        spent: 5,
        looks: &[("x", Ends::Says("1")), ("y", Ends::Says("865"))],
    },
    Row {
        text: "cro 3 ask turtle 1 [ ask turtle 2 [ set x [who] of myself set y [who] of self ] ]",
        ends: Ends::Done,
        spent: 9,
        looks: &[("x", Ends::Says("1")), ("y", Ends::Says("2"))],
    },
    Row {
        text: "cro 2 ask turtle 0 [ ask patch 1 1 [ ask turtle 1 [ set x [pxcor] of myself ] ] set y [who] of self ]",
        ends: Ends::Done,
        spent: 11,
        looks: &[("x", Ends::Says("1")), ("y", Ends::Says("0"))],
    },
    Row {
        text: "cro 2 ask turtle 0 [ set x [who + [who] of myself] of turtle 1 ]",
        ends: Ends::Done,
        spent: 6,
        looks: &[("x", Ends::Says("1"))],
    },
    Row {
        text: "ask nobody [ set x 1 ]",
        ends: Ends::Fails(ErrorKind::NoAgent, 0, 0),
        spent: 1,
        looks: &[],
    },
    Row {
        text: "ask 3 [ set x 1 ]",
        ends: Ends::Fails(ErrorKind::WrongType, 0, 0),
        spent: 1,
        looks: &[],
    },
    Row {
        text: "cro 1 ask turtle 0 [ die ] ask turtle 0 [ set x 1 ]",
        ends: Ends::Fails(ErrorKind::NoAgent, 27, 0),
        spent: 5,
        looks: &[],
    },
    Row {
        text: "cro 1 set g turtle 0 ask g [ die ] ask g [ set x 1 ]",
        ends: Ends::Fails(ErrorKind::NoAgent, 35, 0),
        spent: 6,
        looks: &[],
    },
    Row {
        text: "ask no-turtles [ set x 1 ] ask patches with [pxcor > 99] [ set x 2 ]",
        ends: Ends::Done,
        spent: 1091,
        looks: &[("x", Ends::Says("0"))],
    },
    Row {
        text: "cro 3 ask turtles [ if who = 1 [ stop ] set x x + 1 ] set y 5",
        ends: Ends::Done,
        spent: 12,
        looks: &[("x", Ends::Says("2")), ("y", Ends::Says("5"))],
    },
    Row {
        text: "cro 3 ask turtles [ repeat 2 [ stop ] set x x + 1 ] set y 5",
        ends: Ends::Done,
        spent: 15,
        looks: &[("x", Ends::Says("0")), ("y", Ends::Says("5"))],
    },
    Row {
        text: "cro 3 ask turtles [ quits set x x + 1 ]",
        ends: Ends::Done,
        spent: 14,
        looks: &[("x", Ends::Says("3"))],
    },
    Row {
        text: "cro 2 ask turtles [ bump ] bump",
        ends: Ends::Done,
        spent: 10,
        looks: &[("x", Ends::Says("3"))],
    },
    Row {
        text: "cro 1 ask turtles [ let z 1 set x z ] let z 2 set y z",
        ends: Ends::Done,
        spent: 7,
        looks: &[("x", Ends::Says("1")), ("y", Ends::Says("2"))],
    },
    Row {
        text: "let z 7 cro 1 ask turtles [ set x z set z 8 ] set y z",
        ends: Ends::Done,
        spent: 7,
        looks: &[("x", Ends::Says("7")), ("y", Ends::Says("8"))],
    },
    Row {
        text: "cro 3 ask turtles [ ask turtles [ set x x + 1 ] ]",
        ends: Ends::Done,
        spent: 26,
        looks: &[("x", Ends::Says("9"))],
    },
    Row {
        text: "ask patches [ set x x + 1 ]",
        ends: Ends::Done,
        spent: 2179,
        looks: &[("x", Ends::Says("1089"))],
    },
    Row {
        text: "cro 1 ask turtles [ set x 1 / 0 ]",
        ends: Ends::Fails(ErrorKind::ZeroDivide, 28, 0),
        spent: 4,
        looks: &[],
    },
    Row {
        text: "set x looped",
        ends: Ends::Done,
        spent: 4,
        looks: &[("x", Ends::Says("4"))],
    },
    Row {
        text: "cro 3 leaves leaves",
        ends: Ends::Done,
        spent: 19,
        looks: &[("x", Ends::Says("2"))],
    },
    Row {
        text: "cro 2 ask turtles [ while [true] [ stop ] set x 9 ] set y 1",
        ends: Ends::Done,
        spent: 13,
        looks: &[("x", Ends::Says("0")), ("y", Ends::Says("1"))],
    },
    Row {
        text: "cro 2 ask turtles [ if true [ if true [ stop ] ] set x 9 ] set y 1",
        ends: Ends::Done,
        spent: 11,
        looks: &[("x", Ends::Says("0")), ("y", Ends::Says("1"))],
    },
    Row {
        text: "cro 2 ask turtles [ hatch 1 [ stop ] set x x + 1 ]",
        ends: Ends::Done,
        spent: 12,
        looks: &[("x", Ends::Says("2")), ("count turtles", Ends::Says("4"))],
    },
    Row {
        text: "cro 1 set g patches ask g [ fd 1 ]",
        ends: Ends::Fails(ErrorKind::WrongContext, 28, 0),
        spent: 5,
        looks: &[],
    },
    Row {
        text: "cro 1 set g turtle 0 ask g [ sprout 1 ]",
        ends: Ends::Fails(ErrorKind::WrongContext, 29, 0),
        spent: 5,
        looks: &[],
    },
    Row {
        text: "cro 1 set g turtle 0 ask g [ set x [pxcor] of g ask g [ die ] fd 1 / 0 ]",
        ends: Ends::Done,
        spent: 9,
        looks: &[("x", Ends::Says("0")), ("count turtles", Ends::Says("0"))],
    },
];

#[test]
fn agents_are_asked_as_told(rt: HostRuntime) {
    let wrong = wrong_in(rt.alloc(), MODEL, WIDE, ASKS, SLICES);
    assert!(rt; wrong.is_none(), "{wrong:?}");
}

// Words that take values of a set's members.
const ANSWERS: &[Row] = &[
    Row {
        text: "cro 5",
        ends: Ends::Done,
        spent: 1,
        looks: &[
            ("[who] of turtles with [who > 2]", Ends::Says("[3 4]")),
            ("count turtles with [who mod 2 = 0]", Ends::Says("3")),
            ("all? turtles [who < 5]", Ends::Says("true")),
            ("all? turtles [who < 3]", Ends::Says("false")),
            ("[who] of turtles with-max [who]", Ends::Says("[4]")),
            (
                "[who] of turtles with-min [who mod 2]",
                Ends::Says("[4 2 0]"),
            ),
            ("[who] of max-one-of turtles [who mod 3]", Ends::Says("2")),
            ("[who] of min-one-of turtles [who mod 2]", Ends::Says("0")),
            (
                "sort max-n-of 2 turtles [who]",
                Ends::Says("[(turtle 3) (turtle 4)]"),
            ),
            (
                "sort min-n-of 2 turtles [who]",
                Ends::Says("[(turtle 0) (turtle 1)]"),
            ),
            (
                "sort-on [0 - who] turtles",
                Ends::Says("[(turtle 4) (turtle 3) (turtle 2) (turtle 1) (turtle 0)]"),
            ),
            (
                "sort-on [who mod 2] turtles",
                Ends::Says("[(turtle 0) (turtle 2) (turtle 4) (turtle 1) (turtle 3)]"),
            ),
            ("sum [who] of turtles", Ends::Says("10")),
            ("max [who] of turtles", Ends::Says("4")),
            ("[who] of turtle 3", Ends::Says("3")),
            (
                "sort turtles",
                Ends::Says("[(turtle 0) (turtle 1) (turtle 2) (turtle 3) (turtle 4)]"),
            ),
            ("member? turtle 2 turtles", Ends::Says("true")),
            ("member? turtle 9 turtles", Ends::Says("false")),
            ("[who] of one-of turtles", Ends::Says("0")),
            ("any? turtles with [who = 9]", Ends::Says("false")),
            ("[own-who] of turtles", Ends::Says("[4 1 2 3 0]")),
            (
                "count patches with [pxcor = 0 and pycor > 0]",
                Ends::Says("16"),
            ),
            ("turtles with [3]", Ends::Fails(ErrorKind::WrongType, 8, 0)),
            ("all? turtles [3]", Ends::Fails(ErrorKind::WrongType, 0, 0)),
            (
                "max-n-of 9 turtles [who]",
                Ends::Fails(ErrorKind::TooFew, 0, 0),
            ),
            (
                "max-n-of -1 turtles [who]",
                Ends::Fails(ErrorKind::Domain, 0, 0),
            ),
            (
                "sort-on [self] turtles",
                Ends::Says("[(turtle 0) (turtle 1) (turtle 2) (turtle 3) (turtle 4)]"),
            ),
            (
                "turtles with-max [\"a\"]",
                Ends::Says("(agentset, 0 turtles)"),
            ),
            ("max-one-of turtles [\"a\"]", Ends::Says("nobody")),
            ("3 with [true]", Ends::Fails(ErrorKind::WrongType, 2, 0)),
            ("[who] of nobody", Ends::Fails(ErrorKind::NoAgent, 6, 0)),
            ("[who] of 3", Ends::Fails(ErrorKind::WrongType, 6, 0)),
            (
                "[1 / 0] of turtles",
                Ends::Fails(ErrorKind::ZeroDivide, 3, 0),
            ),
            (
                "min-n-of \"x\" turtles [who]",
                Ends::Fails(ErrorKind::WrongType, 0, 0),
            ),
            ("all? no-turtles [false]", Ends::Says("true")),
            ("max-one-of no-turtles [1]", Ends::Says("nobody")),
            ("[who] of no-turtles", Ends::Says("[]")),
            (
                "sort-on [ifelse-value (who = 0) [\"a\"] [1]] turtles",
                Ends::Fails(ErrorKind::WrongType, 0, 0),
            ),
        ],
    },
    Row {
        text: "cro 3 set x [gone] of turtles",
        ends: Ends::Fails(ErrorKind::NoAgent, 19, 0),
        spent: 4,
        looks: &[("count turtles", Ends::Says("2"))],
    },
    Row {
        text: "cro 3 set x count turtles with [gone = 1]",
        ends: Ends::Fails(ErrorKind::NoAgent, 26, 0),
        spent: 4,
        looks: &[("count turtles", Ends::Says("2"))],
    },
    Row {
        text: "cro 3 set x all? turtles [gone = 1]",
        ends: Ends::Fails(ErrorKind::NoAgent, 12, 0),
        spent: 4,
        looks: &[("count turtles", Ends::Says("2"))],
    },
    Row {
        text: "cro 4 set x [who] of turtles with [who != 2] set y random 1000",
        ends: Ends::Done,
        spent: 10,
        looks: &[("x", Ends::Says("[3 1 0]")), ("y", Ends::Says("246"))],
    },
    Row {
        text: "cro 4 set x max-one-of turtles [who mod 2] set y random 1000",
        ends: Ends::Done,
        spent: 7,
        looks: &[("x", Ends::Says("(turtle 3)")), ("y", Ends::Says("859"))],
    },
    Row {
        text: "cro 4 set x sort max-n-of 3 turtles [who mod 2] set y random 1000",
        ends: Ends::Done,
        spent: 7,
        looks: &[
            ("x", Ends::Says("[(turtle 1) (turtle 2) (turtle 3)]")),
            ("y", Ends::Says("805")),
        ],
    },
];

#[test]
fn values_of_members_are_as_told(rt: HostRuntime) {
    let wrong = wrong_in(rt.alloc(), MODEL, WIDE, ANSWERS, SLICES);
    assert!(rt; wrong.is_none(), "{wrong:?}");
}
