//! Deaths in the midst of walks.
use crate::playing::wrong_in;
use crate::rows::{Ends, Row, WAYS, WIDE};
use nl_exec_acts::ErrorKind;

const MODEL: &str =
    "globals [x y] to-report kill-other ask other turtles [ die ] report who end to-report kill-next ask turtles with [who = 1] [ die ] report who end";

// Deaths at each place of a walk.
const DEATHS: &[Row] = &[
    Row {
        text: "set x [] cro 3 ask turtles [ set x lput who x ask turtles with [who = 0] [ die ] ]",
        ends: Ends::Done,
        spent: 16,
        looks: &[
            ("x", Ends::Says("[2 1]")),
            ("count turtles", Ends::Says("2")),
        ],
    },
    Row {
        text: "set x [] cro 3 ask turtles [ set x lput who x die set x lput 9 x ]",
        ends: Ends::Done,
        spent: 12,
        looks: &[
            ("x", Ends::Says("[2 1 0]")),
            ("count turtles", Ends::Says("0")),
        ],
    },
    Row {
        text: "cro 2 ask turtle 0 [ ask turtle 1 [ ask turtle 0 [ die ] set x 1 ] set y 1 ]",
        ends: Ends::Done,
        spent: 9,
        looks: &[
            ("x", Ends::Says("1")),
            ("y", Ends::Says("0")),
            ("count turtles", Ends::Says("1")),
        ],
    },
    Row {
        text: "cro 2 ask turtle 0 [ ask turtle 1 [ ask myself [ die ] set x myself ] ]",
        ends: Ends::Done,
        spent: 9,
        looks: &[("x", Ends::Says("nobody"))],
    },
    Row {
        text: "cro 2 ask turtle 0 [ die ] ask turtle 1 [ set x 1 ]",
        ends: Ends::Done,
        spent: 7,
        looks: &[("x", Ends::Says("1")), ("count turtles", Ends::Says("1"))],
    },
    Row {
        text: "cro 1 ask turtle 0 [ if true [ die ] set x 1 ] set y 1",
        ends: Ends::Done,
        spent: 6,
        looks: &[("x", Ends::Says("0")), ("y", Ends::Says("1"))],
    },
    Row {
        text: "cro 1 ask turtle 0 [ repeat 3 [ set x x + 1 die ] set x 9 ]",
        ends: Ends::Done,
        spent: 7,
        looks: &[("x", Ends::Says("1"))],
    },
    Row {
        text: "cro 3 set x [kill-other] of turtles",
        ends: Ends::Done,
        spent: 9,
        looks: &[("x", Ends::Says("[2]")), ("count turtles", Ends::Says("1"))],
    },
    Row {
        text: "cro 3 set x sort turtles with [kill-next >= 0]",
        ends: Ends::Done,
        spent: 15,
        looks: &[("x", Ends::Says("[(turtle 0) (turtle 2)]"))],
    },
    Row {
        text: "cro 3 set x max-one-of turtles [kill-next] set y count turtles",
        ends: Ends::Done,
        spent: 16,
        looks: &[("x", Ends::Says("(turtle 2)")), ("y", Ends::Says("2"))],
    },
    Row {
        text: "cro 3 set x sort turtles with-min [kill-next]",
        ends: Ends::Done,
        spent: 15,
        looks: &[("x", Ends::Says("[(turtle 0)]"))],
    },
    Row {
        text: "cro 3 set x sort-on [kill-next] turtles",
        ends: Ends::Done,
        spent: 15,
        looks: &[("x", Ends::Says("[(turtle 0) (turtle 2)]"))],
    },
    Row {
        text: "cro 2 ask turtle 0 [ create-link-with turtle 1 ] ask turtle 1 [ die ]",
        ends: Ends::Done,
        spent: 7,
        looks: &[("count links", Ends::Says("0"))],
    },
    Row {
        text: "cro 3 ask turtle 0 [ create-links-with other turtles ] ask turtle 1 [ die ]",
        ends: Ends::Done,
        spent: 7,
        looks: &[("count links", Ends::Says("1"))],
    },
    Row {
        text: "cro 3 ask turtle 0 [ create-links-with other turtles ] ask links [ die ]",
        ends: Ends::Done,
        spent: 9,
        looks: &[
            ("count links", Ends::Says("0")),
            ("count turtles", Ends::Says("3")),
        ],
    },
    Row {
        text: "cro 3 ask turtle 0 [ create-links-with other turtles ] ask links [ ask other-end [ set x 1 ] ]",
        ends: Ends::Fails(ErrorKind::NoAgent, 71, 0),
        spent: 7,
        looks: &[],
    },
    Row {
        text: "cro 3 ask turtle 0 [ create-links-with other turtles ] ask links [ ask end2 [ die ] set x x + 1 ]",
        ends: Ends::Done,
        spent: 13,
        looks: &[("x", Ends::Says("0")), ("count links", Ends::Says("0"))],
    },
    Row {
        text: "cro 1 [ hatch 2 [ die ] ]",
        ends: Ends::Done,
        spent: 7,
        looks: &[("count turtles", Ends::Says("1"))],
    },
    Row {
        text: "cro 2 [ hatch 1 [ ask myself [ die ] ] set x x + 1 ]",
        ends: Ends::Done,
        spent: 13,
        looks: &[("count turtles", Ends::Says("2")), ("x", Ends::Says("0"))],
    },
    Row {
        text: "cro 1 ask turtle 0 [ ask patch-here [ ask turtles-here [ die ] set x 1 ] set x 2 ]",
        ends: Ends::Done,
        spent: 9,
        looks: &[("x", Ends::Says("1"))],
    },
    Row {
        text: "cro 1 ask turtle 0 [ ask turtles [ die ] set x [who] of self ]",
        ends: Ends::Done,
        spent: 6,
        looks: &[("x", Ends::Says("0"))],
    },
    Row {
        text: "cro 1 ask turtle 0 [ ask turtles [ die ] show xcor ]",
        ends: Ends::Done,
        spent: 6,
        looks: &[],
    },
];

#[test]
fn the_dead_leave_their_turns(rt: HostRuntime) {
    let wrong = wrong_in(rt.alloc(), MODEL, WIDE, DEATHS, WAYS);
    assert!(rt; wrong.is_none(), "{wrong:?}");
}
