//! Texts over very many agents: that they have memory far past the usual, at once and by copies.

use crate::playing::wrong_in;
use crate::rows::{Ends, Row, WIDE, Way};

const MODEL: &str = "undirected-link-breed [ropes rope] globals [x]";

/// At once, and in a few slices, behind each of which a copy goes on.
const FEW_STOPS: &[Way] = &[Way::Whole, Way::Copies(60_013)];

const VALUES: &[Row] = &[
    Row {
        text: "cro 100000 set x sum [who] of turtles",
        ends: Ends::Done,
        spent: 100_002,
        looks: &[("x", Ends::Says("4999950000"))],
    },
    Row {
        text: "cro 100000 set x count turtles with [who < 70000]",
        ends: Ends::Done,
        spent: 100_002,
        looks: &[("x", Ends::Says("70000"))],
    },
    Row {
        text: "cro 100000 set x max-one-of turtles [who]",
        ends: Ends::Done,
        spent: 100_002,
        looks: &[("x", Ends::Says("(turtle 99999)"))],
    },
    Row {
        text: "cro 100000 set x min [who] of max-n-of 60000 turtles [who]",
        ends: Ends::Done,
        spent: 160_002,
        looks: &[("x", Ends::Says("40000"))],
    },
    Row {
        text: "cro 100000 set x count turtles with-max [xcor]",
        ends: Ends::Done,
        spent: 100_002,
        looks: &[("x", Ends::Says("100000"))],
    },
    Row {
        text: "cro 100000 set x last sort-on [0 - who] turtles",
        ends: Ends::Done,
        spent: 100_002,
        looks: &[("x", Ends::Says("(turtle 0)"))],
    },
    Row {
        text: "cro 100000 set x all? turtles [who >= 0]",
        ends: Ends::Done,
        spent: 100_002,
        looks: &[("x", Ends::Says("true"))],
    },
    Row {
        text: "cro 100000 set x length [[self] of turtles-here] of turtle 7",
        ends: Ends::Done,
        spent: 100_003,
        looks: &[("x", Ends::Says("100000"))],
    },
];

#[test]
fn a_hundred_thousand_members_give_their_values(rt: HostRuntime) {
    let wrong = wrong_in(rt.alloc(), MODEL, WIDE, VALUES, FEW_STOPS);
    assert!(rt; wrong.is_none(), "{wrong:?}");
}

const TURNS: &[Row] = &[
    Row {
        text: "cro 100000 [ set color 7 ]",
        ends: Ends::Done,
        spent: 200_001,
        looks: &[("count turtles with [color = 7]", Ends::Says("100000"))],
    },
    Row {
        text: "cro 1 ask turtle 0 [ hatch 100000 [ set color 7 ] ]",
        ends: Ends::Done,
        spent: 200_004,
        looks: &[
            ("count turtles", Ends::Says("100001")),
            ("count turtles with [color = 7]", Ends::Says("100000")),
        ],
    },
    Row {
        text: "ask patch 1 2 [ sprout 100000 [ set color 7 ] ]",
        ends: Ends::Done,
        spent: 200_003,
        looks: &[
            ("count turtles-on patch 1 2", Ends::Says("100000")),
            ("count turtles with [color = 7]", Ends::Says("100000")),
        ],
    },
    Row {
        text: "cro 100000 ask turtles [ hatch 1 ]",
        ends: Ends::Done,
        spent: 200_002,
        looks: &[("count turtles", Ends::Says("200000"))],
    },
    Row {
        text: "cro 100000 ask turtles [ if who mod 50 = 0 [ die ] ]",
        ends: Ends::Done,
        spent: 202_002,
        looks: &[("count turtles", Ends::Says("98000"))],
    },
    Row {
        text: "cro 100000 ask turtles [ ask turtle ((who + 1) mod 100000) [ set color 7 ] ]",
        ends: Ends::Done,
        spent: 400_002,
        looks: &[("count turtles with [color = 7]", Ends::Says("100000"))],
    },
];

#[test]
fn a_hundred_thousand_turtles_have_their_turns(rt: HostRuntime) {
    let wrong = wrong_in(rt.alloc(), MODEL, WIDE, TURNS, FEW_STOPS);
    assert!(rt; wrong.is_none(), "{wrong:?}");
}

const LINKS: &[Row] = &[
    Row {
        text: "cro 100000 ask turtle 0 [ create-links-with other turtles ]",
        ends: Ends::Done,
        spent: 4,
        looks: &[
            ("count links", Ends::Says("99999")),
            ("[count my-links] of turtle 0", Ends::Says("99999")),
            ("count [link-neighbors] of turtle 0", Ends::Says("99999")),
        ],
    },
    Row {
        text: "cro 100000 ask turtle 0 [ create-ropes-with other turtles [ set color 7 ] ]",
        ends: Ends::Done,
        spent: 200_002,
        looks: &[
            ("count ropes with [color = 7]", Ends::Says("99999")),
            ("[count my-ropes] of turtle 0", Ends::Says("99999")),
        ],
    },
    Row {
        text: "cro 100000 ask turtle 0 [ create-links-to other turtles ] ask links [ set color 7 ]",
        ends: Ends::Done,
        spent: 200_003,
        looks: &[("count links with [color = 7]", Ends::Says("99999"))],
    },
    Row {
        text: "cro 100000 ask turtle 0 [ create-links-from other turtles die ]",
        ends: Ends::Done,
        spent: 5,
        looks: &[
            ("count links", Ends::Says("0")),
            ("count turtles", Ends::Says("99999")),
        ],
    },
];

#[test]
fn a_turtle_has_links_with_all_others(rt: HostRuntime) {
    let wrong = wrong_in(rt.alloc(), MODEL, WIDE, LINKS, FEW_STOPS);
    assert!(rt; wrong.is_none(), "{wrong:?}");
}
