//! Words that make agents.
use crate::playing::wrong_in;
use crate::rows::{Ends, Row, WAYS, WIDE};
use nl_exec_acts::ErrorKind;

const MODEL: &str =
    "breed [foxes fox] breed [owls owl] undirected-link-breed [ropes rope] foxes-own [hunger] owls-own [hunger age] globals [g x]";

// Births and links with blocks, and their errors.
const BIRTHS: &[Row] = &[
    Row {
        text: "set x [] cro 4 [ set x lput who x ]",
        ends: Ends::Done,
        spent: 10,
        looks: &[("x", Ends::Says("[3 2 0 1]"))],
    },
    Row {
        text: "cro 2 [ ] set x random 1000",
        ends: Ends::Done,
        spent: 4,
        looks: &[("x", Ends::Says("859"))],
    },
    Row {
        text: "cro 2 set x random 1000",
        ends: Ends::Done,
        spent: 2,
        looks: &[("x", Ends::Says("865"))],
    },
    Row {
        text: "set x [] crt 2 [ set x lput count turtles x ]",
        ends: Ends::Done,
        spent: 6,
        looks: &[("x", Ends::Says("[2 2]"))],
    },
    Row {
        text: "cro 2 ask turtles [ hatch 2 [ set x x + 1 ] ]",
        ends: Ends::Done,
        spent: 14,
        looks: &[("x", Ends::Says("4")), ("count turtles", Ends::Says("6"))],
    },
    Row {
        text: "ask patch 2 3 [ sprout 1 [ set x xcor + ycor ] ]",
        ends: Ends::Done,
        spent: 5,
        looks: &[("x", Ends::Says("5"))],
    },
    Row {
        text: "ask patch 2 3 [ sprout-foxes 2 [ set hunger 3 ] ]",
        ends: Ends::Done,
        spent: 7,
        looks: &[("[hunger] of foxes", Ends::Says("[3 3]"))],
    },
    Row {
        text: "create-foxes 1 [ set hunger 4 hatch-owls 1 [ set age 2 ] ]",
        ends: Ends::Done,
        spent: 6,
        looks: &[
            ("[hunger] of owls", Ends::Says("[4]")),
            ("[age] of owls", Ends::Says("[2]")),
        ],
    },
    Row {
        text: "create-ordered-foxes 3 ask fox 1 [ set breed owls ]",
        ends: Ends::Done,
        spent: 4,
        looks: &[
            ("count foxes", Ends::Says("2")),
            ("sort owls", Ends::Says("[(owl 1)]")),
        ],
    },
    // A breed's tests are true of its own alone.
    Row {
        text: "create-ordered-foxes 1 create-ordered-owls 1 cro 1 ask fox 0 [ create-rope-with owl 1 ]",
        ends: Ends::Done,
        spent: 6,
        looks: &[
            (
                "(list is-fox? turtle 0 is-fox? turtle 1 is-fox? turtle 2 is-owl? turtle 1 is-turtle? turtle 2)",
                Ends::Says("[true false false true true]"),
            ),
            (
                "(list is-fox? nobody is-fox? 5 is-fox? patch 0 0 is-fox? foxes)",
                Ends::Says("[false false false false]"),
            ),
            (
                "(list is-rope? one-of links is-link? one-of ropes is-rope? turtle 0 is-rope? nobody)",
                Ends::Says("[true true false false]"),
            ),
            ("is-fox? turtle 1 or is-owl? turtle 0", Ends::Says("false")),
        ],
    },
    Row {
        text: "cro 2 ask turtle 0 [ create-link-with turtle 1 ]",
        ends: Ends::Done,
        spent: 4,
        looks: &[(
            "(list is-rope? one-of links is-link? one-of links is-link? turtle 0 is-turtle? one-of links)",
            Ends::Says("[false true false false]"),
        )],
    },
    Row {
        text: "cro 2 ask turtle 0 [ create-link-to turtle 1 create-link-with turtle 1 ]",
        ends: Ends::Fails(ErrorKind::LinkFault, 45, 0),
        spent: 5,
        looks: &[("count links", Ends::Says("1"))],
    },
    Row {
        text: "cro 2 ask turtle 0 [ create-link-with turtle 1 ] ask turtle 1 [ create-link-with turtle 0 ]",
        ends: Ends::Done,
        spent: 7,
        looks: &[("count links", Ends::Says("1"))],
    },
    Row {
        text: "cro 1 ask turtle 0 [ create-link-with self ]",
        ends: Ends::Fails(ErrorKind::LinkFault, 21, 0),
        spent: 4,
        looks: &[],
    },
    Row {
        text: "cro 1 ask turtle 0 [ create-link-with nobody ]",
        ends: Ends::Fails(ErrorKind::NoAgent, 21, 0),
        spent: 4,
        looks: &[],
    },
    Row {
        text: "cro 1 ask turtle 0 [ create-link-with patch 0 0 ]",
        ends: Ends::Fails(ErrorKind::WrongType, 21, 0),
        spent: 4,
        looks: &[],
    },
    Row {
        text: "cro 1 ask turtle 0 [ create-links-with patches ]",
        ends: Ends::Fails(ErrorKind::WrongType, 21, 0),
        spent: 4,
        looks: &[],
    },
    Row {
        text: "cro 3 ask turtle 0 [ create-links-with other turtles [ set x x + 1 ] create-links-with other turtles [ set x x + 10 ] ]",
        ends: Ends::Done,
        spent: 9,
        looks: &[("x", Ends::Says("2"))],
    },
    Row {
        text: "cro 3 ask turtle 0 [ create-links-to other turtles [ set x lput [who] of end2 ifelse-value (x = 0) [ [] ] [ x ] ] ]",
        ends: Ends::Done,
        spent: 10,
        looks: &[("x", Ends::Says("[1 2]"))],
    },
    Row {
        text: "cro 1 ask turtle 0 [ hatch \"x\" ]",
        ends: Ends::Fails(ErrorKind::WrongType, 21, 0),
        spent: 4,
        looks: &[],
    },
    Row {
        text: "cro 3 [ set x x + 1 if who = 1 [ stop ] set x x + 10 ]",
        ends: Ends::Done,
        spent: 13,
        looks: &[("x", Ends::Says("23"))],
    },
    Row {
        text: "ask (turtle-set patches) [ set x 1 ]",
        ends: Ends::Fails(ErrorKind::WrongType, 5, 0),
        spent: 1,
        looks: &[],
    },
];

#[test]
fn the_new_run_their_block(rt: HostRuntime) {
    let wrong = wrong_in(rt.alloc(), MODEL, WIDE, BIRTHS, WAYS);
    assert!(rt; wrong.is_none(), "{wrong:?}");
}

const WIRES_MODEL: &str = "directed-link-breed [wires wire]";

// Links of a breed that have a direction.
const WIRES: &[Row] = &[
    Row {
        text: "cro 2 ask turtle 0 [ create-wire-to turtle 1 ] ask turtle 1 [ create-wire-to turtle 0 ]",
        ends: Ends::Done,
        spent: 7,
        looks: &[
            ("count wires", Ends::Says("2")),
            ("[count my-out-wires] of turtle 0", Ends::Says("1")),
            ("sort wires", Ends::Says("[(wire 0 1) (wire 1 0)]")),
            ("[who] of [end1] of wire 1 0", Ends::Says("1")),
        ],
    },
    Row {
        text: "cro 2 ask turtle 0 [ create-wire-from turtle 1 ]",
        ends: Ends::Done,
        spent: 4,
        looks: &[
            ("[count my-in-wires] of turtle 0", Ends::Says("1")),
            ("is-directed-link? one-of wires", Ends::Says("true")),
        ],
    },
];

#[test]
fn links_have_directions(rt: HostRuntime) {
    let wrong = wrong_in(rt.alloc(), WIRES_MODEL, WIDE, WIRES, WAYS);
    assert!(rt; wrong.is_none(), "{wrong:?}");
}
