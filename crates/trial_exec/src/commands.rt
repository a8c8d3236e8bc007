//! Commands and what `set` takes.
use crate::playing::wrong_in;
use crate::rows::{AT_ONCE, BOX, Ends, Row, SLICES, TORUS, WIDE, World};
use nl_exec_acts::ErrorKind;

const MODEL: &str = "globals [a]";

// Commands of the observer, with their errors.
const COMMANDS: &[Row] = &[
    Row {
        text: "tick",
        ends: Ends::Fails(ErrorKind::TicksOff, 0, 0),
        spent: 1,
        looks: &[],
    },
    Row {
        text: "reset-ticks tick tick",
        ends: Ends::Done,
        spent: 3,
        looks: &[("ticks", Ends::Says("2"))],
    },
    Row {
        text: "reset-ticks tick-advance 2.5",
        ends: Ends::Done,
        spent: 2,
        looks: &[("ticks", Ends::Says("2.5"))],
    },
    Row {
        text: "reset-ticks tick-advance -1",
        ends: Ends::Fails(ErrorKind::Domain, 12, 0),
        spent: 2,
        looks: &[],
    },
    Row {
        text: "tick-advance 1",
        ends: Ends::Fails(ErrorKind::TicksOff, 0, 0),
        spent: 1,
        looks: &[],
    },
    Row {
        text: "reset-ticks clear-ticks show ticks",
        ends: Ends::Fails(ErrorKind::TicksOff, 29, 0),
        spent: 3,
        looks: &[],
    },
    Row {
        text: "reset-ticks tick-advance \"x\"",
        ends: Ends::Fails(ErrorKind::WrongType, 12, 0),
        spent: 2,
        looks: &[],
    },
    Row {
        text: "cro 3 clear-turtles cro 1",
        ends: Ends::Done,
        spent: 3,
        looks: &[
            ("count turtles", Ends::Says("1")),
            ("[who] of turtles", Ends::Says("[0]")),
        ],
    },
    Row {
        text: "cro 2 ask turtle 0 [ create-link-with turtle 1 ] clear-links",
        ends: Ends::Done,
        spent: 5,
        looks: &[
            ("count links", Ends::Says("0")),
            ("count turtles", Ends::Says("2")),
        ],
    },
    Row {
        text: "ask patch 0 0 [ set pcolor 5 ] clear-patches",
        ends: Ends::Done,
        spent: 4,
        looks: &[("[pcolor] of patch 0 0", Ends::Says("0"))],
    },
    Row {
        text: "set a 3 clear-globals",
        ends: Ends::Done,
        spent: 2,
        looks: &[("a", Ends::Says("0"))],
    },
    Row {
        text: "set a 3 cro 2 reset-ticks ask patch 0 0 [ set pcolor 5 ] clear-all",
        ends: Ends::Done,
        spent: 7,
        looks: &[
            ("a", Ends::Says("0")),
            ("count turtles", Ends::Says("0")),
            ("[pcolor] of patch 0 0", Ends::Says("0")),
            ("ticks", Ends::Fails(ErrorKind::TicksOff, 0, 0)),
        ],
    },
    Row {
        text: "random-seed 7 set a random 1000",
        ends: Ends::Done,
        spent: 2,
        looks: &[("a", Ends::Says("716"))],
    },
    Row {
        text: "random-seed \"x\"",
        ends: Ends::Fails(ErrorKind::WrongType, 0, 0),
        spent: 1,
        looks: &[],
    },
    Row {
        text: "cro -1 crt 2.9",
        ends: Ends::Done,
        spent: 2,
        looks: &[("count turtles", Ends::Says("2"))],
    },
    Row {
        text: "crt \"x\"",
        ends: Ends::Fails(ErrorKind::WrongType, 0, 0),
        spent: 1,
        looks: &[],
    },
    Row {
        text: "crt 1",
        ends: Ends::Done,
        spent: 1,
        looks: &[
            ("[color] of turtle 0", Ends::Says("135")),
            ("[heading] of turtle 0", Ends::Says("339")),
        ],
    },
    Row {
        text: "show 1 print [1 2] type \"x\" display wait 1 plot 3 set-plot-x-range 0 1 clear-output output-print 4 write 5",
        ends: Ends::Done,
        spent: 10,
        looks: &[],
    },
    Row {
        text: "show 1 / 0",
        ends: Ends::Fails(ErrorKind::ZeroDivide, 7, 0),
        spent: 1,
        looks: &[],
    },
    Row {
        text: "cro 4",
        ends: Ends::Done,
        spent: 1,
        looks: &[
            ("[heading] of turtles", Ends::Says("[270 180 0 90]")),
            ("[color] of turtle 3", Ends::Says("35")),
        ],
    },
];

#[test]
fn commands_of_the_observer_end_as_told(rt: HostRuntime) {
    let wrong = wrong_in(rt.alloc(), MODEL, WIDE, COMMANDS, SLICES);
    assert!(rt; wrong.is_none(), "{wrong:?}");
}

// A store has room for 200,000 turtles.
const FULL: &[Row] = &[
    Row {
        text: "cro 200001",
        ends: Ends::Fails(ErrorKind::TooMany, 0, 0),
        spent: 1,
        looks: &[],
    },
    Row {
        text: "cro 200000",
        ends: Ends::Done,
        spent: 1,
        looks: &[("count turtles", Ends::Says("200000"))],
    },
];

#[test]
fn no_more_turtles_live_than_fit(rt: HostRuntime) {
    let wrong = wrong_in(rt.alloc(), MODEL, WIDE, FULL, AT_ONCE);
    assert!(rt; wrong.is_none(), "{wrong:?}");
}

const MOVES_MODEL: &str = "patches-own [p]";

// Commands of turtles, with their errors.
const MOVES: &[Row] = &[
    Row {
        text: "cro 1 [ set heading 90 fd 10 ]",
        ends: Ends::Done,
        spent: 7,
        looks: &[("[xcor] of turtle 0", Ends::Says("2"))],
    },
    Row {
        text: "cro 1 ask turtles [ set heading 90 jump 10 ]",
        ends: Ends::Done,
        spent: 5,
        looks: &[("[xcor] of turtle 0", Ends::Says("0"))],
    },
    Row {
        text: "cro 1 [ set xcor 2.5 ]",
        ends: Ends::Fails(ErrorKind::OutOfWorld, 8, 0),
        spent: 3,
        looks: &[],
    },
    Row {
        text: "cro 1 [ setxy 1 3 ]",
        ends: Ends::Fails(ErrorKind::OutOfWorld, 8, 0),
        spent: 3,
        looks: &[("[xcor] of turtle 0", Ends::Says("0"))],
    },
    Row {
        text: "cro 1 [ set heading 90 fd 1.5 bk 0.25 ]",
        ends: Ends::Done,
        spent: 8,
        looks: &[("[xcor] of turtle 0", Ends::Says("1.25"))],
    },
    Row {
        text: "cro 1 [ rt 100 lt 30 ]",
        ends: Ends::Done,
        spent: 4,
        looks: &[("[heading] of turtle 0", Ends::Says("70"))],
    },
    Row {
        text: "cro 1 [ setxy 1 1 home ]",
        ends: Ends::Done,
        spent: 4,
        looks: &[("[xcor] of turtle 0", Ends::Says("0"))],
    },
    Row {
        text: "cro 1 [ move-to patch 1 2 ]",
        ends: Ends::Done,
        spent: 3,
        looks: &[("[ycor] of turtle 0", Ends::Says("2"))],
    },
    Row {
        text: "cro 1 [ facexy 0 -1 ]",
        ends: Ends::Done,
        spent: 3,
        looks: &[("[heading] of turtle 0", Ends::Says("180"))],
    },
    Row {
        text: "cro 2 ask turtle 0 [ setxy 1 0 ] ask turtle 1 [ face turtle 0 ]",
        ends: Ends::Done,
        spent: 7,
        looks: &[("[heading] of turtle 1", Ends::Says("90"))],
    },
    Row {
        text: "cro 1 [ fd \"x\" ]",
        ends: Ends::Fails(ErrorKind::WrongType, 8, 0),
        spent: 3,
        looks: &[],
    },
    Row {
        text: "cro 1 [ jump nobody ]",
        ends: Ends::Fails(ErrorKind::WrongType, 8, 0),
        spent: 3,
        looks: &[],
    },
    Row {
        text: "cro 1 [ setxy 0 true ]",
        ends: Ends::Fails(ErrorKind::WrongType, 8, 0),
        spent: 3,
        looks: &[],
    },
    Row {
        text: "cro 1 [ move-to 3 ]",
        ends: Ends::Fails(ErrorKind::WrongType, 8, 0),
        spent: 3,
        looks: &[],
    },
    Row {
        text: "cro 1 [ face nobody ]",
        ends: Ends::Fails(ErrorKind::NoAgent, 8, 0),
        spent: 3,
        looks: &[],
    },
    Row {
        text: "cro 1 [ rt [] ]",
        ends: Ends::Fails(ErrorKind::WrongType, 8, 0),
        spent: 3,
        looks: &[],
    },
    Row {
        text: "cro 1 [ ht pu ]",
        ends: Ends::Done,
        spent: 4,
        looks: &[
            ("[hidden?] of turtle 0", Ends::Says("true")),
            ("[pen-mode] of turtle 0", Ends::Says("up")),
        ],
    },
    Row {
        text: "cro 1 [ ht st pd ]",
        ends: Ends::Done,
        spent: 5,
        looks: &[
            ("[hidden?] of turtle 0", Ends::Says("false")),
            ("[pen-mode] of turtle 0", Ends::Says("down")),
        ],
    },
    Row {
        text: "ask patch 0 0 [ set p 8 ] ask patch 1 1 [ set p 4 ] cro 1 [ setxy 1 0 uphill p ]",
        ends: Ends::Done,
        spent: 10,
        looks: &[
            ("[xcor] of turtle 0", Ends::Says("0")),
            ("[ycor] of turtle 0", Ends::Says("0")),
        ],
    },
    Row {
        text: "ask patch 1 1 [ set p -1 ] cro 1 [ downhill4 p ]",
        ends: Ends::Done,
        spent: 6,
        looks: &[("[xcor] of turtle 0", Ends::Says("0"))],
    },
    Row {
        text: "diffuse p 2",
        ends: Ends::Fails(ErrorKind::Domain, 0, 0),
        spent: 1,
        looks: &[],
    },
    Row {
        text: "diffuse p \"x\"",
        ends: Ends::Fails(ErrorKind::WrongType, 0, 0),
        spent: 1,
        looks: &[],
    },
    Row {
        text: "ask patch 0 0 [ set p \"x\" ] diffuse4 p 0.5",
        ends: Ends::Fails(ErrorKind::WrongType, 28, 0),
        spent: 4,
        looks: &[],
    },
    Row {
        text: "ask patch 0 0 [ set p 8 ] diffuse p 1",
        ends: Ends::Done,
        spent: 4,
        looks: &[
            ("[p] of patch 0 0", Ends::Says("0")),
            ("[p] of patch 1 1", Ends::Says("1")),
        ],
    },
    Row {
        text: "ask patch 0 0 [ set p 8 ] diffuse4 p 0.5",
        ends: Ends::Done,
        spent: 4,
        looks: &[
            ("[p] of patch 0 0", Ends::Says("4")),
            ("[p] of patch 1 0", Ends::Says("1")),
        ],
    },
];

#[test]
fn commands_of_turtles_end_as_told(rt: HostRuntime) {
    let wrong = wrong_in(rt.alloc(), MOVES_MODEL, BOX, MOVES, SLICES);
    assert!(rt; wrong.is_none(), "{wrong:?}");
}

// The same where the world wraps.
const WRAPS: &[Row] = &[
    Row {
        text: "cro 1 [ set xcor 2.5 ]",
        ends: Ends::Done,
        spent: 3,
        looks: &[("[xcor] of turtle 0", Ends::Says("-2.5"))],
    },
    Row {
        text: "cro 1 [ setxy -2 0 ]",
        ends: Ends::Done,
        spent: 3,
        looks: &[("[distancexy 2 0] of turtle 0", Ends::Says("1"))],
    },
    Row {
        text: "cro 1 [ set heading 90 fd 3 ]",
        ends: Ends::Done,
        spent: 7,
        looks: &[("[xcor] of turtle 0", Ends::Says("-2"))],
    },
];

#[test]
fn points_wrap(rt: HostRuntime) {
    let wrong = wrong_in(rt.alloc(), MOVES_MODEL, TORUS, WRAPS, SLICES);
    assert!(rt; wrong.is_none(), "{wrong:?}");
}

const SINGLE_PATCH: World = World {
    least: 0,
    greatest: 0,
    wraps: true,
};

// A world of one patch.
const SINGLE: &[Row] = &[Row {
    text: "ask patch 0 0 [ set p 8 ] diffuse p 1",
    ends: Ends::Done,
    spent: 4,
    looks: &[
        ("[p] of patch 0 0", Ends::Says("8")),
        ("[p] of patch 1 1", Ends::Says("8")),
    ],
}];

#[test]
fn one_patch_shares_with_itself(rt: HostRuntime) {
    let wrong = wrong_in(rt.alloc(), MOVES_MODEL, SINGLE_PATCH, SINGLE, SLICES);
    assert!(rt; wrong.is_none(), "{wrong:?}");
}

const SETS_MODEL: &str =
    "breed [foxes fox] breed [owls owl] undirected-link-breed [ropes rope] foxes-own [hunger] owls-own [hunger age] globals [g]";

// What a variable takes where it is set, and the error where it doesn't.
const SETS: &[Row] = &[
    Row {
        text: "cro 1 [ set color 145 set heading -90 set pcolor 280 ]",
        ends: Ends::Done,
        spent: 5,
        looks: &[
            ("[color] of turtle 0", Ends::Says("5")),
            ("[heading] of turtle 0", Ends::Says("270")),
            ("[pcolor] of patch 0 0", Ends::Says("0")),
        ],
    },
    Row {
        text: "cro 1 [ set color \"x\" ]",
        ends: Ends::Fails(ErrorKind::WrongType, 8, 0),
        spent: 3,
        looks: &[],
    },
    Row {
        text: "cro 1 [ set heading true ]",
        ends: Ends::Fails(ErrorKind::WrongType, 8, 0),
        spent: 3,
        looks: &[],
    },
    Row {
        text: "cro 1 [ set size \"x\" ]",
        ends: Ends::Fails(ErrorKind::WrongType, 8, 0),
        spent: 3,
        looks: &[],
    },
    Row {
        text: "cro 1 [ set hidden? 1 ]",
        ends: Ends::Fails(ErrorKind::WrongType, 8, 0),
        spent: 3,
        looks: &[],
    },
    Row {
        text: "cro 1 [ set shape 3 ]",
        ends: Ends::Fails(ErrorKind::WrongType, 8, 0),
        spent: 3,
        looks: &[],
    },
    Row {
        text: "cro 1 [ set pen-mode 3 ]",
        ends: Ends::Fails(ErrorKind::WrongType, 8, 0),
        spent: 3,
        looks: &[],
    },
    Row {
        text: "cro 1 [ set label [1] set label-color 5 ]",
        ends: Ends::Done,
        spent: 4,
        looks: &[("[label] of turtle 0", Ends::Says("[1]"))],
    },
    Row {
        text: "cro 1 [ set breed 3 ]",
        ends: Ends::Fails(ErrorKind::WrongType, 8, 0),
        spent: 3,
        looks: &[],
    },
    Row {
        text: "cro 1 [ set breed patches ]",
        ends: Ends::Fails(ErrorKind::WrongType, 8, 0),
        spent: 3,
        looks: &[],
    },
    Row {
        text: "ask patch 0 0 [ set pcolor \"x\" ]",
        ends: Ends::Fails(ErrorKind::WrongType, 16, 0),
        spent: 3,
        looks: &[],
    },
    Row {
        text: "ask patch 0 0 [ set plabel 7 ]",
        ends: Ends::Done,
        spent: 3,
        looks: &[("[plabel] of patch 0 0", Ends::Says("7"))],
    },
    Row {
        text: "create-foxes 1 [ set hunger 5 set breed owls ]",
        ends: Ends::Done,
        spent: 4,
        looks: &[
            ("[hunger] of owl 0", Ends::Says("5")),
            ("[age] of owl 0", Ends::Says("0")),
            ("count foxes", Ends::Says("0")),
        ],
    },
    Row {
        text: "create-foxes 1 cro 1 ask turtles [ set hunger 1 ]",
        ends: Ends::Fails(ErrorKind::NoVariable, 39, 0),
        spent: 5,
        looks: &[],
    },
    Row {
        text: "cro 1 show [hunger] of turtle 0",
        ends: Ends::Fails(ErrorKind::NoVariable, 12, 0),
        spent: 3,
        looks: &[],
    },
    Row {
        text: "cro 2 ask turtle 0 [ create-rope-with turtle 1 [ set thickness 2 set color 19 ] ]",
        ends: Ends::Done,
        spent: 7,
        looks: &[
            ("[thickness] of one-of links", Ends::Says("2")),
            ("[color] of one-of ropes", Ends::Says("19")),
        ],
    },
    Row {
        text: "cro 2 ask turtle 0 [ create-rope-with turtle 1 [ set breed links ] ]",
        ends: Ends::Fails(ErrorKind::LinkFault, 49, 0),
        spent: 6,
        looks: &[],
    },
    Row {
        text: "cro 2 ask turtle 0 [ create-rope-with turtle 1 [ set tie-mode 1 ] ]",
        ends: Ends::Fails(ErrorKind::WrongType, 49, 0),
        spent: 6,
        looks: &[],
    },
    Row {
        text: "cro 2 ask turtle 0 [ create-rope-with turtle 1 [ set thickness \"x\" ] ]",
        ends: Ends::Fails(ErrorKind::WrongType, 49, 0),
        spent: 6,
        looks: &[],
    },
    Row {
        text: "cro 1 [ set ycor 9 ]",
        ends: Ends::Fails(ErrorKind::OutOfWorld, 8, 0),
        spent: 3,
        looks: &[("[ycor] of turtle 0", Ends::Says("0"))],
    },
    Row {
        text: "cro 1 [ let x 1 set x \"a\" set g x ]",
        ends: Ends::Done,
        spent: 5,
        looks: &[("g", Ends::Says("a"))],
    },
    Row {
        text: "cro 1 [ set xcor 1 / 0 ]",
        ends: Ends::Fails(ErrorKind::ZeroDivide, 19, 0),
        spent: 3,
        looks: &[],
    },
    Row {
        text: "cro 1 [ set xcor \"x\" ]",
        ends: Ends::Fails(ErrorKind::WrongType, 8, 0),
        spent: 3,
        looks: &[],
    },
    Row {
        text: "cro 1 [ set label-color true ]",
        ends: Ends::Fails(ErrorKind::WrongType, 8, 0),
        spent: 3,
        looks: &[],
    },
    Row {
        text: "cro 1 [ set pen-size nobody ]",
        ends: Ends::Fails(ErrorKind::WrongType, 8, 0),
        spent: 3,
        looks: &[],
    },
    Row {
        text: "ask patch 0 0 [ set plabel-color [] ]",
        ends: Ends::Fails(ErrorKind::WrongType, 16, 0),
        spent: 3,
        looks: &[],
    },
    Row {
        text: "cro 2 ask turtle 0 [ create-rope-with turtle 1 [ set hidden? 3 ] ]",
        ends: Ends::Fails(ErrorKind::WrongType, 49, 0),
        spent: 6,
        looks: &[],
    },
    Row {
        text: "cro 2 ask turtle 0 [ create-rope-with turtle 1 [ set color \"x\" ] ]",
        ends: Ends::Fails(ErrorKind::WrongType, 49, 0),
        spent: 6,
        looks: &[],
    },
    Row {
        text: "cro 2 ask turtle 0 [ create-rope-with turtle 1 [ set shape 3 ] ]",
        ends: Ends::Fails(ErrorKind::WrongType, 49, 0),
        spent: 6,
        looks: &[],
    },
    Row {
        text: "cro 2 ask turtle 0 [ create-rope-with turtle 1 [ set label 3 set thickness 0.5 ] ]",
        ends: Ends::Done,
        spent: 7,
        looks: &[
            ("[label] of one-of links", Ends::Says("3")),
            ("[thickness] of one-of links", Ends::Says("0.5")),
        ],
    },
];

#[test]
fn variables_take_what_they_may(rt: HostRuntime) {
    let wrong = wrong_in(rt.alloc(), SETS_MODEL, BOX, SETS, SLICES);
    assert!(rt; wrong.is_none(), "{wrong:?}");
}
