//! Statements, turns and steps that can be done without frames, and what keeps them from it.
use crate::playing::{wrong_in, wrong_with};
use crate::rows::{AT_ONCE, BOX, Ends, FINE, Row, WIDE};
use nl_exec_acts::ErrorKind;

const MODEL: &str =
    "globals [a b c g] turtles-own [t] patches-own [p] breed [cats cat] cats-own [m] to down [n] let k n if n > 0 [ down n - 1 ] set k k * 10 set a a + k end to part ask turtles [ set a a + 1 if a = 2 [ set b 1 / 0 ] ] end";

const DIVE: &str =
    "globals [a b c] to sink [n] ifelse n > 0 [ sink n - 1 ] [ set a a + 1 set b a * 2 + 1 repeat 2 [ set c c + a ] ] end";

// Where units end in statements and in turns of `repeat`.
const UNITS: &[(u64, Row)] = &[
    // Before a statement, and after it.
    (
        1,
        Row {
            text: "set a 1 set b 2",
            ends: Ends::Budget,
            spent: 1,
            looks: &[("(list a b)", Ends::Says("[1 0]"))],
        },
    ),
    (
        2,
        Row {
            text: "set a 1 set b 2",
            ends: Ends::Done,
            spent: 2,
            looks: &[("(list a b)", Ends::Says("[1 2]"))],
        },
    ),
    // Before and behind an `if` whose test is false.
    (
        1,
        Row {
            text: "set a 1 if a > 1 [ set b 1 ] set c 1",
            ends: Ends::Budget,
            spent: 1,
            looks: &[("(list a b c)", Ends::Says("[1 0 0]"))],
        },
    ),
    (
        2,
        Row {
            text: "set a 1 if a > 1 [ set b 1 ] set c 1",
            ends: Ends::Budget,
            spent: 2,
            looks: &[("(list a b c)", Ends::Says("[1 0 0]"))],
        },
    ),
    (
        3,
        Row {
            text: "set a 1 if a > 1 [ set b 1 ] set c 1",
            ends: Ends::Done,
            spent: 3,
            looks: &[("(list a b c)", Ends::Says("[1 0 1]"))],
        },
    ),
    // Before a turn of `repeat`, before and behind each statement of it, and at its end.
    (
        1,
        Row {
            text: "repeat 3 [ set a a + 1 set b b + a ]",
            ends: Ends::Budget,
            spent: 1,
            looks: &[("(list a b)", Ends::Says("[0 0]"))],
        },
    ),
    (
        2,
        Row {
            text: "repeat 3 [ set a a + 1 set b b + a ]",
            ends: Ends::Budget,
            spent: 2,
            looks: &[("(list a b)", Ends::Says("[0 0]"))],
        },
    ),
    (
        3,
        Row {
            text: "repeat 3 [ set a a + 1 set b b + a ]",
            ends: Ends::Budget,
            spent: 3,
            looks: &[("(list a b)", Ends::Says("[1 0]"))],
        },
    ),
    (
        4,
        Row {
            text: "repeat 3 [ set a a + 1 set b b + a ]",
            ends: Ends::Budget,
            spent: 4,
            looks: &[("(list a b)", Ends::Says("[1 1]"))],
        },
    ),
    (
        9,
        Row {
            text: "repeat 3 [ set a a + 1 set b b + a ]",
            ends: Ends::Budget,
            spent: 9,
            looks: &[("(list a b)", Ends::Says("[3 3]"))],
        },
    ),
    (
        10,
        Row {
            text: "repeat 3 [ set a a + 1 set b b + a ]",
            ends: Ends::Done,
            spent: 10,
            looks: &[("(list a b)", Ends::Says("[3 6]"))],
        },
    ),
];

#[test]
fn units_end_in_the_midst_of_statements(rt: HostRuntime) {
    let wrong = wrong_with(rt.alloc(), MODEL, WIDE, UNITS, FINE);
    assert!(rt; wrong.is_none(), "{wrong:?}");
}

// Where units end in turns of `ask` and in steps.
const TURNS: &[(u64, Row)] = &[
    // Before a turn of `ask`, before and behind each statement of it, and at its end.
    (
        2,
        Row {
            text: "cro 2 ask turtles [ set t 1 set a a + t ]",
            ends: Ends::Budget,
            spent: 2,
            looks: &[("a", Ends::Says("0"))],
        },
    ),
    (
        3,
        Row {
            text: "cro 2 ask turtles [ set t 1 set a a + t ]",
            ends: Ends::Budget,
            spent: 3,
            looks: &[("a", Ends::Says("0"))],
        },
    ),
    (
        4,
        Row {
            text: "cro 2 ask turtles [ set t 1 set a a + t ]",
            ends: Ends::Budget,
            spent: 4,
            looks: &[("a", Ends::Says("0"))],
        },
    ),
    (
        5,
        Row {
            text: "cro 2 ask turtles [ set t 1 set a a + t ]",
            ends: Ends::Budget,
            spent: 5,
            looks: &[("a", Ends::Says("1"))],
        },
    ),
    (
        6,
        Row {
            text: "cro 2 ask turtles [ set t 1 set a a + t ]",
            ends: Ends::Budget,
            spent: 6,
            looks: &[("a", Ends::Says("1"))],
        },
    ),
    (
        7,
        Row {
            text: "cro 2 ask turtles [ set t 1 set a a + t ]",
            ends: Ends::Budget,
            spent: 7,
            looks: &[("a", Ends::Says("1"))],
        },
    ),
    (
        8,
        Row {
            text: "cro 2 ask turtles [ set t 1 set a a + t ]",
            ends: Ends::Done,
            spent: 8,
            looks: &[("a", Ends::Says("2"))],
        },
    ),
    // Before `fd 1`, between it and its step, behind the step, and at the end.
    (
        2,
        Row {
            text: "cro 1 [ fd 1 set a 1 ]",
            ends: Ends::Budget,
            spent: 2,
            looks: &[("(list a count turtles-on patch 0 0)", Ends::Says("[0 1]"))],
        },
    ),
    (
        3,
        Row {
            text: "cro 1 [ fd 1 set a 1 ]",
            ends: Ends::Budget,
            spent: 3,
            looks: &[("(list a count turtles-on patch 0 0)", Ends::Says("[0 1]"))],
        },
    ),
    (
        4,
        Row {
            text: "cro 1 [ fd 1 set a 1 ]",
            ends: Ends::Budget,
            spent: 4,
            looks: &[("(list a count turtles-on patch 0 1)", Ends::Says("[0 1]"))],
        },
    ),
    (
        5,
        Row {
            text: "cro 1 [ fd 1 set a 1 ]",
            ends: Ends::Done,
            spent: 5,
            looks: &[("(list a count turtles-on patch 0 1)", Ends::Says("[1 1]"))],
        },
    ),
];

#[test]
fn units_end_in_the_midst_of_turns(rt: HostRuntime) {
    let wrong = wrong_with(rt.alloc(), MODEL, WIDE, TURNS, FINE);
    assert!(rt; wrong.is_none(), "{wrong:?}");
}

// Statements in turns of `repeat`.
const STATEMENTS: &[Row] = &[
    // No turn is taken.
    Row {
        text: "repeat 0 [ set a 1 ] set b 1",
        ends: Ends::Done,
        spent: 2,
        looks: &[("(list a b)", Ends::Says("[0 1]"))],
    },
    // A sum overflows in the third turn.
    Row {
        text: "set a 4e12 repeat 5 [ set a a + 2e12 set b b + 1 ]",
        ends: Ends::Fails(ErrorKind::Overflow, 30, 0),
        spent: 10,
        looks: &[("(list a b)", Ends::Says("[8000000000000 2]"))],
    },
    // A number is divided by zero in the third turn, and taken modulo zero in the test of an `if`.
    Row {
        text: "set a 3 repeat 5 [ set a a - 1 set b 6 / a ]",
        ends: Ends::Fails(ErrorKind::ZeroDivide, 39, 0),
        spent: 11,
        looks: &[("(list a b)", Ends::Says("[0 6]"))],
    },
    Row {
        text: "set a 2 repeat 5 [ set a a - 1 if 7 mod a > 0 [ set b 9 ] set b b + 1 ]",
        ends: Ends::Fails(ErrorKind::ZeroDivide, 36, 0),
        spent: 9,
        looks: &[("(list a b)", Ends::Says("[0 1]"))],
    },
    // Numbers of each sign.
    Row {
        text: "repeat 1 [ set a -7 mod 3 set b 7 mod -3 set c 1 / 3 ]",
        ends: Ends::Done,
        spent: 5,
        looks: &[("(list a b c)", Ends::Says("[2 -2 0.333333]"))],
    },
    // A local that holds a list becomes a number, and the other way.
    Row {
        text: "let x [1 2] repeat 2 [ set x 3 set a a + x ]",
        ends: Ends::Done,
        spent: 8,
        looks: &[("a", Ends::Says("6"))],
    },
    Row {
        text: "let x 1 repeat 2 [ set a x set x [1 2] ] set b x",
        ends: Ends::Done,
        spent: 9,
        looks: &[("(list a b)", Ends::Says("[[1 2] [1 2]]"))],
    },
    // The newest local of a name is set, and a local of a block goes with it.
    Row {
        text: "down 2",
        ends: Ends::Done,
        spent: 15,
        looks: &[("a", Ends::Says("30"))],
    },
    Row {
        text: "let x 1 repeat 2 [ set x x + 1 let y x set a a + y ] set b x",
        ends: Ends::Done,
        spent: 11,
        looks: &[("(list a b)", Ends::Says("[5 3]"))],
    },
    // An `if` whose test is false, one whose test is true, and both, with statements behind them.
    Row {
        text: "set a 1 if a > 1 [ set b 1 ] set c 1",
        ends: Ends::Done,
        spent: 3,
        looks: &[("(list a b c)", Ends::Says("[1 0 1]"))],
    },
    Row {
        text: "set a 2 if a > 1 [ set b 1 ] set c 1",
        ends: Ends::Done,
        spent: 4,
        looks: &[("(list a b c)", Ends::Says("[2 1 1]"))],
    },
    Row {
        text: "repeat 3 [ set a a + 1 if a = 2 [ set b b + 10 ] set c c + 1 ]",
        ends: Ends::Done,
        spent: 14,
        looks: &[("(list a b c)", Ends::Says("[3 10 3]"))],
    },
    // Each comparison of less, of the same and of more.
    Row {
        text: "repeat 3 [ set a a + 1 if a < 2 [ set b b + 1 ] if a <= 2 [ set b b + 10 ] if a > 2 [ set b b + 100 ] if a >= 2 [ set b b + 1000 ] if a != 2 [ set b b + 10000 ] if a = 2 [ set b b + 100000 ] ]",
        ends: Ends::Done,
        spent: 34,
        looks: &[("b", Ends::Says("122121"))],
    },
    // A number and a text are never the same, and have no order.
    Row {
        text: "repeat 2 [ if a = \"x\" [ set b 1 ] set c c + 1 ]",
        ends: Ends::Done,
        spent: 7,
        looks: &[("(list a b c)", Ends::Says("[0 0 2]"))],
    },
    Row {
        text: "repeat 2 [ set c c + 1 if a < \"x\" [ ] ]",
        ends: Ends::Fails(ErrorKind::WrongType, 28, 0),
        spent: 4,
        looks: &[("c", Ends::Says("1"))],
    },
];

#[test]
fn statements_end_as_told(rt: HostRuntime) {
    let wrong = wrong_in(rt.alloc(), MODEL, WIDE, STATEMENTS, FINE);
    assert!(rt; wrong.is_none(), "{wrong:?}");
}

// Operators in operators.
const EXPRESSIONS: &[Row] = &[
    // Operators nested one deep, and further to six deep.
    Row {
        text: "set a 2 repeat 2 [ set b a + 1 ]",
        ends: Ends::Done,
        spent: 6,
        looks: &[("b", Ends::Says("3"))],
    },
    Row {
        text: "set a 2 repeat 2 [ set b a + 1 - a * 2 ]",
        ends: Ends::Done,
        spent: 6,
        looks: &[("b", Ends::Says("-1"))],
    },
    Row {
        text: "set a 2 repeat 2 [ set b a + 1 - a * 2 + a ]",
        ends: Ends::Done,
        spent: 6,
        looks: &[("b", Ends::Says("1"))],
    },
    Row {
        text: "set a 2 repeat 2 [ set b a + 1 - a * 2 + a - 5 ]",
        ends: Ends::Done,
        spent: 6,
        looks: &[("b", Ends::Says("-4"))],
    },
    Row {
        text: "set a 2 repeat 2 [ set b a + 1 - a * 2 + a - 5 + 7 ]",
        ends: Ends::Done,
        spent: 6,
        looks: &[("b", Ends::Says("3"))],
    },
    Row {
        text: "set a 2 repeat 2 [ set b a + 1 - a * 2 + a - 5 + 7 - a ]",
        ends: Ends::Done,
        spent: 6,
        looks: &[("b", Ends::Says("1"))],
    },
    // The same on the right side, and in parentheses.
    Row {
        text: "set a 2 repeat 2 [ set b a - (1 - (a - (3 - (a - (5 - a))))) ]",
        ends: Ends::Done,
        spent: 6,
        looks: &[("b", Ends::Says("-1"))],
    },
    // A comparison of such, two, three and four deep.
    Row {
        text: "set a 2 repeat 2 [ if a + 1 > a * 2 [ set b 1 ] set c c + 1 ]",
        ends: Ends::Done,
        spent: 8,
        looks: &[("(list a b c)", Ends::Says("[2 0 2]"))],
    },
    Row {
        text: "set a 2 repeat 2 [ if a * 2 - a + 1 > a [ set b b + 1 ] set c c + 1 ]",
        ends: Ends::Done,
        spent: 10,
        looks: &[("(list a b c)", Ends::Says("[2 2 2]"))],
    },
    Row {
        text: "set a 2 repeat 2 [ if a * 2 - a + 1 - 3 > a [ set b b + 1 ] set c c + 1 ]",
        ends: Ends::Done,
        spent: 8,
        looks: &[("(list a b c)", Ends::Says("[2 0 2]"))],
    },
    // An operator that fails inside of others.
    Row {
        text: "set a 2 repeat 2 [ set b a + 1 - a * 2 + 9e12 - 5 + 7 - a set c c + 1 ]",
        ends: Ends::Fails(ErrorKind::Overflow, 50, 0),
        spent: 4,
        looks: &[("(list a b)", Ends::Says("[2 0]"))],
    },
];

#[test]
fn expressions_end_as_told(rt: HostRuntime) {
    let wrong = wrong_in(rt.alloc(), MODEL, WIDE, EXPRESSIONS, FINE);
    assert!(rt; wrong.is_none(), "{wrong:?}");
}

// Variables of agents, and who may run and read what.
const AGENTS: &[Row] = &[
    // A heading, a color and a size, each by its rule.
    Row {
        text: "cro 1 ask turtles [ set heading 400 set color 150 set size 2 set a heading set b color set c size ]",
        ends: Ends::Done,
        spent: 9,
        looks: &[("(list a b c)", Ends::Says("[40 10 2]"))],
    },
    // A turtle's own variable, and one of its patch.
    Row {
        text: "cro 2 ask turtles [ set t 3 set p p + 2 set a a + t + p ]",
        ends: Ends::Done,
        spent: 10,
        looks: &[(
            "(list a [p] of patch 0 0 [t] of turtle 0)",
            Ends::Says("[12 4 3]"),
        )],
    },
    // A patch's own variable and its color, and the place of a patch.
    Row {
        text: "ask patch 1 1 [ set p 4 set pcolor 155 set a p * pcolor ]",
        ends: Ends::Done,
        spent: 5,
        looks: &[("a", Ends::Says("60"))],
    },
    Row {
        text: "ask patches [ set p pxcor * 10 + pycor set a a + p ]",
        ends: Ends::Done,
        spent: 76,
        looks: &[("(list a [p] of patch -1 2)", Ends::Says("[0 -8]"))],
    },
    // A link's own variable.
    Row {
        text: "cro 2 ask turtle 0 [ create-link-with turtle 1 ] ask links [ set thickness 0.5 set a thickness ]",
        ends: Ends::Done,
        spent: 8,
        looks: &[("a", Ends::Says("0.5"))],
    },
    // A word that the agent may not run, and a variable that it may not read, behind what is done at once.
    Row {
        text: "set g patch 0 0 ask g [ set a 1 fd 1 set b 1 ]",
        ends: Ends::Fails(ErrorKind::WrongContext, 32, 0),
        spent: 5,
        looks: &[("(list a b)", Ends::Says("[1 0]"))],
    },
    Row {
        text: "set g patch 0 0 ask g [ set a 1 set b t ]",
        ends: Ends::Fails(ErrorKind::WrongContext, 38, 0),
        spent: 5,
        looks: &[("(list a b)", Ends::Says("[1 0]"))],
    },
    // A variable that the turtle doesn't have.
    Row {
        text: "cro 1 ask turtles [ set t 1 set m 2 set a 1 ]",
        ends: Ends::Fails(ErrorKind::NoVariable, 32, 0),
        spent: 5,
        looks: &[("a", Ends::Says("0"))],
    },
    // An ask in an ask: who asks, and whose variables are meant behind it.
    Row {
        text: "cro 2 ask turtles [ ask patch 1 1 [ set p p + 1 ] set a a + 1 ]",
        ends: Ends::Done,
        spent: 12,
        looks: &[("(list a [p] of patch 1 1)", Ends::Says("[2 2]"))],
    },
    Row {
        text: "cro 3 ask turtle 1 [ ask other turtles [ set t 4 set b b + 1 if b = 2 [ set a [who] of myself ] ] set c t ]",
        ends: Ends::Done,
        spent: 15,
        looks: &[("(list a b c)", Ends::Says("[1 2 0]"))],
    },
    Row {
        text: "cro 3 ask turtles [ ask turtles [ set t t + 1 set a a + 1 ] set b b + t ]",
        ends: Ends::Done,
        spent: 38,
        looks: &[("(list a b)", Ends::Says("[9 6]"))],
    },
];

#[test]
fn agents_set_what_they_own(rt: HostRuntime) {
    let wrong = wrong_in(rt.alloc(), MODEL, BOX, AGENTS, FINE);
    assert!(rt; wrong.is_none(), "{wrong:?}");
}

// What ends a turn early.
const LEAVES: &[Row] = &[
    // A turtle dies in the midst of its block.
    Row {
        text: "cro 1 ask turtles [ set t 1 die set a 1 ] set b 1",
        ends: Ends::Done,
        spent: 6,
        looks: &[("(list a b)", Ends::Says("[0 1]"))],
    },
    Row {
        text: "cro 3 ask turtles [ set a a + 1 if who = 1 [ die ] set b b + 1 ]",
        ends: Ends::Done,
        spent: 14,
        looks: &[("(list a b count turtles)", Ends::Says("[3 2 2]"))],
    },
    Row {
        text: "cro 1 ask turtles [ repeat 3 [ set a a + 1 if a = 2 [ die ] ] set b 1 ] set c 1",
        ends: Ends::Done,
        spent: 12,
        looks: &[("(list a b c)", Ends::Says("[2 0 1]"))],
    },
    // Those who die before their turn have none.
    Row {
        text: "cro 6 ask turtles [ set a a + 1 if a = 1 [ ask turtle 5 [ die ] ] set b b * 10 + who ]",
        ends: Ends::Done,
        spent: 25,
        looks: &[("(list a b count turtles)", Ends::Says("[5 10243 5]"))],
    },
    // Who asks dies: the one who is asked goes on.
    Row {
        text: "cro 2 ask turtle 0 [ ask turtle 1 [ ask turtle 0 [ die ] set a 1 ] set b 1 ] set c 1",
        ends: Ends::Done,
        spent: 10,
        looks: &[("(list a b c)", Ends::Says("[1 0 1]"))],
    },
    // The second turn fails, in the body of a procedure.
    Row {
        text: "cro 3 part",
        ends: Ends::Fails(ErrorKind::ZeroDivide, 206, 2),
        spent: 10,
        looks: &[("(list a b)", Ends::Says("[2 0]"))],
    },
    // `stop` in the midst of a turn.
    Row {
        text: "cro 2 ask turtles [ set a a + 1 stop set b 1 ] set c 1",
        ends: Ends::Done,
        spent: 9,
        looks: &[("(list a b c)", Ends::Says("[2 0 1]"))],
    },
    Row {
        text: "repeat 3 [ set a a + 1 if a = 2 [ stop ] ] set b 1",
        ends: Ends::Stopped,
        spent: 8,
        looks: &[("(list a b)", Ends::Says("[2 0]"))],
    },
];

#[test]
fn turns_end_early(rt: HostRuntime) {
    let wrong = wrong_in(rt.alloc(), MODEL, BOX, LEAVES, FINE);
    assert!(rt; wrong.is_none(), "{wrong:?}");
}

// Steps in a world with edges.
const WALKS: &[Row] = &[
    // No step, a part of one, one, and more than one.
    Row {
        text: "cro 1 [ fd 0 set a 1 ]",
        ends: Ends::Done,
        spent: 4,
        looks: &[("[ycor] of turtle 0", Ends::Says("0"))],
    },
    Row {
        text: "cro 1 [ fd 0.5 ]",
        ends: Ends::Done,
        spent: 4,
        looks: &[("[ycor] of turtle 0", Ends::Says("0.5"))],
    },
    Row {
        text: "cro 1 [ fd 1 ]",
        ends: Ends::Done,
        spent: 4,
        looks: &[("[ycor] of turtle 0", Ends::Says("1"))],
    },
    Row {
        text: "cro 1 [ fd 1.5 ]",
        ends: Ends::Done,
        spent: 5,
        looks: &[("[ycor] of turtle 0", Ends::Says("1.5"))],
    },
    Row {
        text: "cro 1 [ fd 2 bk 0.000001 ]",
        ends: Ends::Done,
        spent: 7,
        looks: &[("[ycor] of turtle 0", Ends::Says("1.999999"))],
    },
    // Against the edge: the step that would leave the world has its unit, and is the last one.
    Row {
        text: "cro 1 [ fd 3 set a 1 ]",
        ends: Ends::Done,
        spent: 7,
        looks: &[("[ycor] of turtle 0", Ends::Says("2"))],
    },
    Row {
        text: "cro 1 [ fd 9 ]",
        ends: Ends::Done,
        spent: 6,
        looks: &[("[ycor] of turtle 0", Ends::Says("2"))],
    },
    Row {
        text: "cro 1 [ set ycor 2 fd 1 set a 1 ]",
        ends: Ends::Done,
        spent: 6,
        looks: &[("(list a [ycor] of turtle 0)", Ends::Says("[1 2]"))],
    },
    Row {
        text: "cro 1 [ set ycor 2 fd 0.5 fd 0.4 ]",
        ends: Ends::Done,
        spent: 7,
        looks: &[("[ycor] of turtle 0", Ends::Says("2.4"))],
    },
    Row {
        text: "cro 1 [ set ycor -2 bk 1 set a 1 ]",
        ends: Ends::Done,
        spent: 6,
        looks: &[("(list a [ycor] of turtle 0)", Ends::Says("[1 -2]"))],
    },
    Row {
        text: "cro 1 [ set ycor -2 bk 0.5 ]",
        ends: Ends::Done,
        spent: 5,
        looks: &[("[ycor] of turtle 0", Ends::Says("-2.5"))],
    },
    Row {
        text: "cro 1 [ repeat 4 [ fd 1 ] ]",
        ends: Ends::Done,
        spent: 15,
        looks: &[("[ycor] of turtle 0", Ends::Says("2"))],
    },
    // Back, and by negative distances.
    Row {
        text: "cro 1 [ bk 1 fd -1 bk -1 ]",
        ends: Ends::Done,
        spent: 8,
        looks: &[("[ycor] of turtle 0", Ends::Says("-1"))],
    },
    Row {
        text: "cro 1 [ set t 0.25 repeat 2 [ bk t * 3 ] ]",
        ends: Ends::Done,
        spent: 10,
        looks: &[("[ycor] of turtle 0", Ends::Says("-1.5"))],
    },
];

#[test]
fn steps_end_at_the_edge(rt: HostRuntime) {
    let wrong = wrong_in(rt.alloc(), MODEL, BOX, WALKS, FINE);
    assert!(rt; wrong.is_none(), "{wrong:?}");
}

// Statements at the bottom of a procedure that calls itself, near the limit of 200,000 nodes in each other.
const DEEP: &[Row] = &[
    // All that stands at the bottom fits: its deepest node is the 199,994th, and so on to the last one.
    Row {
        text: "sink 49996",
        ends: Ends::Done,
        spent: 100_001,
        looks: &[("(list a b c)", Ends::Says("[1 3 2]"))],
    },
    Row {
        text: "(sink 49996)",
        ends: Ends::Done,
        spent: 100_001,
        looks: &[("(list a b c)", Ends::Says("[1 3 2]"))],
    },
    Row {
        text: "if true [ sink 49996 ]",
        ends: Ends::Done,
        spent: 100_002,
        looks: &[("(list a b c)", Ends::Says("[1 3 2]"))],
    },
    Row {
        text: "if true [ (sink 49996) ]",
        ends: Ends::Done,
        spent: 100_002,
        looks: &[("(list a b c)", Ends::Says("[1 3 2]"))],
    },
    Row {
        text: "sink 49997",
        ends: Ends::Done,
        spent: 100_003,
        looks: &[("(list a b c)", Ends::Says("[1 3 2]"))],
    },
    Row {
        text: "(sink 49997)",
        ends: Ends::Done,
        spent: 100_003,
        looks: &[("(list a b c)", Ends::Says("[1 3 2]"))],
    },
    Row {
        text: "if true [ sink 49997 ]",
        ends: Ends::Done,
        spent: 100_004,
        looks: &[("(list a b c)", Ends::Says("[1 3 2]"))],
    },
    // The last statement is too deep, then the second, then the first, and then the test above them.
    Row {
        text: "if true [ (sink 49997) ]",
        ends: Ends::Fails(ErrorKind::TooNested, 103, 1),
        spent: 100_002,
        looks: &[("(list a b c)", Ends::Says("[1 3 0]"))],
    },
    Row {
        text: "sink 49998",
        ends: Ends::Fails(ErrorKind::TooNested, 76, 1),
        spent: 100_000,
        looks: &[("(list a b)", Ends::Says("[1 0]"))],
    },
    Row {
        text: "(sink 49998)",
        ends: Ends::Fails(ErrorKind::TooNested, 64, 1),
        spent: 99_999,
        looks: &[("(list a b)", Ends::Says("[0 0]"))],
    },
    Row {
        text: "if true [ sink 49998 ]",
        ends: Ends::Fails(ErrorKind::TooNested, 66, 1),
        spent: 100_000,
        looks: &[("(list a b)", Ends::Says("[0 0]"))],
    },
    Row {
        text: "if true [ (sink 49998) ]",
        ends: Ends::Fails(ErrorKind::TooNested, 35, 1),
        spent: 99_999,
        looks: &[("(list a b)", Ends::Says("[0 0]"))],
    },
    // The same in a turn of agents.
    Row {
        text: "cro 2 ask turtles [ sink 49997 ]",
        ends: Ends::Done,
        spent: 200_010,
        looks: &[("(list a b c)", Ends::Says("[2 5 6]"))],
    },
];

#[test]
fn the_deepest_statements_end_as_told(rt: HostRuntime) {
    let wrong = wrong_in(rt.alloc(), DIVE, WIDE, DEEP, AT_ONCE);
    assert!(rt; wrong.is_none(), "{wrong:?}");
}
