//! Statements, loops, calls and lone reporters.
use crate::playing::wrong_in;
use crate::rows::{Ends, Row, SLICES, WAYS, WIDE};
use nl_exec_acts::ErrorKind;

const MODEL: &str =
    "globals [a b] to-report twice [n] let x n report x + n end to-report nothing if false [ report 1 ] end to-report halts ask patch 0 0 [ stop set a 9 ] report a end to leave [n] set a n stop set a 99 end to nest set a 1 repeat 3 [ if true [ stop ] set a 2 ] set a 3 end to-report fact [n] if n < 2 [ report 1 ] let m n report m * fact (n - 1) end to-report loops loop [ set a a + 1 if a > 4 [ report a ] ] end to outer leave 5 set b 7 end";

// Blocks, loops and calls.
const BLOCKS: &[Row] = &[
    Row {
        text: "if 1 < 2 [ set a 1 ] if 2 < 1 [ set a 2 ]",
        ends: Ends::Done,
        spent: 3,
        looks: &[("a", Ends::Says("1"))],
    },
    Row {
        text: "ifelse 2 < 1 [ set a 1 ] [ set a 2 ]",
        ends: Ends::Done,
        spent: 2,
        looks: &[("a", Ends::Says("2"))],
    },
    Row {
        text: "set a ifelse-value (1 < 2) [ 3 ] [ 1 / 0 ]",
        ends: Ends::Done,
        spent: 1,
        looks: &[("a", Ends::Says("3"))],
    },
    Row {
        text: "repeat 2.9 [ set a a + 1 ] repeat -3 [ set a 9 ]",
        ends: Ends::Done,
        spent: 6,
        looks: &[("a", Ends::Says("2"))],
    },
    Row {
        text: "while [a < 3] [ set a a + 1 ]",
        ends: Ends::Done,
        spent: 11,
        looks: &[("a", Ends::Says("3"))],
    },
    Row {
        text: "loop [ set a a + 1 if a = 4 [ stop ] ] set b 1",
        ends: Ends::Stopped,
        spent: 14,
        looks: &[("a", Ends::Says("4")), ("b", Ends::Says("0"))],
    },
    Row {
        text: "if 1 [ set a 1 ]",
        ends: Ends::Fails(ErrorKind::WrongType, 0, 0),
        spent: 1,
        looks: &[],
    },
    Row {
        text: "repeat \"x\" [ set a 1 ]",
        ends: Ends::Fails(ErrorKind::WrongType, 0, 0),
        spent: 1,
        looks: &[],
    },
    Row {
        text: "while [1] [ set a 1 ]",
        ends: Ends::Fails(ErrorKind::WrongType, 0, 0),
        spent: 2,
        looks: &[],
    },
    Row {
        text: "ifelse nobody [ ] [ ]",
        ends: Ends::Fails(ErrorKind::WrongType, 0, 0),
        spent: 1,
        looks: &[],
    },
    Row {
        text: "set a ifelse-value 0 [ 1 ] [ 2 ]",
        ends: Ends::Fails(ErrorKind::WrongType, 6, 0),
        spent: 1,
        looks: &[],
    },
    Row {
        text: "if true and 1 [ ]",
        ends: Ends::Fails(ErrorKind::WrongType, 8, 0),
        spent: 1,
        looks: &[],
    },
    Row {
        text: "if false and 1 [ set a 1 ] if true or 1 [ set a 2 ]",
        ends: Ends::Done,
        spent: 3,
        looks: &[("a", Ends::Says("2"))],
    },
    Row {
        text: "if 1 or true [ ]",
        ends: Ends::Fails(ErrorKind::WrongType, 5, 0),
        spent: 1,
        looks: &[],
    },
    Row {
        text: "set a (1 < 2) and (2 < 3)",
        ends: Ends::Done,
        spent: 1,
        looks: &[("a", Ends::Says("true"))],
    },
];

#[test]
fn blocks_end_as_told(rt: HostRuntime) {
    let wrong = wrong_in(rt.alloc(), MODEL, WIDE, BLOCKS, WAYS);
    assert!(rt; wrong.is_none(), "{wrong:?}");
}

// Calls: locals of one name at each level, `stop` and `report` at each depth.
const CALLS: &[Row] = &[
    Row {
        text: "set a twice 4",
        ends: Ends::Done,
        spent: 3,
        looks: &[("a", Ends::Says("8"))],
    },
    Row {
        text: "set a fact 6",
        ends: Ends::Done,
        spent: 18,
        looks: &[("a", Ends::Says("720"))],
    },
    Row {
        text: "let x 1 if true [ let y 2 set a x + y ] repeat 2 [ let y 3 set b b + y ]",
        ends: Ends::Done,
        spent: 11,
        looks: &[("a", Ends::Says("3")), ("b", Ends::Says("6"))],
    },
    Row {
        text: "let x 1 while [x < 3] [ let z x set x z + 1 ] set a x",
        ends: Ends::Done,
        spent: 12,
        looks: &[("a", Ends::Says("3"))],
    },
    Row {
        text: "leave 3 set b 2",
        ends: Ends::Stopped,
        spent: 4,
        looks: &[("a", Ends::Says("3")), ("b", Ends::Says("2"))],
    },
    Row {
        text: "outer",
        ends: Ends::Done,
        spent: 5,
        looks: &[("a", Ends::Says("5")), ("b", Ends::Says("7"))],
    },
    Row {
        text: "nest set b 4",
        ends: Ends::Stopped,
        spent: 7,
        looks: &[("a", Ends::Says("1")), ("b", Ends::Says("4"))],
    },
    Row {
        text: "if true [ leave 6 ] set b 1",
        ends: Ends::Done,
        spent: 5,
        looks: &[("a", Ends::Says("6")), ("b", Ends::Says("1"))],
    },
    Row {
        text: "set a nothing",
        ends: Ends::Fails(ErrorKind::NoReport, 6, 0),
        spent: 2,
        looks: &[],
    },
    Row {
        text: "set a halts",
        ends: Ends::Done,
        spent: 5,
        looks: &[],
    },
    Row {
        text: "set b loops",
        ends: Ends::Done,
        spent: 18,
        looks: &[("a", Ends::Says("5")), ("b", Ends::Says("5"))],
    },
    Row {
        text: "set a twice \"x\"",
        ends: Ends::Fails(ErrorKind::WrongType, 51, 1),
        spent: 3,
        looks: &[],
    },
    Row {
        text: "leave 1 / 0",
        ends: Ends::Fails(ErrorKind::ZeroDivide, 8, 0),
        spent: 1,
        looks: &[("a", Ends::Says("0"))],
    },
    Row {
        text: "stop set a 1",
        ends: Ends::Stopped,
        spent: 1,
        looks: &[("a", Ends::Says("0"))],
    },
    Row {
        text: "repeat 3 [ set a a + 1 stop ] set b 1",
        ends: Ends::Stopped,
        spent: 4,
        looks: &[("a", Ends::Says("1")), ("b", Ends::Says("0"))],
    },
    Row {
        text: "if true [ if true [ set a 1 stop ] set a 2 ] set a 3",
        ends: Ends::Stopped,
        spent: 4,
        looks: &[("a", Ends::Says("1"))],
    },
    Row {
        text: "ifelse true [ let y 1 set a y ] [ let y 2 set a y ] let y 5 set b y",
        ends: Ends::Done,
        spent: 5,
        looks: &[("a", Ends::Says("1")), ("b", Ends::Says("5"))],
    },
    Row {
        text: "loop [ let y a + 1 set a y if y > 2 [ stop ] ]",
        ends: Ends::Stopped,
        spent: 14,
        looks: &[("a", Ends::Says("3"))],
    },
    Row {
        text: "let y 4 leave y set b y",
        ends: Ends::Stopped,
        spent: 5,
        looks: &[("a", Ends::Says("4")), ("b", Ends::Says("4"))],
    },
    Row {
        text: "set a \"ab\" repeat 19 [ set a (word a a) ]",
        ends: Ends::Fails(ErrorKind::TooLarge, 30, 0),
        spent: 40,
        looks: &[],
    },
    Row {
        text: "set a [] repeat 1200 [ set a (list a) ]",
        ends: Ends::Fails(ErrorKind::TooLarge, 30, 0),
        spent: 402,
        looks: &[],
    },
];

#[test]
fn calls_end_as_told(rt: HostRuntime) {
    let wrong = wrong_in(rt.alloc(), MODEL, WIDE, CALLS, WAYS);
    assert!(rt; wrong.is_none(), "{wrong:?}");
}

// Lone reporters.
const LONE: &[Row] = &[
    Row {
        text: "",
        ends: Ends::Done,
        spent: 0,
        looks: &[
            ("2 / 3", Ends::Says("0.666667")),
            ("round -0.5", Ends::Says("0")),
            ("2 - 1 - 1", Ends::Says("0")),
            ("2 + 3 * 2 ^ 2", Ends::Says("14")),
            ("9000000000000 + 1", Ends::Fails(ErrorKind::Overflow, 14, 0)),
            ("sentence [1 2] 3", Ends::Says("[1 2 3]")),
            ("median [1 2 3 10]", Ends::Says("2.5")),
            ("variance [1 2 3 4]", Ends::Says("1.666667")),
            ("standard-deviation [1 2 3 4]", Ends::Says("1.290994")),
            ("modes [1 2 2 3 3]", Ends::Says("[2 3]")),
            ("sort [\"b\" 2 \"a\" 1]", Ends::Says("[1 2]")),
            ("substring \"hello\" 1 3", Ends::Says("el")),
            ("(range 2 8 3)", Ends::Says("[2 5]")),
            ("position 3 [1 2]", Ends::Says("false")),
            ("min []", Ends::Fails(ErrorKind::TooFew, 0, 0)),
            ("twice 3", Ends::Says("6")),
            ("fact 5", Ends::Says("120")),
            ("1 / 0", Ends::Fails(ErrorKind::ZeroDivide, 2, 0)),
            ("(1 + (2 / 0))", Ends::Fails(ErrorKind::ZeroDivide, 8, 0)),
            ("not 3", Ends::Fails(ErrorKind::WrongType, 0, 0)),
            ("(list 1 \"a\" [2])", Ends::Says("[1 \"a\" [2]]")),
            ("0 - (3)", Ends::Says("-3")),
            ("nothing", Ends::Fails(ErrorKind::NoReport, 0, 0)),
            ("halts", Ends::Says("0")),
            ("random 10", Ends::Says("5")),
            ("[\"a\" true nobody]", Ends::Says("[\"a\" true nobody]")),
        ],
    },
    Row {
        text: "set a (list random 10 random 10 random 10)",
        ends: Ends::Done,
        spent: 1,
        looks: &[("a", Ends::Says("[5 9 6]"))],
    },
];

#[test]
fn reporters_answer_as_told(rt: HostRuntime) {
    let wrong = wrong_in(rt.alloc(), MODEL, WIDE, LONE, SLICES);
    assert!(rt; wrong.is_none(), "{wrong:?}");
}
