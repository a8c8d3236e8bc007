//! The trees of texts: which word holds which, and where each node stands.
ghost use Rattle.nl_tree.specs.Names.{IsDeclared};

use crate::readings::{NOWHERE, declared_by, read, read_bare};
use nl_fixed::{Names, Num, Span, Str};
use nl_tree::{Declared, Form, Label, Tree};
use std::alloc::Global;
use std::process::Abort;
use std::test::Fail;

fn is_named(tree: &Tree, name: &[u8]) -> bool {
    match tree.label() {
        Label::Named(word) => word.as_bytes() == name,
        _ => false,
    }
}

fn is_part_named(tree: &Tree, at: usize, name: &[u8]) -> bool {
    match tree.part(at) {
        Some(part) => is_named(part, name),
        None => false,
    }
}

// An expression, what its whole tree is called, and what the part at a place is called.
type Row = (&'static str, &'static str, usize, &'static str);

// Whether the whole expression is a call of this name, with a call of that name as the part at a place.
fn is_call(
    alloc: Global,
    declared: &Declared,
    names: &Names,
    text: &[u8],
    name: &[u8],
    at: usize,
    part: &[u8],
) -> bool
    requires { IsDeclared declared.now }
{
    match read(alloc, declared, names, Form::Reporter, text, NOWHERE) {
        Ok(tree) => is_named(&tree, name) && is_part_named(&tree, at, part),
        Err(_) => false,
    }
}

fn assert_calls(rt: &impl Abort, alloc: Global, declared: &Declared, names: &Names, rows: &[Row])
    requires { IsDeclared declared.now }
{
    for (text, name, at, part) in rows {
        let (bytes, whole, inner) = (text.as_bytes(), name.as_bytes(), part.as_bytes());
        assert!(rt;
            is_call(alloc, declared, names, bytes, whole, *at, inner),
            "{text}"
        );
    }
}

// Each text of the rows is such a call beside what the model declares, where one name is known.
fn assert_all_calls(
    rt: &impl Abort,
    alloc: Global,
    model: &str,
    known: &str,
    rows: &[Row],
) -> Result<(), Fail> {
    let mut names = Names::empty(alloc);
    names.push(alloc, Str::of(alloc, known.as_bytes())?)?;
    let Some(declared) = declared_by(alloc, model.as_bytes()) else {
        panic!(rt; "no declarations");
    };
    assert_calls(rt, alloc, &declared, &names, rows);
    Ok(())
}

// Operators beside others of their own level.
const ONE_LEVEL: &[Row] = &[
    ("2 - 1 - 1", "-", 0, "-"),
    ("1 / 2 mod 3", "mod", 0, "/"),
    ("1 mod 2 * 3", "*", 0, "mod"),
    ("1 * 2 / 3", "/", 0, "*"),
    ("1 + 2 - 3", "-", 0, "+"),
    ("1 - 2 + 3", "+", 0, "-"),
    ("1 > 2 <= 3", "<=", 0, ">"),
    ("1 >= 2 < 3", "<", 0, ">="),
    ("1 != 2 = 3", "=", 0, "!="),
    ("1 = 2 != 3", "!=", 0, "="),
    ("true or true xor true", "xor", 0, "or"),
    ("true xor true and true", "and", 0, "xor"),
    ("turtles with-max [who] with [true]", "with", 0, "with-max"),
    ("turtles with-min [who] with [true]", "with", 0, "with-min"),
    ("turtles at-points [] with [true]", "with", 0, "at-points"),
    ("turtles in-cone 3 60 with [true]", "with", 0, "in-cone"),
    ("turtles with [true] in-radius 3", "in-radius", 0, "with"),
];

#[test]
fn operators_of_one_level_go_to_the_left(rt: HostRuntime) -> Result<(), Fail> {
    assert_all_calls(&rt, rt.alloc(), "", "n", ONE_LEVEL)
}

// Operators beside looser ones.
const TWO_LEVELS: &[Row] = &[
    ("1 + 2 / 3", "+", 1, "/"),
    ("1 - 2 mod 3", "-", 1, "mod"),
    ("1 <= 2 - 3", "<=", 1, "-"),
    ("1 != 2 > 3", "!=", 1, ">"),
    ("1 = 2 <= 3", "=", 1, "<="),
    ("1 = 2 >= 3", "=", 1, ">="),
    ("true or 1 != 2", "or", 1, "!="),
    ("true xor 1 = 2", "xor", 1, "="),
    ("1 - turtles with-max [who]", "-", 1, "with-max"),
    ("1 / turtles with-min [who]", "/", 1, "with-min"),
    ("1 = turtles at-points []", "=", 1, "at-points"),
    ("1 mod turtles in-radius 3", "mod", 1, "in-radius"),
    ("turtles in-cone 3 60 >= 1", ">=", 0, "in-cone"),
    ("not 1 = 2", "=", 0, "not"),
];

#[test]
fn operators_bind_by_their_level(rt: HostRuntime) -> Result<(), Fail> {
    assert_all_calls(&rt, rt.alloc(), "", "n", TWO_LEVELS)
}

// The operators of values, each with its level.
const OPERATORS: &[(&str, u32)] = &[
    ("^", 4),
    ("*", 5),
    ("/", 5),
    ("mod", 5),
    ("+", 6),
    ("-", 6),
    ("<", 7),
    (">", 7),
    ("<=", 7),
    (">=", 7),
    ("=", 8),
    ("!=", 8),
    ("and", 9),
    ("or", 9),
    ("xor", 9),
];

// Of an operator and each one behind it the looser is the root, or the second where both have one level.
fn assert_ordered(
    rt: &impl Abort,
    alloc: Global,
    declared: &Declared,
    names: &Names,
    first: (&str, u32),
) -> Result<(), Fail>
    requires { IsDeclared declared.now }
{
    let (left, tight) = first;
    for (right, level) in OPERATORS {
        let text = format!(in alloc; "1 {left} 2 {right} 3")?;
        let bytes = text.as_str().as_bytes();
        let (one, other) = (left.as_bytes(), right.as_bytes());
        let ordered = if tight <= *level {
            is_call(alloc, declared, names, bytes, other, 0, one)
        } else {
            is_call(alloc, declared, names, bytes, one, 1, other)
        };
        assert!(rt; ordered, "{text}");
    }
    Ok(())
}

#[test]
fn each_level_binds_tighter_than_the_next(rt: HostRuntime) -> Result<(), Fail> {
    let alloc = rt.alloc();
    let names = Names::empty(alloc);
    let Some(declared) = declared_by(alloc, b"") else {
        panic!(rt);
    };
    for (operator, level) in OPERATORS {
        assert_ordered(&rt, alloc, &declared, &names, (*operator, *level))?;
    }
    Ok(())
}

const OF: &[Row] = &[
    ("[who] of turtles with [color = red]", "of", 1, "with"),
    ("[[who] of self] of turtles", "of", 1, "turtles"),
];

#[test]
fn of_goes_to_the_right_over_with(rt: HostRuntime) -> Result<(), Fail> {
    assert_all_calls(&rt, rt.alloc(), "", "n", OF)
}

const AGENTS: &[Row] = &[
    ("turtles with [true] with [false]", "with", 0, "with"),
    ("turtles in-radius 3 with [true]", "with", 0, "in-radius"),
    ("[who] of turtles with [true]", "of", 1, "with"),
    ("[who] of [self] of turtles", "of", 1, "of"),
    ("[who] of max-one-of turtles [who]", "of", 1, "max-one-of"),
    ("count turtles with [true]", "count", 0, "with"),
    ("count [self] of turtles", "count", 0, "of"),
    ("count other turtles", "count", 0, "other"),
    ("turtles in-radius count turtles", "in-radius", 1, "count"),
];

#[test]
fn agents_of_and_calls_bind_in_this_order(rt: HostRuntime) -> Result<(), Fail> {
    assert_all_calls(&rt, rt.alloc(), "", "n", AGENTS)
}

const WITH: &[Row] = &[
    ("turtles with [true] ^ 3", "^", 0, "with"),
    ("3 ^ turtles with [true]", "^", 1, "with"),
    ("turtles with [true] * 3", "*", 0, "with"),
    ("3 * turtles with [true]", "*", 1, "with"),
    ("turtles with [true] + 3", "+", 0, "with"),
    ("3 + turtles with [true]", "+", 1, "with"),
    ("turtles with [true] < 3", "<", 0, "with"),
    ("3 < turtles with [true]", "<", 1, "with"),
    ("turtles with [true] = 3", "=", 0, "with"),
    ("3 = turtles with [true]", "=", 1, "with"),
    ("turtles with [true] and 3", "and", 0, "with"),
    ("3 and turtles with [true]", "and", 1, "with"),
];

const OF_TURTLES: &[Row] = &[
    ("[who] of turtles ^ 3", "^", 0, "of"),
    ("3 ^ [who] of turtles", "^", 1, "of"),
    ("[who] of turtles * 3", "*", 0, "of"),
    ("3 * [who] of turtles", "*", 1, "of"),
    ("[who] of turtles + 3", "+", 0, "of"),
    ("3 + [who] of turtles", "+", 1, "of"),
    ("[who] of turtles < 3", "<", 0, "of"),
    ("3 < [who] of turtles", "<", 1, "of"),
    ("[who] of turtles = 3", "=", 0, "of"),
    ("3 = [who] of turtles", "=", 1, "of"),
    ("[who] of turtles and 3", "and", 0, "of"),
    ("3 and [who] of turtles", "and", 1, "of"),
];

const CALLS: &[Row] = &[
    ("count turtles ^ 3", "^", 0, "count"),
    ("3 ^ count turtles", "^", 1, "count"),
    ("count turtles * 3", "*", 0, "count"),
    ("3 * count turtles", "*", 1, "count"),
    ("count turtles + 3", "+", 0, "count"),
    ("3 + count turtles", "+", 1, "count"),
    ("count turtles < 3", "<", 0, "count"),
    ("3 < count turtles", "<", 1, "count"),
    ("count turtles = 3", "=", 0, "count"),
    ("3 = count turtles", "=", 1, "count"),
    ("count turtles and 3", "and", 0, "count"),
    ("3 and count turtles", "and", 1, "count"),
];

#[test]
fn agents_of_and_calls_bind_tighter_than_operators(rt: HostRuntime) -> Result<(), Fail> {
    let alloc = rt.alloc();
    assert_all_calls(&rt, alloc, "", "n", WITH)?;
    assert_all_calls(&rt, alloc, "", "n", OF_TURTLES)?;
    assert_all_calls(&rt, alloc, "", "n", CALLS)
}

const MODEL: &str = "breed [foxes fox] globals [g] to-report twice [x] report x + x end";

// Beside that model, where `n` is an input.
const WORDS_OF_THE_MODEL: &[Row] = &[
    ("twice g + 1", "+", 0, "twice"),
    ("twice twice n", "twice", 0, "twice"),
    ("[g] of foxes with [g = twice 2]", "of", 1, "with"),
    ("count foxes-here + g", "+", 0, "count"),
    ("n + g", "+", 0, "n"),
    ("g - N", "-", 1, "n"),
    ("is-fox? one-of foxes and true", "and", 0, "is-fox?"),
];

#[test]
fn words_of_a_model_and_inputs_are_read_as_their_rows_say(rt: HostRuntime) -> Result<(), Fail> {
    assert_all_calls(&rt, rt.alloc(), MODEL, "n", WORDS_OF_THE_MODEL)
}

// What a node of a tree is to be: a word, a whole number, or the bracket that it begins with.
#[derive(Clone, Copy)]
enum Node {
    Word(&'static str),
    Whole(i64),
    Paren,
    Commands,
    Reporter,
}

fn is_label(label: &Label, node: Node) -> bool {
    match (label, node) {
        (Label::Named(word), Node::Word(name)) => word.as_bytes() == name.as_bytes(),
        (Label::Number(number), Node::Whole(n)) => Num::whole(n) == Some(*number),
        (Label::Paren, Node::Paren) => true,
        (Label::Commands, Node::Commands) => true,
        (Label::Reporter, Node::Reporter) => true,
        _ => false,
    }
}

// The way to a node from the top, what the node is, where its token begins and how long that is, and how many parts the node has.
type NodeRow = (&'static [usize], Node, (u32, u32), usize);

fn node_at<'a>(tree: &'a Tree, way: &[usize]) -> Option<&'a Tree> {
    let mut tree = tree;
    for at in way {
        tree = tree.part(*at)?;
    }
    Some(tree)
}

fn is_node(tree: &Tree, row: NodeRow) -> bool {
    let (way, node, (start, len), parts) = row;
    match node_at(tree, way) {
        Some(found) => {
            is_label(found.label(), node)
                && found.span() == Span { start, len }
                && found.len() == parts
        }
        None => false,
    }
}

// The tree of this text, whose end stands there, has these nodes.
fn assert_nodes(
    rt: &impl Abort,
    alloc: Global,
    form: Form,
    text: &str,
    end: Span,
    rows: &[NodeRow],
) {
    let Ok(tree) = read_bare(alloc, form, text.as_bytes(), end) else {
        panic!(rt; "not read: {text}");
    };
    for (place, row) in rows.iter().enumerate() {
        assert!(rt; is_node(&tree, *row), "row {place}: {text}");
    }
}

// `setxy 1 + 2 3 - 4`: each input of a command is a whole expression.
const SETXY: &[NodeRow] = &[
    (&[], Node::Commands, (0, 5), 1),
    (&[0], Node::Word("setxy"), (0, 5), 2),
    (&[0, 0], Node::Word("+"), (8, 1), 2),
    (&[0, 0, 0], Node::Whole(1), (6, 1), 0),
    (&[0, 0, 1], Node::Whole(2), (10, 1), 0),
    (&[0, 1], Node::Word("-"), (14, 1), 2),
    (&[0, 1, 0], Node::Whole(3), (12, 1), 0),
    (&[0, 1, 1], Node::Whole(4), (16, 1), 0),
];

// A body without statements stands where its `end` does.
const EMPTY: &[NodeRow] = &[(&[], Node::Commands, (7, 3), 0)];

// `(stop)`: the parentheses are a node of their own, and the body stands where its first token does.
const PAREN: &[NodeRow] = &[
    (&[], Node::Commands, (0, 1), 1),
    (&[0], Node::Paren, (0, 1), 1),
    (&[0, 0], Node::Word("stop"), (1, 4), 0),
];

#[test]
fn statements_stand_where_their_words_do(rt: HostRuntime) {
    let alloc = rt.alloc();
    let end = Span { start: 18, len: 3 };
    assert_nodes(&rt, alloc, Form::Commands, "setxy 1 + 2 3 - 4", end, SETXY);
    let end = Span { start: 7, len: 3 };
    assert_nodes(&rt, alloc, Form::Commands, "", end, EMPTY);
    assert_nodes(&rt, alloc, Form::Commands, "(stop)", end, PAREN);
}

// `2 - 1 - 1`: the second `-` is over the first.
const DIFFERENCE: &[NodeRow] = &[
    (&[], Node::Word("-"), (6, 1), 2),
    (&[0], Node::Word("-"), (2, 1), 2),
    (&[0, 0], Node::Whole(2), (0, 1), 0),
    (&[0, 1], Node::Whole(1), (4, 1), 0),
    (&[1], Node::Whole(1), (8, 1), 0),
];

// `[who] of turtles with [color = red]`: a block stands where its bracket does, and comes first.
const OF_WITH: &[NodeRow] = &[
    (&[], Node::Word("of"), (6, 2), 2),
    (&[0], Node::Reporter, (0, 1), 1),
    (&[0, 0], Node::Word("who"), (1, 3), 0),
    (&[1], Node::Word("with"), (17, 4), 2),
    (&[1, 0], Node::Word("turtles"), (9, 7), 0),
    (&[1, 1], Node::Reporter, (22, 1), 1),
    (&[1, 1, 0], Node::Word("="), (29, 1), 2),
    (&[1, 1, 0, 0], Node::Word("color"), (23, 5), 0),
    (&[1, 1, 0, 1], Node::Word("red"), (31, 3), 0),
];

// `turtles in-cone 3 random 60`: the agents, and two right sides.
const IN_CONE: &[NodeRow] = &[
    (&[], Node::Word("in-cone"), (8, 7), 3),
    (&[0], Node::Word("turtles"), (0, 7), 0),
    (&[1], Node::Whole(3), (16, 1), 0),
    (&[2], Node::Word("random"), (18, 6), 1),
    (&[2, 0], Node::Whole(60), (25, 2), 0),
];

#[test]
fn expressions_stand_where_their_operators_do(rt: HostRuntime) {
    let alloc = rt.alloc();
    let (form, end) = (Form::Reporter, NOWHERE);
    assert_nodes(&rt, alloc, form, "2 - 1 - 1", end, DIFFERENCE);
    assert_nodes(
        &rt,
        alloc,
        form,
        "[who] of turtles with [color = red]",
        end,
        OF_WITH,
    );
    assert_nodes(
        &rt,
        alloc,
        form,
        "turtles in-cone 3 random 60",
        end,
        IN_CONE,
    );
}
