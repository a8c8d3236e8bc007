//! Expressions that are had without frames, blocks that are chosen, and members that answer.
use crate::playing::{wrong_in, wrong_with};
use crate::rows::{BOX, Ends, FINE, Row};
use nl_exec_acts::ErrorKind;

const MODEL: &str =
    "globals [a b c g] turtles-own [t] patches-own [p] breed [cats cat] cats-own [m] to down [n] let k n if n > 0 [ down n - 1 ] set k k * 10 set a a + k end to part ask turtles [ set a a + 1 if a = 2 [ set b 1 / 0 ] ] end to leave [n] if n > 1 [ set a a + 1 stop ] set b b + 1 end to-report half [n] ifelse n > 2 [ report n / 2 ] [ report n ] end";

// Blocks that `if` and `ifelse` choose: done whole, or left where a statement needs more.
const CHOICES: &[Row] = &[
    // Done whole, with a local that ends with the block.
    Row {
        text: "set a 1 if a > 0 [ set b 2 set c a + b ] set g 3",
        ends: Ends::Done,
        spent: 5,
        looks: &[("(list a b c g)", Ends::Says("[1 2 3 3]"))],
    },
    // Left at its first statement, in its midst, and at its last one.
    Row {
        text: "set a 1 if a > 0 [ cro 2 set b a + 1 ] set c count turtles",
        ends: Ends::Done,
        spent: 5,
        looks: &[("(list b c)", Ends::Says("[2 2]"))],
    },
    Row {
        text: "set a 1 if a > 0 [ set b 2 down 2 set b b + a ] set c b",
        ends: Ends::Done,
        spent: 20,
        looks: &[("(list a b c)", Ends::Says("[31 33 33]"))],
    },
    Row {
        text: "set a 1 if a > 0 [ set b 2 set c 3 down 1 ] set g a",
        ends: Ends::Done,
        spent: 15,
        looks: &[("(list a b c g)", Ends::Says("[11 2 3 11]"))],
    },
    // A local of the block that is left, and one of the text around it.
    Row {
        text: "let x 1 if x = 1 [ let y x + 1 set a y down 1 let z y + a set b z ] set c x",
        ends: Ends::Done,
        spent: 17,
        looks: &[("(list a b c)", Ends::Says("[12 14 1]"))],
    },
    // Both blocks of `ifelse`, and one of which nothing is done at once.
    Row {
        text: "repeat 4 [ set a a + 1 ifelse a > 2 [ set b b + 1 ] [ set c c + 10 ] ]",
        ends: Ends::Done,
        spent: 17,
        looks: &[("(list a b c)", Ends::Says("[4 2 20]"))],
    },
    Row {
        text: "repeat 3 [ set a a + 1 ifelse a = 2 [ cro 1 ] [ set c c + 1 ] set b b + 1 ]",
        ends: Ends::Done,
        spent: 16,
        looks: &[("(list a b c count turtles)", Ends::Says("[3 3 2 1]"))],
    },
    // A choice in a choice.
    Row {
        text: "repeat 4 [ set a a + 1 if a > 1 [ if a > 2 [ set b b + 1 ] set c c + 1 ] set g a ]",
        ends: Ends::Done,
        spent: 25,
        looks: &[("(list a b c g)", Ends::Says("[4 2 3 4]"))],
    },
    // In turns of an ask, where members die and are born in the block.
    Row {
        text: "cro 3 ask turtles [ set t 1 if who > 0 [ set a a + 1 hatch 1 [ set t 5 ] set b b + t ] set c c + 1 ]",
        ends: Ends::Done,
        spent: 24,
        looks: &[(
            "(list a b c count turtles sum [t] of turtles)",
            Ends::Says("[2 2 3 5 13]"),
        )],
    },
    Row {
        text: "cro 3 ask turtles [ if who < 2 [ set a a + 1 die ] set b b + 1 ]",
        ends: Ends::Done,
        spent: 13,
        looks: &[("(list a b count turtles)", Ends::Says("[2 1 1]"))],
    },
    // `stop` in the block.
    Row {
        text: "cro 3 ask turtles [ if who < 2 [ set a a + 1 stop ] set b b + 1 ] leave 3 leave 1 set c a",
        ends: Ends::Stopped,
        spent: 21,
        looks: &[("(list a b c)", Ends::Says("[3 2 3]"))],
    },
    // A test that is no truth, and a test that fails.
    Row {
        text: "set a 1 if a [ set b 1 ]",
        ends: Ends::Fails(ErrorKind::WrongType, 8, 0),
        spent: 2,
        looks: &[("(list a b)", Ends::Says("[1 0]"))],
    },
    Row {
        text: "set a 1 ifelse a / b > 1 [ set c 1 ] [ set c 2 ]",
        ends: Ends::Fails(ErrorKind::ZeroDivide, 17, 0),
        spent: 2,
        looks: &[("(list a b c)", Ends::Says("[1 0 0]"))],
    },
    // An error in the block, behind what was done.
    Row {
        text: "set a 1 if a > 0 [ set b 2 set c a / (b - 2) ] set g 3",
        ends: Ends::Fails(ErrorKind::ZeroDivide, 35, 0),
        spent: 4,
        looks: &[("(list a b c g)", Ends::Says("[1 2 0 0]"))],
    },
];

#[test]
fn chosen_blocks_are_left_where_they_stand(rt: HostRuntime) {
    let wrong = wrong_in(rt.alloc(), MODEL, BOX, CHOICES, FINE);
    assert!(rt; wrong.is_none(), "{wrong:?}");
}

// Where units end in a block that was chosen, and behind it.
const CUTS: &[(u64, Row)] = &[
    (
        2,
        Row {
            text: "set a 1 if a > 0 [ set b 2 set c 3 ] set g 4",
            ends: Ends::Budget,
            spent: 2,
            looks: &[("(list a b c g)", Ends::Says("[1 0 0 0]"))],
        },
    ),
    (
        3,
        Row {
            text: "set a 1 if a > 0 [ set b 2 set c 3 ] set g 4",
            ends: Ends::Budget,
            spent: 3,
            looks: &[("(list a b c g)", Ends::Says("[1 2 0 0]"))],
        },
    ),
    (
        4,
        Row {
            text: "set a 1 if a > 0 [ set b 2 set c 3 ] set g 4",
            ends: Ends::Budget,
            spent: 4,
            looks: &[("(list a b c g)", Ends::Says("[1 2 3 0]"))],
        },
    ),
    (
        5,
        Row {
            text: "set a 1 if a > 0 [ set b 2 set c 3 ] set g 4",
            ends: Ends::Done,
            spent: 5,
            looks: &[("(list a b c g)", Ends::Says("[1 2 3 4]"))],
        },
    ),
    // A test that draws, whose unit is the last one: the draw is made, and made once.
    (
        2,
        Row {
            text: "random-seed 5 if random 1000 < 1000 [ set a random 1000 ] set b random 1000",
            ends: Ends::Budget,
            spent: 2,
            looks: &[("(list a b)", Ends::Says("[0 0]"))],
        },
    ),
    // A unit for each member that answers.
    (
        5,
        Row {
            text: "cro 3 set a count turtles with [ who > 0 ]",
            ends: Ends::Done,
            spent: 5,
            looks: &[("a", Ends::Says("2"))],
        },
    ),
    (
        4,
        Row {
            text: "cro 3 set a count turtles with [ who > 0 ]",
            ends: Ends::Budget,
            spent: 4,
            looks: &[("a", Ends::Says("0"))],
        },
    ),
];

#[test]
fn units_end_in_chosen_blocks(rt: HostRuntime) {
    let wrong = wrong_with(rt.alloc(), MODEL, BOX, CUTS, FINE);
    assert!(rt; wrong.is_none(), "{wrong:?}");
}

// Truths of members and of words, and what a side that decides keeps from being looked at.
const TRUTHS: &[Row] = &[
    // The turtles here, and the others of them.
    Row {
        text: "cro 3 ask turtle 1 [ fd 1 ] ask turtles [ set t count turtles-here set a a + count other turtles-here if any? other turtles-here [ set b b + 1 ] if not any? other turtles-here [ set c c + 1 ] ]",
        ends: Ends::Done,
        spent: 24,
        looks: &[("(list a b c sum [t] of turtles)", Ends::Says("[2 2 1 5]"))],
    },
    // Own links, as those of other turtles come and go.
    Row {
        text: "cro 4 ask turtles [ create-links-with other turtles ] ask turtles [ if count my-links > 2 [ ask one-of my-links [ die ] ] set t count my-links ] set a count links",
        ends: Ends::Done,
        spent: 33,
        looks: &[(
            "(list a [t] of turtle 0 sum [count my-links] of turtles)",
            Ends::Says("[3 2 6]"),
        )],
    },
    // A patch has turtles, and no links.
    Row {
        text: "cro 2 ask patches [ set p count turtles-here if any? turtles-here [ set a a + 1 ] ]",
        ends: Ends::Done,
        spent: 78,
        looks: &[(
            "(list a [p] of patch 0 0 [p] of patch 1 1)",
            Ends::Says("[1 2 0]"),
        )],
    },
    Row {
        text: "set g patch 0 0 ask g [ set a 1 set b count my-links ]",
        ends: Ends::Fails(ErrorKind::WrongContext, 44, 0),
        spent: 5,
        looks: &[("(list a b)", Ends::Says("[1 0]"))],
    },
    // A dead turtle has links no more.
    Row {
        text: "cro 2 ask turtle 0 [ create-link-with turtle 1 die set a count my-links ] set b count links",
        ends: Ends::Done,
        spent: 6,
        looks: &[("(list a b)", Ends::Says("[0 0]"))],
    },
    // `and`, `or` and `not`, and a right side that would fail.
    Row {
        text: "set a 1 repeat 2 [ if a > 5 and 1 / b > 0 [ set c 9 ] if a > 0 or 1 / b > 0 [ set c c + 1 ] if not (a > 5) [ set g g + 1 ] if (a > 0) and (not (b > 0)) [ set g g + 10 ] ]",
        ends: Ends::Done,
        spent: 18,
        looks: &[("(list a b c g)", Ends::Says("[1 0 2 22]"))],
    },
    Row {
        text: "set a 1 if a > 0 and 1 / b > 0 [ set c 9 ]",
        ends: Ends::Fails(ErrorKind::ZeroDivide, 23, 0),
        spent: 2,
        looks: &[("(list a c)", Ends::Says("[1 0]"))],
    },
    Row {
        text: "set a 1 if a > 5 or b [ set c 9 ]",
        ends: Ends::Fails(ErrorKind::WrongType, 17, 0),
        spent: 2,
        looks: &[("(list a c)", Ends::Says("[1 0]"))],
    },
    // Numbers in parentheses.
    Row {
        text: "set a 2 repeat 2 [ set b (a + 1) * (a - (3 - a)) set c ((b)) ]",
        ends: Ends::Done,
        spent: 8,
        looks: &[("(list a b c)", Ends::Says("[2 3 3]"))],
    },
    // Members that answer: kept, passed over, and deciding.
    Row {
        text: "cro 4 set a count turtles with [ who mod 2 = 1 ] set b all? turtles [ who < 4 ] set c all? turtles [ who < 2 ] set g [who] of max-one-of turtles [ who * 2 ]",
        ends: Ends::Done,
        spent: 21,
        looks: &[("(list a b c g)", Ends::Says("[2 true false 3]"))],
    },
    Row {
        text: "cro 4 ask turtles [ set t who ] ask turtles with [ t > 1 and any? turtles-here ] [ set a a + t ] set b sum [ t * 2 ] of turtles set c [ who ] of (turtles with-min [ t ])",
        ends: Ends::Done,
        spent: 30,
        looks: &[("(list a b c)", Ends::Says("[5 12 [0]]"))],
    },
    // An answer that is no truth, and a member whose answer fails.
    Row {
        text: "cro 2 set a 1 set b count turtles with [ who ]",
        ends: Ends::Fails(ErrorKind::WrongType, 34, 0),
        spent: 4,
        looks: &[("(list a b)", Ends::Says("[1 0]"))],
    },
    Row {
        text: "cro 2 set a 1 set b count turtles with [ 1 / (who - 1) < 2 ]",
        ends: Ends::Fails(ErrorKind::ZeroDivide, 43, 0),
        spent: 5,
        looks: &[("(list a b)", Ends::Says("[1 0]"))],
    },
    // Who asks, in an answer.
    Row {
        text: "cro 3 ask turtle 2 [ set a count turtles with [ who < [ who ] of myself ] set b count turtles with [ t = 0 ] set c t ]",
        ends: Ends::Done,
        spent: 15,
        looks: &[("(list a b c)", Ends::Says("[2 3 0]"))],
    },
];

#[test]
fn truths_and_members_are_as_told(rt: HostRuntime) {
    let wrong = wrong_in(rt.alloc(), MODEL, BOX, TRUTHS, FINE);
    assert!(rt; wrong.is_none(), "{wrong:?}");
}

// What draws, and what becomes of a draw where the statement fails.
const DRAWS: &[Row] = &[
    // Turns by what is drawn, in order.
    Row {
        text: "random-seed 7 cro 2 ask turtles [ rt random 90 lt random-float 10 set t random 100 ]",
        ends: Ends::Done,
        spent: 11,
        looks: &[(
            "(list sum [heading] of turtles sum [t] of turtles random 1000)",
            Ends::Says("[321.204587 107 785]"),
        )],
    },
    // Places that are drawn.
    Row {
        text: "random-seed 7 cro 2 [ setxy random-xcor random-ycor ] set a random 1000",
        ends: Ends::Done,
        spent: 7,
        looks: &[(
            "(list a sum [xcor] of turtles sum [ycor] of turtles)",
            Ends::Says("[534 3.000487 2.851018]"),
        )],
    },
    // Tests that draw.
    Row {
        text: "random-seed 7 repeat 6 [ ifelse random 10 < 5 [ set a a + 1 ] [ set b b + random 100 ] if random-float 1 > 0.5 [ set c c + 1 ] ]",
        ends: Ends::Done,
        spent: 30,
        looks: &[("(list a b c random 1000)", Ends::Says("[2 206 4 909]"))],
    },
    // A place outside of the world, behind a draw; what is drawn next is as if all was done.
    Row {
        text: "random-seed 7 cro 1 ask turtles [ set t random 1000 setxy random 2 9 set a 1 ]",
        ends: Ends::Fails(ErrorKind::OutOfWorld, 52, 0),
        spent: 6,
        looks: &[("(list a random 1000)", Ends::Says("[0 879]"))],
    },
    // A draw below what is no number.
    Row {
        text: "random-seed 7 set b 3 set c true set a random c",
        ends: Ends::Fails(ErrorKind::WrongType, 39, 0),
        spent: 4,
        looks: &[("(list a random 1000)", Ends::Says("[0 716]"))],
    },
    // A draw in a test that has another side which draws in words of its own.
    Row {
        text: "random-seed 7 repeat 2 [ if random 10 < random 5 + random 5 [ set a a + 1 ] set b b + random 1000 ]",
        ends: Ends::Done,
        spent: 9,
        looks: &[("(list a b random 1000)", Ends::Says("[1 1534 82]"))],
    },
    // Jumps and looks.
    Row {
        text: "cro 1 [ jump 1 facexy 2 2 set a heading lt 90 set b heading setxy 0.4 -1 ]",
        ends: Ends::Done,
        spent: 8,
        looks: &[(
            "(list a b [xcor] of turtle 0 [ycor] of turtle 0)",
            Ends::Says("[63 333 0.4 -1]"),
        )],
    },
    // A word that turtles run, run by a patch, and by a turtle that is dead.
    Row {
        text: "set g patch 0 0 ask g [ set a 1 rt 90 ]",
        ends: Ends::Fails(ErrorKind::WrongContext, 32, 0),
        spent: 5,
        looks: &[("a", Ends::Says("1"))],
    },
    Row {
        text: "cro 1 ask turtles [ set a 1 die rt 90 set b 1 ] set c 1",
        ends: Ends::Done,
        spent: 6,
        looks: &[("(list a b c)", Ends::Says("[1 0 1]"))],
    },
];

#[test]
fn draws_are_those_of_the_text(rt: HostRuntime) {
    let wrong = wrong_in(rt.alloc(), MODEL, BOX, DRAWS, FINE);
    assert!(rt; wrong.is_none(), "{wrong:?}");
}

// Links with the turtles of a set, of which there is none, one, or more.
const LINKS: &[(u64, Row)] = &[
    // One other: a link, and none more where one joins them.
    (
        999,
        Row {
            text: "cro 2 ask turtle 0 [ create-links-with other turtles-here create-links-with other turtles-here set a count my-links ] set b count links",
            ends: Ends::Done,
            spent: 7,
            looks: &[(
                "(list a b sum [[who] of end1] of links)",
                Ends::Says("[1 1 0]"),
            )],
        },
    ),
    // The first end is the one that came first, whoever links.
    (
        999,
        Row {
            text: "cro 2 ask turtle 1 [ create-links-with other turtles-here ] set a count links",
            ends: Ends::Done,
            spent: 5,
            looks: &[(
                "(list a [who] of [end1] of one-of links [who] of [end2] of one-of links)",
                Ends::Says("[1 0 1]"),
            )],
        },
    ),
    // No other, and more than one.
    (
        999,
        Row {
            text: "cro 1 ask turtle 0 [ create-links-with other turtles-here set a 1 ] cro 2 ask turtle 0 [ create-links-with other turtles-here set b 2 ] set c count links",
            ends: Ends::Done,
            spent: 11,
            looks: &[("(list a b c)", Ends::Says("[1 2 2]"))],
        },
    ),
    // One that has a direction, each way, and none the same way again.
    (
        999,
        Row {
            text: "cro 2 ask turtle 0 [ create-links-to other turtles-here ] set a count links ask turtle 1 [ create-links-from other turtles-here ] set b count links ask turtle 1 [ create-links-to other turtles-here ] set c count links",
            ends: Ends::Done,
            spent: 13,
            looks: &[(
                "(list a b c [[who] of end1] of link 0 1 [[who] of end1] of link 1 0)",
                Ends::Says("[1 1 2 0 1]"),
            )],
        },
    ),
    // One without a direction where one with it lives.
    (
        999,
        Row {
            text: "cro 2 ask turtle 0 [ create-links-to other turtles-here ] set a 1 ask turtle 1 [ set b 1 create-links-with other turtles-here set c 1 ]",
            ends: Ends::Fails(ErrorKind::LinkFault, 89, 0),
            spent: 9,
            looks: &[("(list a b c count links)", Ends::Says("[1 1 0 1]"))],
        },
    ),
    // With a block, which the new link runs.
    (
        999,
        Row {
            text: "cro 2 ask turtle 0 [ create-links-with other turtles-here [ set a a + 1 ] set b 1 ] set c count links",
            ends: Ends::Done,
            spent: 8,
            looks: &[("(list a b c)", Ends::Says("[1 1 1]"))],
        },
    ),
    // The other is dead, or has gone.
    (
        999,
        Row {
            text: "cro 3 ask turtle 1 [ die ] ask turtle 2 [ fd 1 ] ask turtle 0 [ create-links-with other turtles-here set a 1 ] set b count links",
            ends: Ends::Done,
            spent: 13,
            looks: &[("(list a b)", Ends::Says("[1 0]"))],
        },
    ),
    // A dead turtle leaves, and a patch may not run the word.
    (
        999,
        Row {
            text: "cro 2 ask turtle 0 [ set a 1 die create-links-with other turtles-here set a 2 ] set b count links",
            ends: Ends::Done,
            spent: 6,
            looks: &[("(list a b)", Ends::Says("[1 0]"))],
        },
    ),
    (
        999,
        Row {
            text: "set g patch 0 0 ask g [ set a 1 create-links-with other turtles-here ]",
            ends: Ends::Fails(ErrorKind::WrongContext, 32, 0),
            spent: 5,
            looks: &[("(list a count links)", Ends::Says("[1 0]"))],
        },
    ),
    // In blocks that are chosen, in turn.
    (
        999,
        Row {
            text: "cro 6 ask turtles [ if who > 1 [ set heading 90 * (who mod 2) fd 1 ] ] ask turtles [ if any? other turtles-here [ create-links-with other turtles-here set c c + 1 ] if count my-links > 0 [ set t count my-links rt 180 fd 1 if any? other turtles-here [ create-links-with other turtles-here ] ] if count my-links > 2 [ die ] ] set a count links set b count turtles",
            ends: Ends::Done,
            spent: 91,
            looks: &[(
                "(list a b c sum [t] of turtles sum [who] of turtles)",
                Ends::Says("[1 4 4 3 10]"),
            )],
        },
    ),
    // Units end before a link, and behind it.
    (
        4,
        Row {
            text: "cro 2 ask turtle 0 [ set a 1 create-links-with other turtles-here set b 1 ]",
            ends: Ends::Budget,
            spent: 4,
            looks: &[("(list a b count links)", Ends::Says("[1 0 0]"))],
        },
    ),
    (
        5,
        Row {
            text: "cro 2 ask turtle 0 [ set a 1 create-links-with other turtles-here set b 1 ]",
            ends: Ends::Budget,
            spent: 5,
            looks: &[("(list a b count links)", Ends::Says("[1 0 1]"))],
        },
    ),
];

#[test]
fn links_with_the_others_here_are_as_told(rt: HostRuntime) {
    let wrong = wrong_with(rt.alloc(), MODEL, BOX, LINKS, FINE);
    assert!(rt; wrong.is_none(), "{wrong:?}");
}
