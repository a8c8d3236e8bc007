//! Where turtles go and look, and how agents are drawn. Turtle 2 stands at 2 0 and looks to the right, where the world goes on.

use crate::deeds::{
    DONE, Deed, ME, NO_AGENT, NO_ONE, NOT_ALLOWED, OUTSIDE, OVERFLOW, Row, WRONG, wrong_in,
};
use crate::given::Given::{Agent, Number, Truth, Words};
use crate::told::After;
use crate::told::After::{At, Holds};
use nl_agents::Owner;
use nl_agents_layout::built_in::{HEADING, HIDDEN, PEN_MODE};
use nl_exec_acts::{Look, Move};
use trial_stores::naming::Named;
use trial_stores::trials::Wanted;

const JUMP: Deed = Deed::Moves(Move::Jump);

const SET_XY: Deed = Deed::Moves(Move::SetXy);

const HOME: Deed = Deed::Moves(Move::Home);

const MOVE_TO: Deed = Deed::Moves(Move::MoveTo);

const FACE: Deed = Deed::Moves(Move::Face);

const FACE_XY: Deed = Deed::Moves(Move::FaceXy);

const RIGHT: Deed = Deed::Moves(Move::Right);

const LEFT: Deed = Deed::Moves(Move::Left);

const HIDE: Deed = Deed::Looks(Look::Hide);

const SHOW: Deed = Deed::Looks(Look::Show);

const PEN_DOWN: Deed = Deed::Looks(Look::PenDown);

const PEN_ERASE: Deed = Deed::Looks(Look::PenErase);

const PEN_UP: Deed = Deed::Looks(Look::PenUp);

const FAR: i64 = 9_000_000_000_000_000_000;

const STAYS: &[After] = &[
    At(2, (2_000_000, 0)),
    Holds(ME, HEADING, Wanted::Number(900)),
];

const GOES: &[Row] = &[
    (
        JUMP,
        ME,
        NO_ONE,
        &[Number(1_000_000)],
        DONE,
        &[At(2, (-2_000_000, 0))],
    ),
    (
        JUMP,
        ME,
        NO_ONE,
        &[Number(-500_000)],
        DONE,
        &[At(2, (1_500_000, 0))],
    ),
    (JUMP, ME, NO_ONE, &[Number(FAR)], OVERFLOW, STAYS),
    (JUMP, ME, NO_ONE, &[Truth(true)], WRONG, STAYS),
    (JUMP, ME, NO_ONE, &[], WRONG, STAYS),
    (
        SET_XY,
        ME,
        NO_ONE,
        &[Number(2_600_000), Number(0)],
        DONE,
        &[At(2, (-2_400_000, 0))],
    ),
    (
        SET_XY,
        ME,
        NO_ONE,
        &[Number(0), Number(2_500_000)],
        OUTSIDE,
        STAYS,
    ),
    (
        SET_XY,
        ME,
        NO_ONE,
        &[Truth(true), Number(9_000_000)],
        WRONG,
        STAYS,
    ),
    (HOME, ME, NO_ONE, &[], DONE, &[At(2, (0, 0))]),
    (
        MOVE_TO,
        ME,
        NO_ONE,
        &[Agent(Named::Turtle(5))],
        DONE,
        &[At(2, (400_000, -1_200_000))],
    ),
    (
        MOVE_TO,
        ME,
        NO_ONE,
        &[Agent(Named::Patch(0))],
        DONE,
        &[At(2, (-2_000_000, 2_000_000))],
    ),
    (MOVE_TO, ME, NO_ONE, &[Agent(Named::Link(0))], WRONG, STAYS),
    (
        MOVE_TO,
        ME,
        NO_ONE,
        &[Agent(Named::Nobody)],
        NO_AGENT,
        STAYS,
    ),
    (
        MOVE_TO,
        ME,
        NO_ONE,
        &[Agent(Named::Turtle(4))],
        NO_AGENT,
        STAYS,
    ),
];

#[test]
fn turtles_go_where_the_word_says(rt: HostRuntime) {
    let wrong = wrong_in(rt.alloc(), GOES);
    assert!(rt; wrong.is_none(), "{wrong:?}");
}

const LOOKS_TO: &[Row] = &[
    // The shorter way is that round the side.
    (
        FACE,
        ME,
        NO_ONE,
        &[Agent(Named::Turtle(3))],
        DONE,
        &[Holds(ME, HEADING, Wanted::Number(900))],
    ),
    (FACE, ME, NO_ONE, &[Agent(Named::Turtle(2))], DONE, STAYS),
    (FACE, ME, NO_ONE, &[Agent(Named::Link(0))], WRONG, STAYS),
    (FACE, ME, NO_ONE, &[Agent(Named::Nobody)], NO_AGENT, STAYS),
    (
        FACE_XY,
        ME,
        NO_ONE,
        &[Number(2_000_000), Number(1_000_000)],
        DONE,
        &[Holds(ME, HEADING, Wanted::Number(0))],
    ),
    (
        FACE_XY,
        ME,
        NO_ONE,
        &[Number(-3_000_000), Number(0)],
        DONE,
        STAYS,
    ),
    (
        FACE_XY,
        ME,
        NO_ONE,
        &[Number(0), Number(9_000_000)],
        OUTSIDE,
        STAYS,
    ),
    (
        RIGHT,
        ME,
        NO_ONE,
        &[Number(300_000_000)],
        DONE,
        &[Holds(ME, HEADING, Wanted::Number(300))],
    ),
    (
        LEFT,
        ME,
        NO_ONE,
        &[Number(100_000_000)],
        DONE,
        &[Holds(ME, HEADING, Wanted::Number(3_500))],
    ),
    (
        LEFT,
        ME,
        NO_ONE,
        &[Number(90_500_000)],
        DONE,
        &[Holds(ME, HEADING, Wanted::Number(3_595))],
    ),
    (RIGHT, ME, NO_ONE, &[Number(FAR)], OVERFLOW, STAYS),
    (RIGHT, ME, NO_ONE, &[Words("a")], WRONG, STAYS),
    (RIGHT, NO_ONE, NO_ONE, &[Number(0)], NOT_ALLOWED, STAYS),
    (
        RIGHT,
        Owner::Patch(3),
        NO_ONE,
        &[Number(0)],
        NOT_ALLOWED,
        STAYS,
    ),
    (
        RIGHT,
        Owner::Link(0),
        NO_ONE,
        &[Number(0)],
        NOT_ALLOWED,
        STAYS,
    ),
    (
        RIGHT,
        Owner::Turtle(4),
        NO_ONE,
        &[Number(0)],
        NOT_ALLOWED,
        STAYS,
    ),
];

#[test]
fn turtles_look_where_the_word_says(rt: HostRuntime) {
    let wrong = wrong_in(rt.alloc(), LOOKS_TO);
    assert!(rt; wrong.is_none(), "{wrong:?}");
}

const DRAWN: &[Row] = &[
    (
        HIDE,
        ME,
        NO_ONE,
        &[],
        DONE,
        &[
            Holds(ME, HIDDEN, Wanted::Truth(true)),
            Holds(Owner::Turtle(3), HIDDEN, Wanted::Truth(false)),
        ],
    ),
    (
        SHOW,
        ME,
        NO_ONE,
        &[],
        DONE,
        &[Holds(ME, HIDDEN, Wanted::Truth(false))],
    ),
    (
        HIDE,
        Owner::Link(0),
        NO_ONE,
        &[],
        DONE,
        &[
            Holds(Owner::Link(0), HIDDEN, Wanted::Truth(true)),
            Holds(Owner::Link(1), HIDDEN, Wanted::Truth(false)),
        ],
    ),
    (
        PEN_DOWN,
        ME,
        NO_ONE,
        &[],
        DONE,
        &[Holds(ME, PEN_MODE, Wanted::Words("down"))],
    ),
    (
        PEN_ERASE,
        ME,
        NO_ONE,
        &[],
        DONE,
        &[Holds(ME, PEN_MODE, Wanted::Words("erase"))],
    ),
    (
        PEN_UP,
        ME,
        NO_ONE,
        &[],
        DONE,
        &[Holds(ME, PEN_MODE, Wanted::Words("up"))],
    ),
    (HIDE, Owner::Patch(3), NO_ONE, &[], NOT_ALLOWED, &[]),
    (HIDE, NO_ONE, NO_ONE, &[], NOT_ALLOWED, &[]),
];

#[test]
fn agents_are_drawn_as_the_word_says(rt: HostRuntime) {
    let wrong = wrong_in(rt.alloc(), DRAWN);
    assert!(rt; wrong.is_none(), "{wrong:?}");
}
