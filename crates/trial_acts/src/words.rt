//! The clock, clears, the stream, random coordinates, bounds, who runs and who asked, links, and sets among values.

use crate::deeds::{
    DOMAIN, DONE, Deed, ME, NO_AGENT, NO_ONE, OVERFLOW, Row, SEED, TICKS_OFF, WRONG, wrong_in,
};
use crate::given::Given::{Agent, Number, Pair, Truth, Words};
use crate::told::After::{Base, Drawn, Links, Ticks, Turtles};
use crate::told::{After, Told};
use nl_agents::Owner;
use nl_exec_acts::{Bound, Clear, Clock, OfRun, Spot, Whom};
use nl_listops::ValueWord;
use nl_listops::words::{OfList, Search};
use trial_stores::naming::Named;
use trial_stores::trial_model::FOXES;

const CLEAR_TURTLES: Deed = Deed::Clears(Clear::Turtles);

const CLEAR_LINKS: Deed = Deed::Clears(Clear::Links);

const CLEAR_PATCHES: Deed = Deed::Clears(Clear::Patches);

const RANDOM_PXCOR: Deed = Deed::Spots(Spot::Pxcor);

const RANDOM_PYCOR: Deed = Deed::Spots(Spot::Pycor);

const RANDOM_XCOR: Deed = Deed::Spots(Spot::Xcor);

const RANDOM_YCOR: Deed = Deed::Spots(Spot::Ycor);

const MIN_PXCOR: Deed = Deed::Bound(Bound::MinPxcor);

const MAX_PXCOR: Deed = Deed::Bound(Bound::MaxPxcor);

const MIN_PYCOR: Deed = Deed::Bound(Bound::MinPycor);

const MAX_PYCOR: Deed = Deed::Bound(Bound::MaxPycor);

const WIDTH: Deed = Deed::Bound(Bound::Width);

const HEIGHT: Deed = Deed::Bound(Bound::Height);

const NUMBER: Deed = Deed::Run(OfRun::Number);

const EXPERIMENT: Deed = Deed::Run(OfRun::Experiment);

const CALLER: Deed = Deed::Whom(Whom::Caller);

const ASKER: Deed = Deed::Whom(Whom::Asker);

const OTHER_END: Deed = Deed::Whom(Whom::OtherEnd);

const FAR: i64 = 9_000_000_000_000_000_000;

const OFF: &[After] = &[Ticks(None)];

const CLOCK: &[Row] = &[
    (
        Deed::Clocks(Clock::Ticks, None),
        NO_ONE,
        NO_ONE,
        &[],
        TICKS_OFF,
        OFF,
    ),
    (
        Deed::Clocks(Clock::Advance, None),
        NO_ONE,
        NO_ONE,
        &[],
        TICKS_OFF,
        OFF,
    ),
    (
        Deed::Clocks(Clock::AdvanceBy, None),
        NO_ONE,
        NO_ONE,
        &[Number(-1)],
        TICKS_OFF,
        OFF,
    ),
    (
        Deed::Clocks(Clock::AdvanceBy, None),
        NO_ONE,
        NO_ONE,
        &[Truth(true)],
        WRONG,
        OFF,
    ),
    (
        Deed::Clocks(Clock::Reset, None),
        NO_ONE,
        NO_ONE,
        &[],
        DONE,
        &[Ticks(Some(0))],
    ),
    (
        Deed::Clocks(Clock::Clear, Some(5)),
        NO_ONE,
        NO_ONE,
        &[],
        DONE,
        OFF,
    ),
    (
        Deed::Clocks(Clock::Ticks, Some(1_500_000)),
        NO_ONE,
        NO_ONE,
        &[],
        Told::Number(1_500_000),
        &[Ticks(Some(1_500_000))],
    ),
    (
        Deed::Clocks(Clock::Advance, Some(500_000)),
        NO_ONE,
        NO_ONE,
        &[],
        DONE,
        &[Ticks(Some(1_500_000))],
    ),
    (
        Deed::Clocks(Clock::AdvanceBy, Some(1_000_000)),
        NO_ONE,
        NO_ONE,
        &[Number(500_000)],
        DONE,
        &[Ticks(Some(1_500_000))],
    ),
    (
        Deed::Clocks(Clock::AdvanceBy, Some(7)),
        NO_ONE,
        NO_ONE,
        &[Number(-1)],
        DOMAIN,
        &[Ticks(Some(7))],
    ),
    (
        Deed::Clocks(Clock::Advance, Some(FAR)),
        NO_ONE,
        NO_ONE,
        &[],
        OVERFLOW,
        &[Ticks(Some(FAR))],
    ),
];

#[test]
fn the_clock_goes_forward_where_it_is_on(rt: HostRuntime) {
    let wrong = wrong_in(rt.alloc(), CLOCK);
    assert!(rt; wrong.is_none(), "{wrong:?}");
}

const CLEARS: &[Row] = &[
    (
        CLEAR_TURTLES,
        NO_ONE,
        NO_ONE,
        &[],
        DONE,
        &[Turtles(0), Links(0), Base(6)],
    ),
    (
        CLEAR_LINKS,
        NO_ONE,
        NO_ONE,
        &[],
        DONE,
        &[Turtles(3), Links(0), Base(2)],
    ),
    (
        CLEAR_PATCHES,
        NO_ONE,
        NO_ONE,
        &[],
        DONE,
        &[Turtles(3), Links(4)],
    ),
];

#[test]
fn clears_take_what_they_name(rt: HostRuntime) {
    let wrong = wrong_in(rt.alloc(), CLEARS);
    assert!(rt; wrong.is_none(), "{wrong:?}");
}

// The first draw of the stream of the seed 42 is 0 of five, and 4,361,865 of 5,000,000.
const STREAM: &[Row] = &[
    (
        Deed::Seeds,
        NO_ONE,
        NO_ONE,
        &[Number(7_900_000)],
        DONE,
        &[Drawn(7, 0)],
    ),
    (
        Deed::Seeds,
        NO_ONE,
        NO_ONE,
        &[Number(-1_900_000)],
        DONE,
        &[Drawn(u64::MAX, 0)],
    ),
    (
        Deed::Seeds,
        NO_ONE,
        NO_ONE,
        &[Truth(true)],
        WRONG,
        &[Drawn(SEED, 0)],
    ),
    (
        RANDOM_PXCOR,
        NO_ONE,
        NO_ONE,
        &[],
        Told::Number(-2_000_000),
        &[Drawn(SEED, 1)],
    ),
    (
        RANDOM_PYCOR,
        NO_ONE,
        NO_ONE,
        &[],
        Told::Number(-2_000_000),
        &[Drawn(SEED, 1)],
    ),
    (
        RANDOM_XCOR,
        NO_ONE,
        NO_ONE,
        &[],
        Told::Number(1_861_865),
        &[Drawn(SEED, 1)],
    ),
    (
        RANDOM_YCOR,
        NO_ONE,
        NO_ONE,
        &[],
        Told::Number(1_861_865),
        &[Drawn(SEED, 1)],
    ),
];

#[test]
fn coordinates_are_drawn_once(rt: HostRuntime) {
    let wrong = wrong_in(rt.alloc(), STREAM);
    assert!(rt; wrong.is_none(), "{wrong:?}");
}

const BOUNDS: &[Row] = &[
    (
        MIN_PXCOR,
        NO_ONE,
        NO_ONE,
        &[],
        Told::Number(-2_000_000),
        &[],
    ),
    (MAX_PXCOR, NO_ONE, NO_ONE, &[], Told::Number(2_000_000), &[]),
    (
        MIN_PYCOR,
        NO_ONE,
        NO_ONE,
        &[],
        Told::Number(-2_000_000),
        &[],
    ),
    (MAX_PYCOR, NO_ONE, NO_ONE, &[], Told::Number(2_000_000), &[]),
    (WIDTH, NO_ONE, NO_ONE, &[], Told::Number(5_000_000), &[]),
    (HEIGHT, NO_ONE, NO_ONE, &[], Told::Number(5_000_000), &[]),
    (NUMBER, NO_ONE, NO_ONE, &[], Told::Number(0), &[]),
    (EXPERIMENT, NO_ONE, NO_ONE, &[], Told::Number(0), &[]),
];

#[test]
fn the_run_tells_its_bounds(rt: HostRuntime) {
    let wrong = wrong_in(rt.alloc(), BOUNDS);
    assert!(rt; wrong.is_none(), "{wrong:?}");
}

const WHO: &[Row] = &[
    (CALLER, ME, NO_ONE, &[], Told::Turtle(2), &[]),
    (CALLER, Owner::Patch(3), NO_ONE, &[], Told::Patch(3), &[]),
    (CALLER, Owner::Link(1), NO_ONE, &[], Told::Link(1), &[]),
    (CALLER, NO_ONE, ME, &[], NO_AGENT, &[]),
    (ASKER, ME, Owner::Patch(3), &[], Told::Patch(3), &[]),
    (ASKER, ME, NO_ONE, &[], NO_AGENT, &[]),
    (OTHER_END, ME, Owner::Link(0), &[], Told::Turtle(5), &[]),
    (OTHER_END, Owner::Link(0), ME, &[], Told::Turtle(5), &[]),
    (
        OTHER_END,
        Owner::Turtle(3),
        Owner::Link(0),
        &[],
        NO_AGENT,
        &[],
    ),
    (OTHER_END, ME, Owner::Turtle(3), &[], NO_AGENT, &[]),
    (
        OTHER_END,
        Owner::Link(0),
        Owner::Link(1),
        &[],
        NO_AGENT,
        &[],
    ),
    (OTHER_END, ME, Owner::Link(9), &[], NO_AGENT, &[]),
    (
        Deed::IsLink(true),
        NO_ONE,
        NO_ONE,
        &[Agent(Named::Link(0))],
        Told::Truth(true),
        &[],
    ),
    (
        Deed::IsLink(true),
        NO_ONE,
        NO_ONE,
        &[Agent(Named::Link(3))],
        Told::Truth(false),
        &[],
    ),
    (
        Deed::IsLink(true),
        NO_ONE,
        NO_ONE,
        &[Agent(Named::Link(9))],
        Told::Truth(false),
        &[],
    ),
    (
        Deed::IsLink(false),
        NO_ONE,
        NO_ONE,
        &[Agent(Named::Link(2))],
        Told::Truth(true),
        &[],
    ),
    (
        Deed::IsLink(false),
        NO_ONE,
        NO_ONE,
        &[Number(1_000_000)],
        Told::Truth(false),
        &[],
    ),
    (Deed::IsLink(false), NO_ONE, NO_ONE, &[], WRONG, &[]),
];

#[test]
fn agents_are_told_of_each_other(rt: HostRuntime) {
    let wrong = wrong_in(rt.alloc(), WHO);
    assert!(rt; wrong.is_none(), "{wrong:?}");
}

const SORT: Deed = Deed::Values(ValueWord::OfList(OfList::Sort));

const MEMBER: Deed = Deed::Values(ValueWord::Search(Search::Member));

const SORTS: &[Row] = &[
    (
        SORT,
        NO_ONE,
        NO_ONE,
        &[Agent(Named::Turtles)],
        Told::Turtles(&[2, 3, 5]),
        &[Drawn(SEED, 0)],
    ),
    (
        SORT,
        NO_ONE,
        NO_ONE,
        &[Agent(Named::Breed(FOXES))],
        Told::Turtles(&[3, 5]),
        &[],
    ),
    (
        SORT,
        NO_ONE,
        NO_ONE,
        &[Agent(Named::SomeTurtles(4, 5))],
        Told::Turtles(&[5]),
        &[],
    ),
    // By their ends: those of no breed and ropes from 2 to 3, then the wire from 2 to 5, and the one from 5 to 2.
    (
        SORT,
        NO_ONE,
        NO_ONE,
        &[Agent(Named::Links)],
        Told::Links(&[3, 2, 1, 0]),
        &[],
    ),
    (
        SORT,
        NO_ONE,
        NO_ONE,
        &[Pair(2, 1)],
        Told::Numbers(&[1, 2]),
        &[],
    ),
    (SORT, NO_ONE, NO_ONE, &[Number(1)], WRONG, &[]),
];

#[test]
fn sets_are_sorted(rt: HostRuntime) {
    let wrong = wrong_in(rt.alloc(), SORTS);
    assert!(rt; wrong.is_none(), "{wrong:?}");
}

const MEMBERS: &[Row] = &[
    (
        MEMBER,
        NO_ONE,
        NO_ONE,
        &[Agent(Named::Turtle(2)), Agent(Named::Turtles)],
        Told::Truth(true),
        &[],
    ),
    (
        MEMBER,
        NO_ONE,
        NO_ONE,
        &[Agent(Named::Turtle(4)), Agent(Named::Turtles)],
        Told::Truth(false),
        &[],
    ),
    (
        MEMBER,
        NO_ONE,
        NO_ONE,
        &[Agent(Named::Turtle(4)), Agent(Named::SomeTurtles(4, 5))],
        Told::Truth(false),
        &[],
    ),
    (
        MEMBER,
        NO_ONE,
        NO_ONE,
        &[Agent(Named::Turtle(5)), Agent(Named::SomeTurtles(4, 5))],
        Told::Truth(true),
        &[],
    ),
    (
        MEMBER,
        NO_ONE,
        NO_ONE,
        &[Agent(Named::Turtle(2)), Agent(Named::Breed(FOXES))],
        Told::Truth(false),
        &[],
    ),
    (
        MEMBER,
        NO_ONE,
        NO_ONE,
        &[Agent(Named::Turtle(3)), Agent(Named::Breed(FOXES))],
        Told::Truth(true),
        &[],
    ),
    (
        MEMBER,
        NO_ONE,
        NO_ONE,
        &[Agent(Named::Turtle(3)), Agent(Named::Patches)],
        Told::Truth(false),
        &[],
    ),
    (
        MEMBER,
        NO_ONE,
        NO_ONE,
        &[Agent(Named::Patch(3)), Agent(Named::Patches)],
        Told::Truth(true),
        &[],
    ),
    (
        MEMBER,
        NO_ONE,
        NO_ONE,
        &[Agent(Named::Patch(3)), Agent(Named::SomePatches(3, 4))],
        Told::Truth(true),
        &[],
    ),
    (
        MEMBER,
        NO_ONE,
        NO_ONE,
        &[Agent(Named::Patch(3)), Agent(Named::SomePatches(4, 5))],
        Told::Truth(false),
        &[],
    ),
    (
        MEMBER,
        NO_ONE,
        NO_ONE,
        &[Agent(Named::Link(0)), Agent(Named::Links)],
        Told::Truth(true),
        &[],
    ),
    (
        MEMBER,
        NO_ONE,
        NO_ONE,
        &[Agent(Named::Link(9)), Agent(Named::Links)],
        Told::Truth(false),
        &[],
    ),
    (
        MEMBER,
        NO_ONE,
        NO_ONE,
        &[Agent(Named::Link(2)), Agent(Named::SomeLinks(1, 2))],
        Told::Truth(true),
        &[],
    ),
    (
        MEMBER,
        NO_ONE,
        NO_ONE,
        &[Agent(Named::Nobody), Agent(Named::Turtles)],
        Told::Truth(false),
        &[],
    ),
    (
        MEMBER,
        NO_ONE,
        NO_ONE,
        &[Number(2), Agent(Named::Turtles)],
        Told::Truth(false),
        &[],
    ),
    (
        MEMBER,
        NO_ONE,
        NO_ONE,
        &[Number(2), Pair(1, 2)],
        Told::Truth(true),
        &[],
    ),
    (
        MEMBER,
        NO_ONE,
        NO_ONE,
        &[Words("a"), Words("ba")],
        Told::Truth(true),
        &[],
    ),
    (MEMBER, NO_ONE, NO_ONE, &[Number(2)], WRONG, &[]),
];

#[test]
fn members_live_and_are_listed(rt: HostRuntime) {
    let wrong = wrong_in(rt.alloc(), MEMBERS);
    assert!(rt; wrong.is_none(), "{wrong:?}");
}
