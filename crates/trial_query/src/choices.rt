//! Choices among members and items, at the seed 42.

use crate::asking::{CALLER, ONE, Row, Told, assert_rows};
use crate::giving::Given;
use nl_agentset_query::fail::QueryFail::{Domain, TooFew, WrongType};
use nl_words::codes;
use trial_stores::naming::Named;

const ALL: Given = Given::Agent(Named::Turtles);

const FAR: i64 = 9_000_000_000_000_000_000;

// The first places of a shuffle of three are 2, 1 and 0.
const CHOICES: &[Row] = &[
    (
        codes::ONE_OF,
        None,
        &[Given::Agent(Named::SomeTurtles(1, 4))],
        Told::Nobody,
    ),
    (
        codes::ONE_OF,
        None,
        &[Given::Numbers(&[])],
        Told::Fail(TooFew),
    ),
    (
        codes::ONE_OF,
        None,
        &[Given::Number(0)],
        Told::Fail(WrongType),
    ),
    (
        codes::ONE_OF,
        None,
        &[Given::Numbers(&[7])],
        Told::Number(7),
    ),
    (
        codes::N_OF,
        None,
        &[Given::Number(1_900_000), Given::Numbers(&[1, 2, 3])],
        Told::Numbers(&[3]),
    ),
    (
        codes::N_OF,
        None,
        &[Given::Number(2 * ONE), ALL],
        Told::Turtles(&[3, 5]),
    ),
    (
        codes::N_OF,
        None,
        &[Given::Number(4 * ONE), ALL],
        Told::Fail(TooFew),
    ),
    (
        codes::N_OF,
        None,
        &[Given::Number(-1), ALL],
        Told::Fail(Domain),
    ),
    (
        codes::UP_TO_N_OF,
        None,
        &[Given::Number(FAR), ALL],
        Told::Turtles(&[2, 3, 5]),
    ),
    (
        codes::UP_TO_N_OF,
        None,
        &[Given::Number(-1), ALL],
        Told::Fail(Domain),
    ),
];

#[test]
fn choices_keep_the_order_of_what_they_choose_from(rt: HostRuntime) {
    assert_rows(&rt, rt.alloc(), CALLER, CHOICES);
}
