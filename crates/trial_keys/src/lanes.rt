//! Runs that take turns, over runs of plain data.
ghost use Rattle.std.specs.Prelude.{◌≡◌, ◌≤◌, IfOk, length};

use crate::lanes_plan::{Fault, Plan, Row, plan_of};
use nl_fixed::{NoMemory, Str};
use nl_lanes::{LanesFail, Pool, drive};
use nl_outer::MemSink;
use std::alloc::Global;

// A pool of a plan.
fn pool_of(
    alloc: Global,
    rows: &[Row],
    lanes: u64,
    fault: (u64, Fault),
) -> Result<Pool<Plan>, NoMemory>
    requires { 1 ≤ lanes }
    ensures { IfOk result (λ pool. length pool.standing.lanes ≡ lanes) }
{
    let plan = plan_of(alloc, rows, fault)?;
    let runs = rows.len() as u64;
    Pool::new(alloc, plan, runs, lanes)
}

// What rounds put, with room for so many bytes and a put that is to fail and keep so many bytes: how they end, the bytes, and how many runs ended.
fn rounds_of(
    alloc: Global,
    pool: &mut Pool<Plan>,
    units: u64,
    failing: (u64, u64),
) -> Result<(Result<(), LanesFail>, MemSink), NoMemory>
    requires { 1 ≤ units }
{
    let mut out = MemSink::with_room(alloc, 10_000)?;
    out.fail_call(alloc, failing.0, failing.1)?;
    let answer = drive(alloc, pool, units, &mut out);
    Ok((answer, out))
}

/// Rows, lanes, units a turn, and the texts in the order in which they come.
type Case = (&'static [Row], u64, u64, &'static [u8]);

const MOST: u64 = 1_000_000_000;

/// Seventy runs, of 0 to 10 units.
const SEVENTY: &[Row] = &[
    (b"01", 10),
    (b"02", 1),
    (b"03", 6),
    (b"04", 3),
    (b"05", 3),
    (b"06", 6),
    (b"07", 1),
    (b"08", 10),
    (b"09", 0),
    (b"10", 4),
    (b"11", 0),
    (b"12", 10),
    (b"13", 1),
    (b"14", 6),
    (b"15", 3),
    (b"16", 3),
    (b"17", 6),
    (b"18", 1),
    (b"19", 10),
    (b"20", 0),
    (b"21", 4),
    (b"22", 0),
    (b"23", 10),
    (b"24", 1),
    (b"25", 6),
    (b"26", 3),
    (b"27", 3),
    (b"28", 6),
    (b"29", 1),
    (b"30", 10),
    (b"31", 0),
    (b"32", 4),
    (b"33", 0),
    (b"34", 10),
    (b"35", 1),
    (b"36", 6),
    (b"37", 3),
    (b"38", 3),
    (b"39", 6),
    (b"40", 1),
    (b"41", 10),
    (b"42", 0),
    (b"43", 4),
    (b"44", 0),
    (b"45", 10),
    (b"46", 1),
    (b"47", 6),
    (b"48", 3),
    (b"49", 3),
    (b"50", 6),
    (b"51", 1),
    (b"52", 10),
    (b"53", 0),
    (b"54", 4),
    (b"55", 0),
    (b"56", 10),
    (b"57", 1),
    (b"58", 6),
    (b"59", 3),
    (b"60", 3),
    (b"61", 6),
    (b"62", 1),
    (b"63", 10),
    (b"64", 0),
    (b"65", 4),
    (b"66", 0),
    (b"67", 10),
    (b"68", 1),
    (b"69", 6),
    (b"70", 3),
];

const IN_ORDER: &[u8] =
    b"0102030405060708091011121314151617181920212223242526272829303132333435363738394041424344454647484950\
        5152535455565758596061626364656667686970";

/// As they end in sixteen lanes, with two units a turn.
const IN_TURNS: &[u8] =
    b"0207091113040518102015160322062421141729312633270135320825124028423744193846362343515339484955305754\
        3447626450596660684165584561705269566367";

const CASES: &[Case] = &[
    (&[], 1, 1, b""),
    (&[], 16, MOST, b""),
    (&[(b"a", 0)], 1, 1, b"a"),
    (&[(b"a", 0), (b"b", 0), (b"c", 0)], 2, 1, b"abc"),
    // five and three units, in turns of two
    (&[(b"1", 5), (b"2", 3)], 2, 2, b"21"),
    (&[(b"1", 5), (b"2", 3)], 1, 2, b"12"),
    (&[(b"1", 5), (b"2", 3)], 2, 5, b"12"),
    (&[(b"1", 5), (b"2", 3)], 2, 3, b"21"),
    // one that wants just the units ends
    (&[(b"1", 2), (b"2", 1)], 2, 2, b"12"),
    (&[(b"1", 3), (b"2", 2)], 2, 2, b"21"),
    // those that end in one round come in order of lanes
    (&[(b"1", 2), (b"2", 1), (b"3", 2)], 3, 2, b"123"),
    (
        &[(b"1", 10), (b"2", 1), (b"3", 10), (b"4", 9)],
        2,
        1,
        b"2134",
    ),
    // units that are left aren't those of the next run, which comes in the next round
    (&[(b"1", 1), (b"2", 2), (b"3", 3)], 2, 4, b"123"),
    (&[(b"1", 1), (b"2", 9), (b"3", 5)], 2, 5, b"132"),
    // more lanes than runs
    (&[(b"1", 2), (b"2", 1), (b"3", 0)], 16, 1, b"231"),
    // many units
    (&[(b"1", MOST), (b"2", 1)], 2, MOST, b"12"),
    (&[(b"1", MOST), (b"2", 1)], 2, MOST - 1, b"21"),
    (&[(b"", 5), (b"long", 5), (b"", 1)], 2, 2, b"long"),
    (SEVENTY, 1, 3, IN_ORDER),
    (SEVENTY, 16, 10, IN_ORDER),
    (SEVENTY, 2, MOST, IN_ORDER),
    (SEVENTY, 16, 2, IN_TURNS),
];

fn comes(alloc: Global, rows: &[Row], lanes: u64, units: u64, wanted: &[u8]) -> bool {
    if lanes < 1 || units < 1 {
        return false;
    }
    let Ok(mut pool) = pool_of(alloc, rows, lanes, (0, Fault::Nowhere)) else {
        return false;
    };
    match rounds_of(alloc, &mut pool, units, (0, 0)) {
        Ok((answer, out)) => answer == Ok(())
            && out.bytes() == wanted
            && pool.ended() == rows.len() as u64,
        Err(_) => false,
    }
}

#[test]
fn texts_come_when_their_runs_end(rt: HostRuntime) {
    for (rows, lanes, units, wanted) in CASES {
        assert!(rt;
            comes(rt.alloc(), rows, *lanes, *units, wanted),
            "{lanes} {units} {wanted:?}"
        );
    }
}

const THREE: &[Row] = &[(b"one", 5), (b"two", 3), (b"three", 4)];

/// A put that is to fail and how many bytes it keeps; the bytes that are put then, and how many runs have ended.
const FAILING: &[((u64, u64), &[u8], u64)] = &[
    ((1, 0), b"", 1),
    ((1, 2), b"tw", 1),
    ((1, 9), b"two", 1),
    ((2, 0), b"two", 2),
    ((2, 1), b"twoo", 2),
    ((3, 0), b"twoone", 3),
    ((3, 4), b"twoonethre", 3),
];

fn stops(alloc: Global, failing: (u64, u64), wanted: &[u8], ended: u64) -> bool {
    let Ok(mut pool) = pool_of(alloc, THREE, 2, (0, Fault::Nowhere)) else {
        return false;
    };
    match rounds_of(alloc, &mut pool, 2, failing) {
        Ok((answer, out)) => answer == Err(LanesFail::Write)
            && out.bytes() == wanted
            && pool.ended() == ended,
        Err(_) => false,
    }
}

#[test]
fn each_text_is_one_put_and_none_comes_behind_one_that_failed(rt: HostRuntime) {
    for (failing, wanted, ended) in FAILING {
        assert!(rt; stops(rt.alloc(), *failing, wanted, *ended), "{failing:?}");
    }
}

/// Where memory is wanting; the bytes that are put then, and how many runs have ended.
const WANTING: &[((u64, Fault), &[u8], u64)] = &[
    ((1, Fault::Begin), b"", 0),
    ((2, Fault::Begin), b"", 0),
    ((3, Fault::Begin), b"twoone", 2),
    ((1, Fault::Advance), b"", 0),
    ((3, Fault::Advance), b"twoone", 2),
    ((1, Fault::Text), b"two", 1),
    ((2, Fault::Text), b"", 0),
    ((3, Fault::Text), b"twoone", 2),
];

// Rounds end for want of memory, with these bytes; further rounds put none, and so does each further turn.
fn wants(alloc: Global, fault: (u64, Fault), wanted: &[u8], ended: u64) -> bool {
    let Ok(mut pool) = pool_of(alloc, THREE, 2, fault) else {
        return false;
    };
    ends_so(alloc, &mut pool, wanted) && ends_so(alloc, &mut pool, b"") && pool.ended() == ended
}

fn ends_so(alloc: Global, pool: &mut Pool<Plan>, wanted: &[u8]) -> bool {
    match rounds_of(alloc, pool, 2, (0, 0)) {
        Ok((answer, out)) => answer == Err(LanesFail::NoMemory) && out.bytes() == wanted,
        Err(_) => false,
    }
}

#[test]
fn behind_a_want_of_memory_nothing_is_put(rt: HostRuntime) {
    for (fault, wanted, ended) in WANTING {
        assert!(rt; wants(rt.alloc(), *fault, wanted, *ended), "{fault:?}");
    }
}

/// A lane of two, its units, and the text that the turn gives.
type ByHand = (u64, u64, Option<&'static [u8]>);

/// Turns of these runs in any order.
const TURNS: &[ByHand] = &[
    (2, 2, None),
    (2, 3, Some(b"one")),
    (2, 1, None),
    (1, 9, Some(b"three")),
    (1, 9, None),
    (2, 1, None),
    (2, 1, Some(b"two")),
    (2, 9, None),
];

// Whether a turn of one of two lanes gives this.
fn gives(alloc: Global, pool: &mut Pool<Plan>, turn: ByHand) -> bool
    requires { length pool.old.standing.lanes ≡ 2 }
    ensures { length pool.new.standing.lanes ≡ 2 }
{
    let (lane, units, wanted) = turn;
    if lane < 1 || lane > 2 || units < 1 {
        return false;
    }
    match (pool.turn(alloc, lane, units), wanted) {
        (Ok(Some(text)), Some(wanted)) => text.as_bytes() == wanted,
        (Ok(None), None) => true,
        _ => false,
    }
}

fn by_hand(alloc: Global) -> bool {
    let Ok(mut pool) = pool_of(alloc, THREE, 2, (0, Fault::Nowhere)) else {
        return false;
    };
    'turns: for turn in TURNS {
        if !gives(alloc, &mut pool, *turn) {
            return false;
        }
    }
    pool.ended() == 3
}

#[test]
fn lanes_take_turns_in_any_order(rt: HostRuntime) {
    assert!(rt; by_hand(rt.alloc()));
}

// So many runs of one byte, of 0 to 6 units.
fn short_runs(alloc: Global, count: u64) -> Result<Vec<Row>, NoMemory> {
    let mut rows: Vec<Row> = Vec::new(alloc);
    for number in 0..count {
        rows.push((b"x", number % 7))?;
    }
    Ok(rows)
}

// Whether so many runs all come in so many lanes.
fn all_come(alloc: Global, count: u64, lanes: u64) -> bool
    requires { 1 ≤ lanes }
{
    let Ok(rows) = short_runs(alloc, count) else {
        return false;
    };
    let Ok(mut pool) = pool_of(alloc, rows.as_slice(), lanes, (0, Fault::Nowhere)) else {
        return false;
    };
    match rounds_of(alloc, &mut pool, 2, (0, 0)) {
        Ok((answer, out)) => answer == Ok(())
            && out.bytes().len() as u64 == count
            && pool.ended() == count,
        Err(_) => false,
    }
}

#[test]
fn runs_and_lanes_far_past_the_usual_come(rt: HostRuntime) {
    assert!(rt; all_come(rt.alloc(), 10_000, 3_000));
}
