//! Sweeps of two variables, and of as many runs and variables as there may be.
ghost use Rattle.std.specs.Prelude.{◌≡◌, IsTrue, IfSome};
ghost use Rattle.nl_experiment_sweep.specs.Varied.{AllHaveValues, HasValues};
ghost use Rattle.nl_experiment_sweep.specs.Sweep.{IsRun, IsSweep, runs_of};

use crate::varied::{millionths_at, number_of};
use crate::*;
use nl_fixed::{NoMemory, Num, Str};
use nl_value::{Items, Value};
use std::alloc::Global;

// What a sweep asks of its choices, as far as it can be tested.
fn has_values(choice: &Choice) -> bool
    ensures { IsTrue result → HasValues choice.now }
{
    match choice {
        Choice::Listed(values) => values.len() > 0,
        Choice::Stepped { from, step, count } => {
            if *count == 0 || *count > MOST_RUNS || step.millionths() <= 0 {
                return false;
            }
            number_of(millionths_at(*from, *step, *count - 1)).is_some()
        }
    }
}

fn all_have_values(varies: &[Vary]) -> bool
    ensures { IsTrue result → AllHaveValues varies.now }
{
    let mut left = varies;
    'varied: while let Some((vary, behind)) = left.split_first() {
        left = behind;
        if !has_values(&vary.choice) {
            return false;
        }
    }
    true
}

fn is_sweep(order: Order, varies: &Varies) -> bool
    ensures { IsTrue result → IsSweep order varies.now }
{
    if order.repetitions == 0 || !all_have_values(varies.as_slice()) {
        return false;
    }
    runs(order, varies).is_some()
}

// How many runs there are; none where this is no sweep.
fn run_count(order: Order, varies: &Varies) -> Option<u64>
    ensures { IfSome result (λ count. count ≡ runs_of order varies.now) }
{
    if !all_have_values(varies.as_slice()) {
        return None;
    }
    runs(order, varies)
}

// Whether this is a sweep that has the run.
fn has_run(order: Order, varies: &Varies, run: u64) -> bool
    ensures sweep { IsTrue result → IsSweep order varies.now }
    ensures run { IsTrue result → IsRun order varies.now run }
{
    if run == 0 || !is_sweep(order, varies) {
        return false;
    }
    match run_count(order, varies) {
        Some(last) => run <= last,
        None => false,
    }
}

fn listed(alloc: Global, varies: &mut Varies, name: &str, counts: &[i64]) -> Option<()> {
    let mut values = Items::empty(alloc);
    for count in counts {
        values.push(alloc, Value::Number(Num::new(*count)?)).ok()?;
    }
    let name = Str::of(alloc, name.as_bytes()).ok()?;
    let choice = Choice::Listed(values);
    varies.push(alloc, Vary { name, choice }).ok()
}

fn stepped(
    alloc: Global,
    varies: &mut Varies,
    name: &str,
    from: i64,
    step: i64,
    count: u64,
) -> Option<()> {
    let name = Str::of(alloc, name.as_bytes()).ok()?;
    let choice = Choice::Stepped {
        from: Num::new(from)?,
        step: Num::new(step)?,
        count,
    };
    varies.push(alloc, Vary { name, choice }).ok()
}

// Two variables over 1 and 2.
fn grid(alloc: Global) -> Option<Varies> {
    let mut varies = Varies::empty(alloc);
    listed(alloc, &mut varies, "a", &[1_000_000, 2_000_000])?;
    stepped(alloc, &mut varies, "b", 1_000_000, 1_000_000, 2)?;
    Some(varies)
}

fn count_of(setting: &Setting) -> i64 {
    match setting.value {
        Value::Number(number) => number.millionths(),
        _ => 0,
    }
}

// The sum of a run's settings, each ten times as much as the next one; None where there is no such run, and at want of memory.
fn joined(alloc: Global, order: Order, varies: &Varies, run: u64) -> Option<i64> {
    if !has_run(order, varies, run) {
        return None;
    }
    let settings = settings(alloc, order, varies, run).ok()?;
    let mut sum = 0_i64;
    for setting in settings.as_slice() {
        sum = sum.wrapping_mul(10).wrapping_add(count_of(setting));
    }
    Some(sum)
}

const TOGETHER: [i64; 8] = [11, 11, 12, 12, 21, 21, 22, 22];

const IN_TURN: [i64; 8] = [11, 12, 21, 22, 11, 12, 21, 22];

fn are_joined(alloc: Global, sequential: bool, wanted: &[i64]) -> bool {
    let order = Order {
        repetitions: 2,
        sequential,
    };
    let Some(varies) = grid(alloc) else {
        return false;
    };
    let mut run = 0_u64;
    for sum in wanted {
        run = run.wrapping_add(1);
        if joined(alloc, order, &varies, run) != Some(sum.wrapping_mul(1_000_000)) {
            return false;
        }
    }
    run_count(order, &varies) == Some(run)
}

#[test]
fn repetitions_come_together_or_in_turn(rt: HostRuntime) {
    assert!(rt; are_joined(rt.alloc(), true, &TOGETHER));
    assert!(rt; are_joined(rt.alloc(), false, &IN_TURN));
}

fn seed_at(order: Order, varies: &Varies, first: u64, run: u64) -> Option<u64> {
    if !has_run(order, varies, run) {
        return None;
    }
    Some(seed(order, varies, first, run))
}

const THREE: Order = Order {
    repetitions: 3,
    sequential: true,
};

// The seed that is given, a run, and the seed that it has.
type Seeded = (u64, u64, u64);

const COUNTED_UP: &[Seeded] = &[
    (42, 1, 42),
    (42, 3, 44),
    (9_223_372_036_854_775_807, 2, 9_223_372_036_854_775_808),
    (u64::MAX, 2, 0),
];

const VARIED: &[Seeded] = &[(42, 3, 7), (42, 4, 0)];

// Whether each of these runs has its seed.
fn have_seeds(varies: &Varies, rows: &[Seeded]) -> bool {
    for (first, run, wanted) in rows {
        if seed_at(THREE, varies, *first, *run) != Some(*wanted) {
            return false;
        }
    }
    true
}

fn are_counted_up(alloc: Global) -> bool {
    have_seeds(&Varies::empty(alloc), COUNTED_UP)
}

fn are_varied(alloc: Global) -> bool {
    let mut seeds = Varies::empty(alloc);
    listed(alloc, &mut seeds, "random-seed", &[7_000_000, 0]).is_some()
        && have_seeds(&seeds, VARIED)
}

#[test]
fn seeds_count_up_unless_they_are_varied(rt: HostRuntime) {
    assert!(rt; are_counted_up(rt.alloc()));
    assert!(rt; are_varied(rt.alloc()));
}

const PLAIN: World = World {
    min_x: -16,
    max_x: 16,
    min_y: -16,
    max_y: 16,
    wrap_x: true,
    wrap_y: false,
};

const ONCE: Order = Order {
    repetitions: 1,
    sequential: true,
};

// Whether each run has a world; None where this is no sweep.
fn have_worlds(world: World, varies: &Varies) -> Option<bool> {
    if is_sweep(ONCE, varies) {
        Some(all_have_worlds(ONCE, varies, world))
    } else {
        None
    }
}

// How many patches the world of a run has, if there is such a world.
fn patches_of(world: World, varies: &Varies, run: u64) -> Option<u32> {
    if !has_run(ONCE, varies, run) {
        return None;
    }
    let shape = shape(ONCE, varies, world, run)?;
    Some(shape.patches())
}

// Another variable of a thousand values, and the least x of two.
fn varied_bound(alloc: Global) -> Option<Varies> {
    let mut varies = Varies::empty(alloc);
    stepped(alloc, &mut varies, "other", 0, 1, 1_000)?;
    stepped(alloc, &mut varies, "min-pxcor", -1_000_000, 1_000_000, 2)?;
    Some(varies)
}

// The least y of three values, of which the last makes no world.
fn broken_bound(alloc: Global) -> Option<Varies> {
    let mut varies = Varies::empty(alloc);
    stepped(alloc, &mut varies, "min-pycor", -1_000_000, 1_000_000, 3)?;
    Some(varies)
}

// Whether all runs have a world or not, as is told, and each of these so many patches.
fn have_patches(varies: Option<Varies>, all: bool, rows: &[(u64, Option<u32>)]) -> bool {
    let Some(varies) = varies else {
        return false;
    };
    for (run, patches) in rows {
        if patches_of(PLAIN, &varies, *run) != *patches {
            return false;
        }
    }
    have_worlds(PLAIN, &varies) == Some(all)
}

const WIDE: &[(u64, Option<u32>)] = &[(1, Some(18 * 33)), (2_000, Some(17 * 33))];

const HIGH: &[(u64, Option<u32>)] = &[(2, Some(33 * 17)), (3, None)];

#[test]
fn worlds_follow_the_bounds_that_are_varied(rt: HostRuntime) {
    let nothing = Varies::empty(rt.alloc());
    assert!(rt; patches_of(PLAIN, &nothing, 1) == Some(33 * 33));
    assert!(rt; have_patches(varied_bound(rt.alloc()), true, WIDE));
}

#[test]
fn the_last_value_of_a_bound_may_break_the_world(rt: HostRuntime) {
    assert!(rt; have_patches(broken_bound(rt.alloc()), false, HIGH));
}

const SQUARE: World = World {
    min_x: -255,
    max_x: 256,
    min_y: -255,
    max_y: 256,
    wrap_x: true,
    wrap_y: true,
};

// 481 times 545 patches are one more than there may be.
const TOO_LARGE: World = World {
    min_x: -480,
    max_x: 0,
    min_y: 0,
    max_y: 544,
    wrap_x: true,
    wrap_y: true,
};

#[test]
fn worlds_have_at_most_so_many_patches(rt: HostRuntime) {
    let nothing = Varies::empty(rt.alloc());
    assert!(rt; patches_of(SQUARE, &nothing, 1) == Some(262_144));
    assert!(rt; have_worlds(TOO_LARGE, &nothing) == Some(false));
}

// One variable of a hundred thousand values.
fn long(alloc: Global, step: i64) -> Option<Varies> {
    let mut varies = Varies::empty(alloc);
    stepped(alloc, &mut varies, "a", 0, step, 100_000)?;
    Some(varies)
}

// Beside it one of two values.
fn too_long(alloc: Global) -> Option<Varies> {
    let mut varies = long(alloc, 1)?;
    listed(alloc, &mut varies, "b", &[0, 0])?;
    Some(varies)
}

// Whether there are as many runs as there may be, and with three repetitions none.
fn are_at_the_limit(alloc: Global) -> bool {
    let Some(varies) = long(alloc, 1_000_000) else {
        return false;
    };
    run_count(ONCE, &varies) == Some(100_000)
        && joined(alloc, ONCE, &varies, 100_000) == Some(99_999_000_000)
        && run_count(THREE, &varies).is_none()
}

fn are_too_many(alloc: Global) -> bool {
    match too_long(alloc) {
        Some(varies) => run_count(ONCE, &varies).is_none(),
        None => false,
    }
}

#[test]
fn runs_are_counted_up_to_the_limit(rt: HostRuntime) {
    assert!(rt; are_at_the_limit(rt.alloc()));
    assert!(rt; are_too_many(rt.alloc()));
}

// So many variables of one value, and one of three.
fn many(alloc: Global, count: u64) -> Option<Varies> {
    let mut varies = Varies::empty(alloc);
    for _ in 0..count {
        listed(alloc, &mut varies, "same", &[0])?;
    }
    listed(alloc, &mut varies, "last", &[5, 6, 7])?;
    Some(varies)
}

#[test]
fn thousands_of_variables_are_set(rt: HostRuntime) {
    let Some(varies) = many(rt.alloc(), 20_000) else {
        panic!(rt; "want of memory");
    };
    assert!(rt; joined(rt.alloc(), THREE, &varies, 4) == Some(6));
    assert!(rt; joined(rt.alloc(), THREE, &varies, 9) == Some(7));
}

// One variable whose one value is a text of so many letters.
fn worded(alloc: Global, letters: u64) -> Option<Varies> {
    let mut text = Str::of(alloc, b"").ok()?;
    for _ in 0..letters {
        text.append(alloc, b"x").ok()?;
    }
    let mut values = Items::empty(alloc);
    values.push(alloc, Value::words(alloc, text).ok()?).ok()?;
    let mut varies = Varies::empty(alloc);
    let name = Str::of(alloc, b"word").ok()?;
    let choice = Choice::Listed(values);
    varies.push(alloc, Vary { name, choice }).ok()?;
    Some(varies)
}

// How long the text is to which the first run sets the first variable.
fn word_length(alloc: Global, varies: &Varies) -> Option<usize> {
    if !has_run(ONCE, varies, 1) {
        return None;
    }
    let settings = settings(alloc, ONCE, varies, 1).ok()?;
    match settings.as_slice() {
        [setting] => match &setting.value {
            Value::Words(text) => Some(text.as_bytes().len()),
            _ => None,
        },
        _ => None,
    }
}

#[test]
fn long_values_are_set(rt: HostRuntime) {
    let Some(varies) = worded(rt.alloc(), 500_000) else {
        panic!(rt; "want of memory");
    };
    assert!(rt; word_length(rt.alloc(), &varies) == Some(500_000));
}

#[test]
fn laws_are_stated() {
    crate::laws::runs_go_through_all_combinations();
    crate::laws::combinations_are_choices();
    crate::laws::runs_differ_in_seeds();
    crate::laws::the_first_variable_is_the_slowest();
}
