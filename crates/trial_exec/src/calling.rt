//! Calls of a machine one by one.
ghost use Rattle.std.specs.Prelude.{◌≡◌, true, IfSome, Ok};
ghost use Rattle.nl_exec.specs.Machines.{IsClosed, IsOpen};
ghost use Rattle.nl_exec.specs.declared.slices.Turn.TheVariants.{More, Ended};

use crate::playing::{SEED, is_end, let_go, program_of, shape_of, tree_of};
use crate::rows::{Ends, WIDE};
use nl_agents::Store;
use nl_exec::{End, Machine, Turn, begin_in_slices, run_in_slices};
use nl_exec_forced::laws::{answers_are_forced, answers_when_it_must, rests_are_whole_or_cut};
use nl_fixed::{NoMemory, Num};
use nl_plain::Plain;
use nl_store::Indexed;
use nl_tree::{Form, Program, Tree};
use nl_value::Value;
use std::alloc::Global;

// A machine with an open text of commands.
fn begun<'a, S: Store>(
    alloc: Global,
    program: &'a Program,
    text: &'a Tree,
    budget: u64,
) -> Option<Machine<'a, S>>
    ensures { IfSome result IsOpen }
{
    let shape = shape_of(WIDE)?;
    let mut machine = Machine::<'a, S>::new(alloc, program, shape, SEED, budget).ok()?;
    if machine.begin(alloc, text, Form::Commands).is_err() {
        let_go(machine);
        return None;
    }
    Some(machine)
}

// Whether so many units are spent, and so many turtles live.
fn stands<S: Store>(machine: &Machine<'_, S>, spent: u64, turtles: usize) -> bool {
    machine.spent() == spent && machine.world().turtle_count() == turtles
}

// Whether a slice left more to do.
fn is_more(turn: &Result<Turn, NoMemory>) -> bool
    ensures { result ≡ true → turn.now ≡ Ok More }
{
    matches!(turn, Ok(Turn::More))
}

// How a slice ended the text, if it did.
fn end_in(turn: Result<Turn, NoMemory>) -> Option<End>
    ensures { IfSome result (λ end. turn ≡ Ok (Ended end)) }
{
    match turn {
        Ok(Turn::Ended(end)) => Some(end),
        Ok(Turn::More) => None,
        Err(_) => None,
    }
}

// Whether a slice leaves more to do, with so many units spent and so many turtles living.
fn goes_on<S: Store>(
    alloc: Global,
    machine: &mut Machine<'_, S>,
    units: u64,
    spent: u64,
    turtles: usize,
) -> bool
    requires { IsOpen machine.old }
    ensures { result ≡ true → IsOpen machine.new }
{
    let turn = machine.advance(alloc, units);
    let more = is_more(&turn);
    let_go(turn);
    more && stands(machine, spent, turtles)
}

// Whether a slice ends the text so, with so many units spent and so many turtles living.
fn ends<S: Store>(
    alloc: Global,
    machine: &mut Machine<'_, S>,
    units: u64,
    wanted: Ends,
    spent: u64,
    turtles: usize,
) -> bool
    requires { IsOpen machine.old }
    ensures { result ≡ true → IsClosed machine.new }
{
    let Some(end) = end_in(machine.advance(alloc, units)) else {
        return false;
    };
    let right = is_end(alloc, machine, &end, wanted);
    let_go(end);
    right && stands(machine, spent, turtles)
}

// ---- slices

fn two_slices<S: Store>(alloc: Global, program: &Program, text: &Tree) -> bool {
    let Some(mut machine) = begun::<S>(alloc, program, text, 100) else {
        return false;
    };
    let right = goes_on(alloc, &mut machine, 3, 3, 2)
        && ends(alloc, &mut machine, 10, Ends::Done, 6, 0);
    let_go(machine);
    right
}

// A slice that is too short for the text leaves more to do, as it must.
fn short_slice<S: Store>(alloc: Global, program: &Program, text: &Tree) -> bool {
    let Some(mut machine) = begun::<S>(alloc, program, text, 100) else {
        return false;
    };
    rests_are_whole_or_cut(&machine);
    answers_are_forced(&machine);
    let turn = answers_when_it_must(alloc, &mut machine, 3);
    let right = is_more(&turn) && stands(&machine, 3, 2);
    let_go(turn);
    let_go(machine);
    right
}

fn six_slices<S: Store>(alloc: Global, program: &Program, text: &Tree) -> bool {
    let Some(mut machine) = begun::<S>(alloc, program, text, 100) else {
        return false;
    };
    let right = goes_on(alloc, &mut machine, 1, 1, 2)
        && goes_on(alloc, &mut machine, 1, 2, 2)
        && goes_on(alloc, &mut machine, 1, 3, 2)
        && goes_on(alloc, &mut machine, 1, 4, 1)
        && goes_on(alloc, &mut machine, 1, 5, 1)
        && ends(alloc, &mut machine, 1, Ends::Done, 6, 0);
    let_go(machine);
    right
}

// A unit is wanted, and the budget is spent.
fn scarce_slice<S: Store>(alloc: Global, program: &Program, text: &Tree) -> bool {
    let Some(mut machine) = begun::<S>(alloc, program, text, 3) else {
        return false;
    };
    let right = ends(alloc, &mut machine, 3, Ends::Budget, 3, 2);
    let_go(machine);
    right
}

// A slice of no units goes on to where the first one is wanted.
fn empty_slice<S: Store>(alloc: Global, program: &Program, text: &Tree) -> bool {
    let Some(mut machine) = begun::<S>(alloc, program, text, 100) else {
        return false;
    };
    let right = goes_on(alloc, &mut machine, 0, 0, 0)
        && ends(alloc, &mut machine, u64::MAX, Ends::Done, 6, 0);
    let_go(machine);
    right
}

// ---- copies and texts that are given up

// A copy comes to the end of its text.
fn copy_ends<S: Store>(alloc: Global, machine: &Machine<'_, S>) -> bool
    requires { IsOpen machine.now }
{
    let Ok(mut copied) = machine.copy(alloc) else {
        return false;
    };
    let right = ends(alloc, &mut copied, 9, Ends::Done, 6, 0);
    let_go(copied);
    right
}

// A copy goes its own way, with units and a world of its own.
fn copy_is_apart<S: Store>(alloc: Global, program: &Program, text: &Tree) -> bool {
    let Some(mut machine) = begun::<S>(alloc, program, text, 6) else {
        return false;
    };
    let right = goes_on(alloc, &mut machine, 4, 4, 1)
        && copy_ends(alloc, &machine)
        && stands(&machine, 4, 1)
        && ends(alloc, &mut machine, 9, Ends::Done, 6, 0);
    let_go(machine);
    right
}

// The open text is given up, and another one begins.
#[tactic(auto, using(crate::proofs::Abandoned::abandoned))]
fn begins_anew<'a, S: Store>(alloc: Global, machine: &mut Machine<'a, S>, text: &'a Tree) -> bool
    ensures { result ≡ true → IsOpen machine.new }
{
    machine.abandon();
    stands(machine, 4, 1) && machine.begin(alloc, text, Form::Commands).is_ok()
}

// A text that is given up leaves the world as it stands, and another one can begin.
fn another_begins<'a, S: Store>(alloc: Global, program: &'a Program, text: &'a Tree) -> bool {
    let Some(mut machine) = begun::<S>(alloc, program, text, 100) else {
        return false;
    };
    let right = goes_on(alloc, &mut machine, 4, 4, 1)
        && begins_anew(alloc, &mut machine, text)
        && ends(alloc, &mut machine, 9, Ends::Done, 12, 0);
    let_go(machine);
    right
}

// ---- texts in slices from their beginning

// A machine that runs no text yet.
fn idle<'a, S: Store>(alloc: Global, program: &'a Program, budget: u64) -> Option<Machine<'a, S>>
    ensures { IfSome result IsClosed }
{
    let shape = shape_of(WIDE)?;
    Machine::<'a, S>::new(alloc, program, shape, SEED, budget).ok()
}

// Slices that are too short for the text leave more to do.
fn slices_go_on<'a, S: Store>(alloc: Global, machine: &mut Machine<'a, S>, text: &'a Tree) -> bool
    requires { IsClosed machine.old }
    ensures { result ≡ true → IsOpen machine.new }
{
    let turn = begin_in_slices(alloc, machine, text, Form::Commands, &[1, 0, 3]);
    let more = is_more(&turn);
    let_go(turn);
    more && stands(machine, 4, 1)
}

fn in_short_slices<'a, S: Store>(alloc: Global, program: &'a Program, text: &'a Tree) -> bool {
    let Some(mut machine) = idle::<S>(alloc, program, 100) else {
        return false;
    };
    let right = slices_go_on(alloc, &mut machine, text)
        && ends(alloc, &mut machine, 9, Ends::Done, 6, 0);
    let_go(machine);
    right
}

// A text comes to its end behind these slices, or within them.
fn comes_to_its_end<'a, S: Store>(
    alloc: Global,
    machine: &mut Machine<'a, S>,
    text: &'a Tree,
    slices: &[u64],
) -> bool
    requires { IsClosed machine.old }
{
    let Ok(end) = run_in_slices(alloc, machine, text, Form::Commands, slices) else {
        return false;
    };
    let done = matches!(end, End::Done);
    let_go(end);
    done && stands(machine, 6, 0)
}

fn in_these_slices<'a, S: Store>(
    alloc: Global,
    program: &'a Program,
    text: &'a Tree,
    slices: &[u64],
) -> bool {
    let Some(mut machine) = idle::<S>(alloc, program, 100) else {
        return false;
    };
    let right = comes_to_its_end(alloc, &mut machine, text, slices);
    let_go(machine);
    right
}

fn in_any_slices<S: Store>(alloc: Global, program: &Program, text: &Tree) -> bool {
    in_these_slices::<S>(alloc, program, text, &[])
        && in_these_slices::<S>(alloc, program, text, &[2, 2])
        && in_these_slices::<S>(alloc, program, text, &[1, 9, 9])
}

// ---- units, variables and the stream

// Whether a lone reporter says this.
fn says<'a, S: Store>(
    alloc: Global,
    machine: &mut Machine<'a, S>,
    text: &'a Tree,
    words: &'static str,
) -> bool
    requires { IsClosed machine.old }
    ensures { result ≡ true → IsClosed machine.new }
{
    if machine.begin(alloc, text, Form::Reporter).is_err() {
        return false;
    }
    let Ok(end) = machine.finish(alloc) else {
        return false;
    };
    let right = is_end(alloc, machine, &end, Ends::Says(words));
    let_go(end);
    right
}

// A variable is set, and two units are spent; a third isn't there.
fn sum_is_said<'a, S: Store>(alloc: Global, machine: &mut Machine<'a, S>, text: &'a Tree) -> bool
    requires { IsClosed machine.old }
{
    let Some(number) = Num::new(2_500_000) else {
        return false;
    };
    machine.set_global(0, Value::Number(number));
    let spent = machine.spend_one() && machine.spend_one() && !machine.spend_one();
    spent && says(alloc, machine, text, "5") && machine.spent() == 2
}

// A global variable is set from outside, and units are spent so.
fn set_from_outside<'a, S: Store>(alloc: Global, program: &'a Program, text: &'a Tree) -> bool {
    let Some(mut machine) = idle::<S>(alloc, program, 2) else {
        return false;
    };
    let right = sum_is_said(alloc, &mut machine, text);
    let_go(machine);
    right
}

// What a reporter says twice, between which the stream is put back.
fn says_twice<'a, S: Store>(alloc: Global, machine: &mut Machine<'a, S>, text: &'a Tree) -> bool
    requires { IsClosed machine.old }
{
    let mark = machine.mark();
    if !says(alloc, machine, text, "[5 9 6]") {
        return false;
    }
    machine.put_back(mark);
    says(alloc, machine, text, "[5 9 6]")
}

fn draws_again<'a, S: Store>(alloc: Global, program: &'a Program, text: &'a Tree) -> bool {
    let Some(mut machine) = idle::<S>(alloc, program, 9) else {
        return false;
    };
    let right = says_twice(alloc, &mut machine, text);
    let_go(machine);
    right
}

// ---- trials

/// What is tried.
#[derive(Clone, Copy)]
enum Trial {
    TwoSlices,
    ShortSlice,
    SixSlices,
    ScarceSlice,
    EmptySlice,
    OwnCopy,
    OtherText,
    ShortSlices,
    AnySlices,
    Outside,
    Stream,
}

fn model_of(trial: Trial) -> &'static str {
    match trial {
        Trial::Outside => "globals [a b]",
        _ => "",
    }
}

fn text_of(trial: Trial) -> (Form, &'static str) {
    match trial {
        Trial::Outside => (Form::Reporter, "a + 2.5"),
        Trial::Stream => (Form::Reporter, "(list random 10 random 10 random 10)"),
        _ => (Form::Commands, "cro 2 ask turtles [ die ]"),
    }
}

fn tried<'a, S: Store>(alloc: Global, trial: Trial, program: &'a Program, text: &'a Tree) -> bool {
    match trial {
        Trial::TwoSlices => two_slices::<S>(alloc, program, text),
        Trial::ShortSlice => short_slice::<S>(alloc, program, text),
        Trial::SixSlices => six_slices::<S>(alloc, program, text),
        Trial::ScarceSlice => scarce_slice::<S>(alloc, program, text),
        Trial::EmptySlice => empty_slice::<S>(alloc, program, text),
        Trial::OwnCopy => copy_is_apart::<S>(alloc, program, text),
        Trial::OtherText => another_begins::<S>(alloc, program, text),
        Trial::ShortSlices => in_short_slices::<S>(alloc, program, text),
        Trial::AnySlices => in_any_slices::<S>(alloc, program, text),
        Trial::Outside => set_from_outside::<S>(alloc, program, text),
        Trial::Stream => draws_again::<S>(alloc, program, text),
    }
}

fn read_and_tried(alloc: Global, trial: Trial, program: &Program) -> bool {
    let (form, words) = text_of(trial);
    let Some(text) = tree_of(alloc, program, form, words) else {
        return false;
    };
    let right = tried::<Plain>(alloc, trial, &*program, &text)
        && tried::<Indexed>(alloc, trial, &*program, &text);
    let_go(text);
    right
}

// Whether a trial goes as is wanted over each store.
fn goes_well(alloc: Global, trial: Trial) -> bool {
    let Some(program) = program_of(alloc, model_of(trial)) else {
        return false;
    };
    let right = read_and_tried(alloc, trial, &program);
    let_go(program);
    right
}

#[test]
fn slices_stop_at_any_unit(rt: HostRuntime) {
    assert!(rt; goes_well(rt.alloc(), Trial::TwoSlices));
    assert!(rt; goes_well(rt.alloc(), Trial::ShortSlice));
    assert!(rt; goes_well(rt.alloc(), Trial::SixSlices));
    assert!(rt; goes_well(rt.alloc(), Trial::ScarceSlice));
    assert!(rt; goes_well(rt.alloc(), Trial::EmptySlice));
}

#[test]
fn texts_come_to_their_end_in_any_slices(rt: HostRuntime) {
    assert!(rt; goes_well(rt.alloc(), Trial::ShortSlices));
    assert!(rt; goes_well(rt.alloc(), Trial::AnySlices));
}

#[test]
fn copies_and_new_texts_go_their_own_way(rt: HostRuntime) {
    assert!(rt; goes_well(rt.alloc(), Trial::OwnCopy));
    assert!(rt; goes_well(rt.alloc(), Trial::OtherText));
}

#[test]
fn variables_and_units_are_reached_from_outside(rt: HostRuntime) {
    assert!(rt; goes_well(rt.alloc(), Trial::Outside));
}

#[test]
fn a_stream_that_is_put_back_draws_again(rt: HostRuntime) {
    assert!(rt; goes_well(rt.alloc(), Trial::Stream));
}
