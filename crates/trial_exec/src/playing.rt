//! Machines that run the texts of rows.
ghost use Rattle.std.specs.Prelude.{◌≡◌, true, IsTrue, IfSome, OnSome};
ghost use Rattle.nl_tree.specs.Names.{AreWidgets};
ghost use Rattle.nl_value.specs.Views.{plain};
ghost use Rattle.nl_exec_meaning.specs.Ground.{fits, ground_of};
ghost use Rattle.nl_exec.specs.Endings.{EndFits};
ghost use Rattle.nl_exec.specs.Machines.{IsClosed, IsOpen, world_of};

use crate::rows::{Ends, Row, Way, World};
use nl_agents::{Layout, Store, View};
use nl_check_model::{read_lone, read_program};
use nl_exec::{End, Machine, Turn};
use nl_fixed::Names;
use nl_grid::Shape;
use nl_plain::Plain;
use nl_scan::{Source, scan};
use nl_store::Indexed;
use nl_tree::{Form, Program, Tree};
use nl_value::Value;
use nl_value::texts::text;
use std::alloc::Global;

/// The seed of each row.
pub(crate) const SEED: u64 = 42;

/// More units than a row wants.
pub(crate) const AMPLE: u64 = 10_000_000;

/// Lets go of a thing by one call: what ends inside of a function is walked there, once on each way out.
pub(crate) fn let_go<T: Drop>(_thing: T) {}

// ---- texts

fn no_widgets(alloc: Global) -> Names
    ensures { AreWidgets result }
{
    Names::empty(alloc)
}

/// The checked program of a model that has no widgets; none where that has a fault.
pub(crate) fn program_of(alloc: Global, code: &str) -> Option<Program> {
    let bytes = code.as_bytes();
    let tokens = scan(alloc, bytes).ok()?;
    let source = Source::new(bytes, tokens.as_slice());
    read_program(alloc, &source, no_widgets(alloc)).ok()
}

/// The tree of a text that the observer runs; none where it has a fault.
pub(crate) fn tree_of(alloc: Global, program: &Program, form: Form, text: &str) -> Option<Tree> {
    read_lone(alloc, text.as_bytes(), form, program).ok()
}

// Appends the trees of the lone reporters of a row; false where one has a fault.
fn add_trees(alloc: Global, program: &Program, row: &Row, trees: &mut Vec<Tree>) -> bool {
    for (reporter, _) in row.looks {
        let Some(tree) = tree_of(alloc, program, Form::Reporter, reporter) else {
            return false;
        };
        if trees.push(tree).is_err() {
            return false;
        }
    }
    true
}

pub(crate) fn shape_of(world: World) -> Option<Shape> {
    let World {
        least,
        greatest,
        wraps,
    } = world;
    Shape::new(least, greatest, least, greatest, wraps, wraps)
}

// ---- ends

// Whether a value has a text.
#[tactic(auto, using(nl_exec_meaning::proofs::Grounds::fits_is))]
fn prints<S: Store>(alloc: Global, store: &S, layout: &Layout, value: &Value, words: &str) -> bool
    requires layout { layout.now ≡ (S.world store.now).rest.layout }
    requires value { IsTrue (fits (ground_of (S.world store.now).rest) (plain value.now)) }
{
    match text(alloc, value, false, &View::new(store, layout)) {
        Ok(text) => text.as_bytes() == words.as_bytes(),
        Err(_) => false,
    }
}

/// Whether a text of the machine has ended as is wanted.
pub(crate) fn is_end<S: Store>(
    alloc: Global,
    machine: &Machine<'_, S>,
    end: &End,
    ends: Ends,
) -> bool
    requires { EndFits (ground_of (world_of machine.now).rest) end.now }
{
    match end {
        End::Done => matches!(ends, Ends::Done),
        End::Stopped => matches!(ends, Ends::Stopped),
        End::Budget => matches!(ends, Ends::Budget),
        End::Reported(value) => match ends {
            Ends::Says(words) => prints(alloc, machine.world(), machine.layout(), value, words),
            _ => false,
        },
        End::Error { kind, span, body } => match ends {
            Ends::Fails(wanted, at, place) => {
                *kind == wanted && span.start == at && *body == place
            }
            _ => false,
        },
    }
}

// ---- ways to the end

// The end of the open text, in slices of so many units.
fn end_in_slices<S: Store>(alloc: Global, machine: &mut Machine<'_, S>, units: u64) -> Option<End>
    requires { IsOpen machine.old }
    ensures fits { IfSome result (EndFits (ground_of (world_of machine.new).rest)) }
    ensures closed { OnSome result (IsClosed machine.new) }
{
    for _ in 0..AMPLE {
        match machine.advance(alloc, units).ok()? {
            Turn::Ended(end) => return Some(end),
            Turn::More => {}
        }
    }
    None
}

// The end of the open text, in slices of so many units, where a copy goes on each time.
fn end_by_copies<S: Store>(alloc: Global, machine: &mut Machine<'_, S>, units: u64) -> Option<End>
    requires { IsOpen machine.old }
    ensures fits { IfSome result (EndFits (ground_of (world_of machine.new).rest)) }
    ensures closed { OnSome result (IsClosed machine.new) }
{
    for _ in 0..AMPLE {
        let copied = machine.copy(alloc).ok()?;
        let_go(std::mem::replace(machine, copied));
        match machine.advance(alloc, units).ok()? {
            Turn::Ended(end) => return Some(end),
            Turn::More => {}
        }
    }
    None
}

/// The end of the open text.
pub(crate) fn end_of<S: Store>(alloc: Global, machine: &mut Machine<'_, S>, way: Way) -> Option<End>
    requires { IsOpen machine.old }
    ensures fits { IfSome result (EndFits (ground_of (world_of machine.new).rest)) }
    ensures closed { OnSome result (IsClosed machine.new) }
{
    match way {
        Way::Whole => machine.finish(alloc).ok(),
        Way::Slices(units) => end_in_slices(alloc, machine, units),
        Way::Copies(units) => end_by_copies(alloc, machine, units),
    }
}

// ---- rows

/// A program and the trees of its texts, all lent for one time, as a machine holds them.
#[derive(Clone, Copy)]
pub(crate) struct Texts<'a> {
    pub program: &'a Program,
    pub commands: &'a Tree,
    pub looks: &'a [Tree],
}

// Whether a lone reporter ends as is wanted. The random stream is put back behind it.
fn looks_right<'a, S: Store>(
    alloc: Global,
    machine: &mut Machine<'a, S>,
    reporter: &'a Tree,
    ends: Ends,
) -> bool
    requires { IsClosed machine.old }
    ensures { result ≡ true → IsClosed machine.new }
{
    let mark = machine.mark();
    if machine.begin(alloc, reporter, Form::Reporter).is_err() {
        return false;
    }
    let Ok(end) = machine.finish(alloc) else {
        return false;
    };
    let right = is_end(alloc, machine, &end, ends);
    let_go(end);
    machine.put_back(mark);
    right
}

// Whether the lone reporters of a row end as is wanted.
fn all_look_right<'a, S: Store>(
    alloc: Global,
    machine: &mut Machine<'a, S>,
    looks: &'a [Tree],
    row: &Row,
) -> bool
    requires { IsClosed machine.old }
{
    for (reporter, (_, ends)) in looks.iter().zip(row.looks) {
        if !looks_right(alloc, machine, reporter, *ends) {
            return false;
        }
    }
    true
}

// Whether a row's text and its lone reporters end as is wanted.
fn plays_on<'a, S: Store>(
    alloc: Global,
    machine: &mut Machine<'a, S>,
    texts: Texts<'a>,
    row: &Row,
    way: Way,
) -> bool
    requires { IsClosed machine.old }
{
    if machine
        .begin(alloc, texts.commands, Form::Commands)
        .is_err()
    {
        return false;
    }
    let Some(end) = end_of(alloc, machine, way) else {
        return false;
    };
    let right = is_end(alloc, machine, &end, row.ends);
    let_go(end);
    right && machine.spent() == row.spent && all_look_right(alloc, machine, texts.looks, row)
}

// Whether a row's text and its lone reporters end as is wanted over a store, with so many units to spend.
fn plays<'a, S: Store>(
    alloc: Global,
    texts: Texts<'a>,
    shape: Shape,
    budget: u64,
    row: &Row,
    way: Way,
) -> bool {
    let Ok(mut machine) = Machine::<'a, S>::new(alloc, texts.program, shape, SEED, budget) else {
        return false;
    };
    let right = plays_on(alloc, &mut machine, texts, row, way);
    let_go(machine);
    right
}

// The same for a row's text as a tree, over each store.
fn looks_and_plays(
    alloc: Global,
    program: &Program,
    commands: &Tree,
    shape: Shape,
    budget: u64,
    row: &Row,
    way: Way,
) -> bool {
    let mut looks = Vec::new(alloc);
    let right = add_trees(alloc, program, row, &mut looks)
        && {
            let texts = Texts {
                program,
                commands,
                looks: &looks,
            };
            plays::<Plain>(alloc, texts, shape, budget, row, way)
                && plays::<Indexed>(alloc, texts, shape, budget, row, way)
        };
    let_go(looks);
    right
}

// Whether a row holds over a program, over each store.
fn holds(alloc: Global, program: &Program, world: World, budget: u64, row: &Row, way: Way) -> bool {
    let Some(shape) = shape_of(world) else {
        return false;
    };
    let Some(commands) = tree_of(alloc, program, Form::Commands, row.text) else {
        return false;
    };
    let right = looks_and_plays(alloc, program, &commands, shape, budget, row, way);
    let_go(commands);
    right
}

// The first of these ways in which a row doesn't hold.
fn wrong_way(
    alloc: Global,
    program: &Program,
    world: World,
    budget: u64,
    row: &Row,
    ways: &[Way],
) -> Option<(&'static str, Way)> {
    for way in ways {
        if !holds(alloc, program, world, budget, row, *way) {
            return Some((row.text, *way));
        }
    }
    None
}

// The first row that doesn't hold over a program, with so many units to spend, and the way.
fn wrong_row_with(
    alloc: Global,
    program: &Program,
    world: World,
    rows: &[(u64, Row)],
    ways: &[Way],
) -> Option<(&'static str, Way)> {
    for (budget, row) in rows {
        let wrong = wrong_way(alloc, program, world, *budget, row, ways);
        if wrong.is_some() {
            return wrong;
        }
    }
    None
}

// The same with ample units.
fn wrong_row(
    alloc: Global,
    program: &Program,
    world: World,
    rows: &[Row],
    ways: &[Way],
) -> Option<(&'static str, Way)> {
    for row in rows {
        let wrong = wrong_way(alloc, program, world, AMPLE, row, ways);
        if wrong.is_some() {
            return wrong;
        }
    }
    None
}

/// The first row that doesn't hold over a model, with so many units to spend, and the way; the model where that has a fault.
pub(crate) fn wrong_with(
    alloc: Global,
    model: &'static str,
    world: World,
    rows: &[(u64, Row)],
    ways: &[Way],
) -> Option<(&'static str, Way)> {
    let Some(program) = program_of(alloc, model) else {
        return Some((model, Way::Whole));
    };
    let wrong = wrong_row_with(alloc, &program, world, rows, ways);
    let_go(program);
    wrong
}

/// The same with ample units.
pub(crate) fn wrong_in(
    alloc: Global,
    model: &'static str,
    world: World,
    rows: &[Row],
    ways: &[Way],
) -> Option<(&'static str, Way)> {
    let Some(program) = program_of(alloc, model) else {
        return Some((model, Way::Whole));
    };
    let wrong = wrong_row(alloc, &program, world, rows, ways);
    let_go(program);
    wrong
}
