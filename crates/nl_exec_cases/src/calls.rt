//! Calls of procedures, and `report`.
ghost use Rattle.std.specs.Prelude.{◌≡◌, ℕ, ◌≤◌, ◌<◌, ◌+◌, ◌∷◌, length, List, IsTrue, IfOk, slice_get};
ghost use Rattle.std.specs.Option.{option_copied};
ghost use Rattle.nl_tree.specs.Tree.{parts, span};
ghost use Rattle.nl_exec_meaning.specs.Code.{Code as Nodes, inputs_at, node_at};
ghost use Rattle.nl_exec_meaning.specs.State.{Held, State};
ghost use Rattle.nl_exec_meaning.specs.Calls.{bound, called, returned_by};
ghost use Rattle.nl_exec_cases.specs.Calling.{back_by, ends_text};
ghost use Rattle.nl_exec_meaning.specs.Meaning.{report_case};
ghost use Rattle.nl_exec_meaning.specs.Frames.{resumed};
ghost use Rattle.nl_exec_meaning.specs.Ground.{Ground, SiteFits, all_fit};
ghost use Rattle.nl_exec_meaning.specs.Kept.{all_held};
ghost use Rattle.nl_exec_meaning.specs.Means.{Means, Stands};
ghost use Rattle.nl_exec_meaning.specs.Seen.{ended, ground, state_of};
ghost use Rattle.nl_exec_meaning.specs.Sound.{IsSound};
ghost use Rattle.nl_exec_meaning.specs.Standing.{ExitFits, HandsFit, LocalsFit, NextFits};
ghost use Rattle.nl_exec_meaning.specs.Weight.{weights};
ghost use Rattle.nl_exec_meaning.specs.Work.{frame_work, next_work};
ghost use Rattle.nl_exec_meaning.specs.declared.frames.Frame.TheVariants as frame;

use nl_agents::Store;
use nl_exec_acts::ErrorKind;
use nl_exec_meaning::children::go;
use nl_exec_meaning::ends::fault;
use nl_exec_meaning::{BoxedSite, Code, Exit, Frame, Hands, Local, Locals, Next, Site};
use nl_fixed::{NoMemory, Span};
use nl_tree::Procedure;
use nl_value::{Items, Value};
use std::alloc::Global;

// ---- the locals of a call

// The values by the names of the inputs, of which there are as many.
fn bind(alloc: Global, code: &Code, procedure: u32, made: &Items) -> Result<Locals, NoMemory>
    requires many { length made.now ≡ length (inputs_at code.now.program procedure) }
    ensures held { IfOk result (λ locals.
        all_held code.now.names locals ≡ bound (inputs_at code.now.program procedure) made.now) }
    ensures fits { (g : Ground) → IsTrue (all_fit g made.now) → IfOk result (λ locals. LocalsFit g locals) }
{
    let many = made.len();
    let mut locals = Locals::with_room(alloc, many)?;
    for value in made.as_slice() {
        let Some(id) = code.input(procedure, locals.len()) else {
            return Ok(locals);
        };
        let value = value.copy(alloc)?;
        locals.push(alloc, Local { id, value })?;
    }
    Ok(locals)
}

// What is declared of a procedure.
fn procedure_of<'a>(code: &Code<'a>, procedure: u32) -> Option<&'a Procedure>
    ensures { option_copied result ≡ slice_get code.now.program.declared.procedures procedure }
{
    let declared = code.program().declared();
    declared.procedures.as_slice().get(procedure as usize)
}

/// The body of a procedure comes next, with the values as its inputs.
#[inline(never)]
pub fn call<S: Store>(
    alloc: Global,
    code: &Code,
    hands: &mut Hands<S>,
    node: u32,
    procedure: u32,
    made: Items,
) -> Result<Next, NoMemory>
    requires sound { IsSound code.now.program (ground hands.old).layout }
    requires fit { HandsFit hands.old }
    requires made { IsTrue (all_fit (ground hands.old) made) }
    ensures meaning { IfOk result (λ next. Means code.now next hands.new hands.old
        (λ prev s. called code.now.program procedure prev (span (node_at code.now node)) made s)) }
    ensures falls { IfOk result (λ next. next_work code.now next ≤ 3) }
    ensures fits { IfOk result (λ next. NextFits (ground hands.new) next) }
    ensures stands { IfOk result (λ next. Stands hands.new hands.old) }
{
    let (Some(about), Some(body)) = (procedure_of(code, procedure), code.body(procedure)) else {
        return Ok(Next::Answer(fault(ErrorKind::WrongType, code.span(node), hands.site)));
    };
    if made.len() != about.inputs.as_slice().len() {
        return Ok(Next::Answer(fault(ErrorKind::WrongType, code.span(node), hands.site)));
    }
    let inputs = bind(alloc, code, procedure, &made)?;
    let site = BoxedSite::new(alloc, hands.site)?;
    hands.site.body = u64::from(procedure) + 1;
    let saved = std::mem::replace(&mut hands.locals, inputs);
    let frame = Frame::Body {
        node,
        reporter: about.reporter,
        saved,
        site,
    };
    Ok(Next::Go(frame, body))
}

/// The body has ended: the caller has its locals, and runs where it ran.
#[inline]
pub fn resume_body<S: Store>(
    code: &Code,
    hands: &mut Hands<S>,
    node: u32,
    reporter: bool,
    saved: Locals,
    site: BoxedSite,
    exit: Exit,
) -> Next
    requires saved { LocalsFit (ground hands.old) saved }
    requires site { SiteFits (ground hands.old) site }
    requires value { ExitFits (ground hands.old) exit }
    requires fit { HandsFit hands.old }
    ensures meaning { Means code.now result hands.new hands.old
        (λ prev s. resumed code.now prev (frame.Body node reporter saved site) (ended exit s)) }
    ensures falls { next_work code.now result < frame_work code.now (frame.Body node reporter saved site) }
    ensures fits { NextFits (ground hands.new) result }
    ensures stands { Stands hands.new hands.old }
{
    let site = site.get();
    back(hands, ends_text(&exit), saved, site);
    Next::Answer(returned(reporter, exit, code.span(node), site))
}

// Unless the whole text ends, the caller has its locals, and runs where it ran.
#[inline]
fn back<S: Store>(hands: &mut Hands<S>, ends: bool, saved: Locals, site: Site)
    requires saved { LocalsFit (ground hands.old) saved }
    requires site { SiteFits (ground hands.old) site }
    requires fit { HandsFit hands.old }
    ensures state { (c : Nodes) (units : ℕ) →
        state_of c.names hands.new units ≡ back_by ends (all_held c.names saved) site (state_of c.names hands.old units) }
    ensures stands { Stands hands.new hands.old }
{
    if !ends {
        hands.locals = saved;
        hands.site = site;
    }
}

// Whether the whole text ends so.
fn ends_text(exit: &Exit) -> bool
    ensures { result ≡ ends_text exit.now }
{
    matches!(exit, Exit::Error(..))
}

// What the end of a body is to its caller: a command goes on, and a reporter has its value.
fn returned(reporter: bool, exit: Exit, place: Span, site: Site) -> Exit
    ensures meaning { (saved : List Held) (s : State) →
        ended result (back_by (ends_text exit) saved site s) ≡ returned_by reporter place saved site (ended exit s) }
    ensures fits { (g : Ground) → ExitFits g exit → ExitFits g result }
{
    match exit {
        Exit::Error(kind, at, body) => Exit::Error(kind, at, body),
        Exit::Left => Exit::Left,
        Exit::Gives(_) if !reporter => Exit::Gives(Value::Nobody),
        Exit::Stopped if !reporter => Exit::Gives(Value::Truth(true)),
        Exit::Reported(_) if !reporter => Exit::Gives(Value::Nobody),
        Exit::Reported(value) => Exit::Gives(value),
        Exit::Gives(_) | Exit::Stopped => fault(ErrorKind::NoReport, place, site),
    }
}

// ---- `report`

/// The value comes first.
#[inline]
pub fn enter_report<S: Store>(code: &Code, hands: &Hands<S>, node: u32) -> Next
    ensures meaning { Means code.now result hands.now hands.now
        (λ prev s. report_case prev (node_at code.now node) s) }
    ensures falls { next_work code.now result < 6 + weights (parts (node_at code.now node)) }
    ensures fits { NextFits (ground hands.now) result }
{
    go(code, hands, node, 0, Frame::ReportValue { node })
}

/// The body is left with the value.
#[inline]
pub fn resume_report<S: Store>(code: &Code, hands: &Hands<S>, node: u32, exit: Exit) -> Next
    ensures meaning { Means code.now result hands.now hands.now
        (λ prev s. resumed code.now prev (frame.ReportValue node) (ended exit s)) }
    ensures falls { next_work code.now result < frame_work code.now (frame.ReportValue node) }
    ensures fits { ExitFits (ground hands.now) exit → NextFits (ground hands.now) result }
{
    match exit {
        Exit::Gives(value) => Next::Answer(Exit::Reported(value)),
        exit => Next::Answer(exit),
    }
}
