//! Statements, one after another, and what stands in parentheses.
ghost use Rattle.std.specs.Prelude.{◌≡◌, ◌+◌, ◌<◌, ℕ, ℤ, drop, length};
ghost use Rattle.nl_tree.specs.Tree.{span, parts};
ghost use Rattle.nl_exec_meaning.specs.Code.{Code as Nodes, node_at};
ghost use Rattle.nl_exec_meaning.specs.Blocks.{cut_to, inside_case, negation_case, statements, statements_case};
ghost use Rattle.nl_exec_meaning.specs.Meaning.{text_statements, text_end, is_stopped};
ghost use Rattle.nl_value.specs.Views.{plain};
ghost use Rattle.nl_exec_meaning.specs.State.{State};
ghost use Rattle.nl_exec_meaning.specs.Frames.{resumed};
ghost use Rattle.nl_exec_meaning.specs.Ground.{Ground};
ghost use Rattle.nl_exec_meaning.specs.Means.{Means, Stands};
ghost use Rattle.nl_exec_meaning.specs.Seen.{ended, ground, state_of};
ghost use Rattle.nl_exec_meaning.specs.Standing.{ExitFits, HandsFit, NextFits};
ghost use Rattle.nl_exec_meaning.specs.Weight.{weights};
ghost use Rattle.nl_exec_meaning.specs.Work.{frame_work, next_work};
ghost use Rattle.nl_exec_meaning.specs.declared.frames.Frame.TheVariants as frame;

use nl_agents::Store;
use nl_exec_acts::ErrorKind;
use nl_exec_meaning::children::go;
use nl_exec_meaning::ends::{fault, is_dead, number_of};
use nl_exec_meaning::{Code, Exit, Frame, Hands, Next};
use nl_value::Value;

// ---- one part

/// What stands in parentheses is what they mean.
#[inline]
pub fn enter_inside<S: Store>(code: &Code, hands: &Hands<S>, node: u32) -> Next
    ensures meaning { Means code.now result hands.now hands.now
        (λ prev s. inside_case prev (node_at code.now node) s) }
    ensures falls { next_work code.now result < 6 + weights (parts (node_at code.now node)) }
    ensures fits { NextFits (ground hands.now) result }
{
    go(code, hands, node, 0, Frame::Inside { node })
}

/// The number that a minus sign stands before.
#[inline]
pub fn enter_negation<S: Store>(code: &Code, hands: &Hands<S>, node: u32) -> Next
    ensures meaning { Means code.now result hands.now hands.now
        (λ prev s. negation_case prev (node_at code.now node) s) }
    ensures falls { next_work code.now result < 6 + weights (parts (node_at code.now node)) }
    ensures fits { NextFits (ground hands.now) result }
{
    go(code, hands, node, 0, Frame::Negated { node })
}

/// It becomes its negative.
#[inline]
pub fn resume_negated<S: Store>(code: &Code, hands: &Hands<S>, node: u32, exit: Exit) -> Next
    ensures meaning { Means code.now result hands.now hands.now
        (λ prev s. resumed code.now prev (frame.Negated node) (ended exit s)) }
    ensures falls { next_work code.now result < frame_work code.now (frame.Negated node) }
    ensures fits { ExitFits (ground hands.now) exit → NextFits (ground hands.now) result }
{
    let value = match exit {
        Exit::Gives(value) => value,
        exit => return Next::Answer(exit),
    };
    match number_of(value) {
        Some(number) => Next::Answer(Exit::Gives(Value::Number(number.negate()))),
        None => Next::Answer(fault(ErrorKind::WrongType, code.span(node), hands.site)),
    }
}

// ---- statements

// The locals that a block made are forgotten.
#[inline(always)]
fn cut<S: Store>(hands: &mut Hands<S>, kept: usize)
    requires { HandsFit hands.old }
    ensures state { (c : Nodes) (units : ℕ) →
        state_of c.names hands.new units ≡ cut_to kept (state_of c.names hands.old units) }
    ensures stage { hands.new.stage ≡ hands.old.stage }
    ensures site { hands.new.site ≡ hands.old.site }
    ensures stands { Stands hands.new hands.old }
{
    hands.locals.truncate(kept);
}

// The statements from an index on. A dead agent leaves before each.
#[inline(always)]
pub fn next_statement<S: Store>(
    code: &Code,
    hands: &mut Hands<S>,
    node: u32,
    at: u32,
    kept: usize,
) -> Next
    requires { HandsFit hands.old }
    ensures meaning { Means code.now result hands.new hands.old
        (λ prev s. statements prev kept (drop at (parts (node_at code.now node))) s) }
    ensures falls { next_work code.now result ≡ 0 }
    ensures fits { NextFits (ground hands.new) result }
    ensures stands { Stands hands.new hands.old }
{
    let Some(statement) = code.part(node, at) else {
        cut(hands, kept);
        return Next::Answer(Exit::Gives(Value::Nobody));
    };
    if is_dead(hands) {
        cut(hands, kept);
        return Next::Answer(Exit::Left);
    }
    let frame = Frame::Statement {
        node,
        at: at + 1,
        kept,
    };
    Next::Want(frame, statement)
}

/// A block, or the body of a procedure: its own locals are those behind the ones that are known here.
#[inline(always)]
#[tactic(auto, using(nl_exec_meaning::proofs::Newest::held_length))]
pub fn enter_statements<S: Store>(code: &Code, hands: &mut Hands<S>, node: u32) -> Next
    requires { HandsFit hands.old }
    ensures meaning { Means code.now result hands.new hands.old
        (λ prev s. statements_case prev (node_at code.now node) s) }
    ensures falls { next_work code.now result ≡ 0 }
    ensures fits { NextFits (ground hands.new) result }
    ensures stands { Stands hands.new hands.old }
{
    let kept = hands.locals.len();
    next_statement(code, hands, node, 0, kept)
}

/// A statement is over.
#[inline(always)]
pub fn resume_statement<S: Store>(
    code: &Code,
    hands: &mut Hands<S>,
    node: u32,
    at: u32,
    kept: usize,
    exit: Exit,
) -> Next
    requires { HandsFit hands.old }
    ensures meaning { Means code.now result hands.new hands.old
        (λ prev s. resumed code.now prev (frame.Statement node at kept) (ended exit s)) }
    ensures falls { next_work code.now result < frame_work code.now (frame.Statement node at kept) }
    ensures fits { ExitFits (ground hands.old) exit → NextFits (ground hands.new) result }
    ensures stands { Stands hands.new hands.old }
{
    match exit {
        Exit::Gives(_) => next_statement(code, hands, node, at, kept),
        Exit::Stopped => {
            cut(hands, kept);
            Next::Answer(Exit::Stopped)
        }
        Exit::Reported(value) => {
            cut(hands, kept);
            Next::Answer(Exit::Reported(value))
        }
        Exit::Left => {
            cut(hands, kept);
            Next::Answer(Exit::Left)
        }
        exit => Next::Answer(exit),
    }
}

// ---- statements of a lone text

// How a lone text ends, of which a statement was a call that `stop` ended, or none was.
#[inline]
fn text_end(stopped: bool) -> Exit
    ensures meaning { (s : State) → ended result s ≡ text_end stopped s }
    ensures fits { (g : Ground) → ExitFits g result }
{
    if stopped {
        Exit::Stopped
    } else {
        Exit::Gives(Value::Nobody)
    }
}

/// The statements of a lone text from an index on, and whether one before was a call that `stop` ended.
#[inline]
pub fn next_text_statement<S: Store>(
    code: &Code,
    hands: &mut Hands<S>,
    node: u32,
    at: u32,
    stopped: bool,
) -> Next
    requires { HandsFit hands.old }
    ensures meaning { Means code.now result hands.new hands.old
        (λ prev s. text_statements prev (drop at (parts (node_at code.now node))) stopped s) }
    ensures falls { next_work code.now result ≡ 0 }
    ensures fits { NextFits (ground hands.new) result }
    ensures stands { Stands hands.new hands.old }
{
    let Some(child) = code.part(node, at) else {
        cut(hands, 0);
        return Next::Answer(text_end(stopped));
    };
    if is_dead(hands) {
        cut(hands, 0);
        return Next::Answer(Exit::Left);
    }
    let frame = Frame::TextStatement {
        node,
        at: at + 1,
        stopped,
    };
    Next::Want(frame, child)
}

// Whether a statement that went on was a call that `stop` ended.
#[inline]
fn is_stopped(value: Value) -> bool
    ensures { result ≡ is_stopped (plain value) }
{
    match value {
        Value::Truth(truth) => truth,
        _ => false,
    }
}

/// A statement of a lone text is over.
#[inline]
pub fn resume_text_statement<S: Store>(
    code: &Code,
    hands: &mut Hands<S>,
    node: u32,
    at: u32,
    stopped: bool,
    exit: Exit,
) -> Next
    requires { HandsFit hands.old }
    ensures meaning { Means code.now result hands.new hands.old
        (λ prev s. resumed code.now prev (frame.TextStatement node at stopped) (ended exit s)) }
    ensures falls { next_work code.now result < frame_work code.now (frame.TextStatement node at stopped) }
    ensures fits { ExitFits (ground hands.old) exit → NextFits (ground hands.new) result }
    ensures stands { Stands hands.new hands.old }
{
    match exit {
        Exit::Gives(value) => {
            let stopped = stopped || is_stopped(value);
            next_text_statement(code, hands, node, at, stopped)
        }
        Exit::Stopped => {
            cut(hands, 0);
            Next::Answer(Exit::Stopped)
        }
        Exit::Reported(value) => {
            cut(hands, 0);
            Next::Answer(Exit::Reported(value))
        }
        Exit::Left => {
            cut(hands, 0);
            Next::Answer(Exit::Left)
        }
        exit => Next::Answer(exit),
    }
}
