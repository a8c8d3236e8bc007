//! Statements that are done at once.
ghost use Rattle.std.specs.Prelude.{◌≡◌, ◌+◌, ◌^◌, ◌<◌, ◌≤◌, ℕ, suc, Option, None, IfSome, true, false, drop, length};
ghost use Rattle.nl_agents_layout.specs.Nouns.{BreedNumber};
ghost use Rattle.nl_exec_acts.specs.Acts.{is_gone};
ghost use Rattle.nl_tree.specs.Tree.{label, parts, span};
ghost use Rattle.nl_exec_meaning.specs.declared.words.Built.TheVariants as built;
ghost use Rattle.nl_exec_meaning.specs.declared.words.Making.TheVariants as the_making;
ghost use Rattle.nl_exec_meaning.specs.Cases as case;
ghost use Rattle.nl_exec_meaning.specs.Cases.{case_of};
ghost use Rattle.nl_exec_meaning.specs.Code.{node_at};
ghost use Rattle.nl_exec_meaning.specs.Blocks.{part_of, statements};
ghost use Rattle.nl_exec_meaning.specs.Meaning.{evaluator, limited, set_case};
ghost use Rattle.nl_exec_meaning.specs.State.{goes_on};
ghost use Rattle.nl_exec_meaning.specs.Means.{Stands};
ghost use Rattle.nl_exec_meaning.specs.Seen.{state_of};
ghost use Rattle.nl_exec_meaning.specs.Standing.{HandsFit};
ghost use Rattle.nl_exec_at_once.specs.AtOnce.{GoesOn, GoesUpTo, IsAsBefore, choosing, left_of, far_left};
ghost use Rattle.nl_exec_at_once.specs.declared.statements.TheConstants.{PLAIN_NESTED as plain_nested, MOST_NESTED as most_nested};

use crate::linking::do_link;
use crate::moving::do_move;
use crate::setting::set_number;
use crate::walking::walk;
use nl_agents::Store;
use nl_birth::Way;
use nl_exec_acts::Act;
use nl_exec_meaning::ends::is_dead;
use nl_exec_meaning::{Built, Code, Control, Hands, Making, Op};
use nl_exec_short::draws::drawn;
use nl_exec_short::running::may_run;
use nl_exec_short::truths::truth_or_chance;
use nl_words::Kinds;
use std::alloc::Global;

/// So many nodes at most stand in each other in a statement without a block that is done at once.
pub const PLAIN_NESTED: usize = 7;

/// So many nodes at most stand in each other in any statement that is done at once.
pub const MOST_NESTED: usize = 10;

// ---- statements without a block

// A variable is set to a number.
#[inline(always)]
fn set<S: Store>(alloc: Global, code: &Code, hands: &mut Hands<S>, node: u32) -> bool
    requires fit { HandsFit hands.old }
    ensures done { result ≡ true → (room n : ℕ) → 6 < room →
        set_case code.now.program (evaluator code.now.program room) (node_at code.now node)
        (state_of code.now.names hands.old n) ≡ goes_on (state_of code.now.names hands.new n) }
    ensures not { result ≡ false → IsAsBefore hands.new hands.old }
    ensures stands { Stands hands.new hands.old }
{
    let Some(variable) = code.part(node, 0) else {
        return false;
    };
    let Some(part) = code.part(node, 1) else {
        return false;
    };
    let mark = hands.stage.stream.save();
    let done = match drawn(alloc, code, hands, part) {
        Some(number) => set_number(code, hands, variable, number),
        None => false,
    };
    if !done {
        hands.stage.stream.restore(mark);
    }
    done
}

// Which way the links of no breed lead that a word makes with the turtles of a set.
#[inline(always)]
fn way_of(breed: Option<u32>, word: Built) -> Option<Way>
    ensures breed { IfSome result (λ way. breed ≡ None) }
    ensures word { IfSome result (λ way. word ≡ built.Making (the_making.Link way false)) }
{
    let None = breed else {
        return None;
    };
    let Built::Making(making) = word else {
        return None;
    };
    match making {
        Making::Link { way, one: false } => Some(way),
        _ => None,
    }
}

// A statement is done that runs no block, where that is done at once; else nothing is changed. The unit of the statement itself is spent
// before.
#[inline(always)]
fn do_plain<S: Store>(
    alloc: Global,
    code: &Code,
    hands: &mut Hands<S>,
    node: u32,
    units: &mut u64,
) -> bool
    requires fit { HandsFit hands.old }
    ensures done { result ≡ true → GoesOn code.now node plain_nested hands.new units.new hands.old units.old }
    ensures not { result ≡ false → IsAsBefore hands.new hands.old × (units.new ≡ units.old) }
    ensures left { units.new ≤ units.old }
    ensures stands { Stands hands.new hands.old }
{
    let Op::Word { runs, breed, word } = code.op(node) else {
        return false;
    };
    if !may_run(hands, runs) {
        return false;
    }
    match word {
        Built::Control(control) => match control {
            Control::Set => set(alloc, code, hands, node),
            Control::Forward => walk(code, hands, node, runs, false, units),
            Control::Back => walk(code, hands, node, runs, true, units),
            _ => false,
        },
        Built::Act(act) => match act {
            Act::Move(which) => do_move(alloc, code, hands, node, runs, which),
            _ => false,
        },
        word => match way_of(breed, word) {
            Some(way) => do_link(alloc, code, hands, node, runs, way),
            None => false,
        },
    }
}

// A unit is spent for a statement, where there is one and the agent that runs lives.
#[inline(always)]
fn spends<S: Store>(hands: &Hands<S>, units: &mut u64) -> bool
    ensures spent { result ≡ true → units.old ≡ suc units.new }
    ensures back { result ≡ true → units.new + 1 < 2 ^ 64 }
    ensures lives { let r = (S.world hands.now.stage.store).rest in
        result ≡ true → is_gone r hands.now.site.agent ≡ false }
    ensures not { result ≡ false → units.new ≡ units.old }
{
    if *units == 0 || is_dead(hands) {
        return false;
    }
    *units -= 1;
    true
}

// Statements of a block are done from its first one on, each for a unit, so far as they run no block and are done at once. It tells which
// one comes next.
fn do_plain_statements<S: Store>(
    alloc: Global,
    code: &Code,
    hands: &mut Hands<S>,
    block: u32,
    units: &mut u64,
) -> u32
    requires fit { HandsFit hands.old }
    ensures done { (room n kept : ℕ) → plain_nested < room →
        let all = parts (node_at code.now block) in
        let prev = evaluator code.now.program room in
        statements prev kept all (state_of code.now.names hands.old (units.old + n))
        ≡ statements prev kept (drop result all) (state_of code.now.names hands.new (units.new + n)) }
    ensures left { units.new ≤ units.old }
    ensures stands { Stands hands.new hands.old }
{
    let mut at = 0;
    'statements: loop {
        let Some(statement) = code.part(block, at) else {
            return at;
        };
        if !spends(hands, units) {
            return at;
        }
        if !do_plain(alloc, code, hands, statement, units) {
            *units += 1;
            return at;
        }
        at += 1;
    }
}

// ---- statements with a block

/// Where the block stands that a word has chosen: the word, its block, the block's next statement, and how many locals are known around it.
#[derive(Clone, Copy)]
pub struct Inside {
    pub word: u32,
    pub block: u32,
    pub at: u32,
    pub kept: usize,
}

/// How far a statement was done.
#[derive(Clone, Copy)]
pub enum Done {
    /// It is over.
    Whole,
    /// The block that it has chosen is left from a statement on.
    UpTo(Inside),
}

// The block that a word has chosen is done, so far as that is done at once.
#[inline(always)]
fn do_chosen<S: Store>(
    alloc: Global,
    code: &Code,
    hands: &mut Hands<S>,
    word: u32,
    index: u32,
    units: &mut u64,
) -> Option<Done>
    requires fit { HandsFit hands.old }
    ensures done { IfSome result (λ done. (room n : ℕ) → suc plain_nested < room →
        let t = node_at code.now word in
        limited (span t) (part_of (evaluator code.now.program room) t index
        (state_of code.now.names hands.old (units.old + n)))
        ≡ left_of code.now (suc room) done (state_of code.now.names hands.new (units.new + n))) }
    ensures not { result ≡ None → IsAsBefore hands.new hands.old × (units.new ≡ units.old) }
    ensures left { units.new ≤ units.old }
    ensures stands { Stands hands.new hands.old }
{
    let Some(block) = code.part(word, index) else {
        return None;
    };
    let Op::Statements = code.op(block) else {
        return None;
    };
    let kept = hands.locals.len();
    let at = do_plain_statements(alloc, code, hands, block, units);
    let Some(_) = code.part(block, at) else {
        hands.locals.truncate(kept);
        return Some(Done::Whole);
    };
    Some(Done::UpTo(Inside {
        word,
        block,
        at,
        kept,
    }))
}

// Whether the word has one condition, and as many blocks as it has in its plain form.
#[inline(always)]
fn is_plain(code: &Code, node: u32, either: bool) -> bool
    ensures { result ≡ true → either ≡ true → length (parts (node_at code.now node)) ≡ 3 }
{
    !either || code.count(node) == 3
}

// `if` is done, or `ifelse` of one condition and two blocks; a test that draws is undone where the rest can't be done at once.
#[inline(never)]
fn choose<S: Store>(
    alloc: Global,
    code: &Code,
    hands: &mut Hands<S>,
    node: u32,
    runs: Kinds,
    either: bool,
    units: &mut u64,
) -> Option<Done>
    requires fit { HandsFit hands.old }
    requires is { (breed : Option BreedNumber) ×
        (case_of code.now.program.declared (label (node_at code.now node))
        ≡ case.Word runs breed (built.Control (choosing either))) }
    ensures done { IfSome result (λ done.
        GoesUpTo code.now node most_nested done hands.new units.new hands.old units.old) }
    ensures not { result ≡ None → IsAsBefore hands.new hands.old × (units.new ≡ units.old) }
    ensures left { units.new ≤ units.old }
    ensures stands { Stands hands.new hands.old }
{
    if !may_run(hands, runs) {
        return None;
    }
    let Some(part) = code.part(node, 0) else {
        return None;
    };
    if !is_plain(code, node, either) {
        return None;
    }
    let mark = hands.stage.stream.save();
    let done = match truth_or_chance(alloc, code, hands, part) {
        Some(true) => do_chosen(alloc, code, hands, node, 1, units),
        Some(false) => {
            if either {
                do_chosen(alloc, code, hands, node, 2, units)
            } else {
                Some(Done::Whole)
            }
        }
        None => None,
    };
    if let None = done {
        hands.stage.stream.restore(mark);
    }
    done
}

// Whether there is a block for false too, where the word is `if` or `ifelse`.
#[inline(always)]
fn is_either(word: Built) -> Option<bool>
    ensures { IfSome result (λ either. word ≡ built.Control (choosing either)) }
{
    let Built::Control(control) = word else {
        return None;
    };
    match control {
        Control::If => Some(false),
        Control::IfElse => Some(true),
        _ => None,
    }
}

/// A statement is done, so far as that is done at once; else nothing is changed. The unit of the statement itself is spent before.
#[inline(always)]
pub fn do_statement<S: Store>(
    alloc: Global,
    code: &Code,
    hands: &mut Hands<S>,
    node: u32,
    units: &mut u64,
) -> Option<Done>
    requires fit { HandsFit hands.old }
    ensures done { IfSome result (λ done.
        GoesUpTo code.now node most_nested done hands.new units.new hands.old units.old) }
    ensures not { result ≡ None → IsAsBefore hands.new hands.old × (units.new ≡ units.old) }
    ensures left { units.new ≤ units.old }
    ensures stands { Stands hands.new hands.old }
{
    let Op::Word { runs, word, .. } = code.op(node) else {
        return None;
    };
    if let Some(either) = is_either(word) {
        return choose(alloc, code, hands, node, runs, either, units);
    }
    if do_plain(alloc, code, hands, node, units) {
        Some(Done::Whole)
    } else {
        None
    }
}

// ---- statements of a block

/// How far the statements of a block were done: which one comes next, and where the block of the one before it is left, if it is.
#[derive(Clone, Copy)]
pub struct Far {
    pub at: u32,
    pub inside: Option<Inside>,
}

/// Statements of a block are done from one on, each for a unit, so far as that is done at once.
pub fn do_statements<S: Store>(
    alloc: Global,
    code: &Code,
    hands: &mut Hands<S>,
    block: u32,
    from: u32,
    units: &mut u64,
) -> Far
    requires fit { HandsFit hands.old }
    ensures done { (room n kept : ℕ) → most_nested < room →
        statements (evaluator code.now.program room) kept (drop from (parts (node_at code.now block)))
        (state_of code.now.names hands.old (units.old + n))
        ≡ far_left code.now room block kept result (state_of code.now.names hands.new (units.new + n)) }
    ensures left { units.new ≤ units.old }
    ensures stands { Stands hands.new hands.old }
{
    let mut at = from;
    'statements: loop {
        let Some(statement) = code.part(block, at) else {
            return Far { at, inside: None };
        };
        if !spends(hands, units) {
            return Far { at, inside: None };
        }
        let Some(done) = do_statement(alloc, code, hands, statement, units) else {
            *units += 1;
            return Far { at, inside: None };
        };
        match done {
            Done::Whole => at += 1,
            Done::UpTo(inside) => {
                return Far {
                    at: at + 1,
                    inside: Some(inside),
                };
            }
        }
    }
}
