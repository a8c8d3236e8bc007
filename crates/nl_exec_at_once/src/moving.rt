//! Where a turtle goes and looks, by numbers.
ghost use Rattle.std.specs.Prelude.{◌≡◌, ◌<◌, ℕ, List, [], Option, length, map, IsTrue, true, false};
ghost use Rattle.nl_fixed.specs.Nouns.{Names};
ghost use Rattle.nl_words.specs.declared.entry.Kinds.{Kinds as WhoRuns};
ghost use Rattle.nl_value.specs.Plain.{Plain};
ghost use Rattle.nl_value.specs.Views.{plain};
ghost use Rattle.nl_tree.specs.Tree.{Node, parts};
ghost use Rattle.nl_agents_layout.specs.Nouns.{BreedNumber};
ghost use Rattle.nl_exec_acts.specs.declared.words.Act.TheVariants as act;
ghost use Rattle.nl_exec_meaning.specs.Code.{node_at};
ghost use Rattle.nl_exec_meaning.specs.Blocks.{values};
ghost use Rattle.nl_exec_meaning.specs.Meaning.{act_case, evaluator};
ghost use Rattle.nl_exec_meaning.specs.Running.{staying};
ghost use Rattle.nl_exec_meaning.specs.State.{State, Outcome, Eval, goes_on};
ghost use Rattle.nl_exec_meaning.specs.Ground.{all_fit};
ghost use Rattle.nl_exec_meaning.specs.Means.{Stands};
ghost use Rattle.nl_exec_meaning.specs.Seen.{ground, state_of};
ghost use Rattle.nl_exec_meaning.specs.Standing.{HandsFit};
ghost use Rattle.nl_exec_short.specs.Had.{OnlyDraws};
ghost use Rattle.nl_exec_at_once.specs.AtOnce.{IsAsBefore};

use nl_agents::Store;
use nl_exec_acts::Move;
use nl_exec_acts::perform::moves;
use nl_exec_meaning::{Code, Hands};
use nl_exec_short::draws::drawn;
use nl_exec_short::running::lives_and_may_run;
use nl_value::Value;
use nl_words::Kinds;
use std::alloc::Global;

// The agent that runs moves or turns by these inputs; else nothing is changed.
#[inline(always)]
fn move_now<S: Store>(hands: &mut Hands<S>, which: Move, inputs: &[Value]) -> bool
    requires fit { HandsFit hands.old }
    requires inputs { IsTrue (all_fit (ground hands.old) (map plain inputs.now)) }
    ensures done { result ≡ true → (names : Names) (breed : Option BreedNumber) (runs : WhoRuns)
        (prev : Eval) (t : Node) (s : State) (n : ℕ) → let s1 = state_of names hands.old n in
        ((next : List Plain → State → Outcome) →
        values prev (parts t) [] s next ≡ next (map plain inputs.now) s1) →
        ((next : Outcome) → staying runs s1 next ≡ next) →
        act_case (act.Move which) breed runs prev t s ≡ goes_on (state_of names hands.new n) }
    ensures not { result ≡ false → IsAsBefore hands.new hands.old }
    ensures stands { Stands hands.new hands.old }
{
    let agent = hands.site.agent;
    match moves(which, agent, inputs, &mut hands.stage) {
        Ok(_) => true,
        Err(_) => false,
    }
}

// By the number that its only part gives. Where that isn't done, a draw that was made stays made.
#[inline(always)]
fn move_by_one<S: Store>(
    alloc: Global,
    code: &Code,
    hands: &mut Hands<S>,
    node: u32,
    which: Move,
) -> bool
    requires fit { HandsFit hands.old }
    requires one { length (parts (node_at code.now node)) ≡ 1 }
    ensures done { result ≡ true → (breed : Option BreedNumber) (runs : WhoRuns) (room n : ℕ) → 6 < room →
        let s = state_of code.now.names hands.old n in
        ((next : Outcome) → staying runs s next ≡ next) →
        act_case (act.Move which) breed runs (evaluator code.now.program room) (node_at code.now node) s
        ≡ goes_on (state_of code.now.names hands.new n) }
    ensures not { result ≡ false → OnlyDraws hands.new hands.old }
    ensures stands { Stands hands.new hands.old }
{
    let Some(part) = code.part(node, 0) else {
        return false;
    };
    let Some(number) = drawn(alloc, code, hands, part) else {
        return false;
    };
    let inputs = [Value::Number(number)];
    move_now(hands, which, &inputs)
}

// By the numbers that its two parts give. Where that isn't done, draws that were made stay made.
#[inline(always)]
fn move_by_two<S: Store>(
    alloc: Global,
    code: &Code,
    hands: &mut Hands<S>,
    node: u32,
    which: Move,
) -> bool
    requires fit { HandsFit hands.old }
    requires two { length (parts (node_at code.now node)) ≡ 2 }
    ensures done { result ≡ true → (breed : Option BreedNumber) (runs : WhoRuns) (room n : ℕ) → 6 < room →
        let s = state_of code.now.names hands.old n in
        ((next : Outcome) → staying runs s next ≡ next) →
        act_case (act.Move which) breed runs (evaluator code.now.program room) (node_at code.now node) s
        ≡ goes_on (state_of code.now.names hands.new n) }
    ensures not { result ≡ false → OnlyDraws hands.new hands.old }
    ensures stands { Stands hands.new hands.old }
{
    let Some(first) = code.part(node, 0) else {
        return false;
    };
    let Some(second) = code.part(node, 1) else {
        return false;
    };
    let Some(a) = drawn(alloc, code, hands, first) else {
        return false;
    };
    let Some(b) = drawn(alloc, code, hands, second) else {
        return false;
    };
    let inputs = [Value::Number(a), Value::Number(b)];
    move_now(hands, which, &inputs)
}

/// A turtle moves or turns by one number or by two, which may be drawn, where that is done at once; else nothing is changed.
#[inline(never)]
pub fn do_move<S: Store>(
    alloc: Global,
    code: &Code,
    hands: &mut Hands<S>,
    node: u32,
    runs: Kinds,
    which: Move,
) -> bool
    requires fit { HandsFit hands.old }
    ensures done { result ≡ true → (breed : Option BreedNumber) (room n : ℕ) → 6 < room →
        act_case (act.Move which) breed runs (evaluator code.now.program room) (node_at code.now node)
        (state_of code.now.names hands.old n) ≡ goes_on (state_of code.now.names hands.new n) }
    ensures not { result ≡ false → IsAsBefore hands.new hands.old }
    ensures stands { Stands hands.new hands.old }
{
    if !lives_and_may_run(hands, runs) {
        return false;
    }
    let mark = hands.stage.stream.save();
    let done = match code.count(node) {
        1 => move_by_one(alloc, code, hands, node, which),
        2 => move_by_two(alloc, code, hands, node, which),
        _ => false,
    };
    if !done {
        hands.stage.stream.restore(mark);
    }
    done
}
