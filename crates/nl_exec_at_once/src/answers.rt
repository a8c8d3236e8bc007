//! Answers of members that are had at once.
ghost use Rattle.std.specs.Prelude.{◌≡◌, ◌+◌, ◌∷◌, ◌++◌, ◌<◌, ◌≤◌, ℕ, IsTrue, Some, IfSome, option_map, drop, slice_get, true, false};
ghost use Rattle.nl_value.specs.Views.{plain};
ghost use Rattle.nl_tree.specs.Tree.{parts};
ghost use Rattle.nl_exec_meaning.specs.Code.{node_at};
ghost use Rattle.nl_exec_meaning.specs.Meaning.{evaluator};
ghost use Rattle.nl_exec_meaning.specs.State.{Eval, gives};
ghost use Rattle.nl_exec_meaning.specs.Walks.{members_kept, reply_to};
ghost use Rattle.nl_exec_meaning.specs.Ground.{fits};
ghost use Rattle.nl_exec_meaning.specs.Means.{Stands};
ghost use Rattle.nl_exec_meaning.specs.Seen.{ground, state_of};
ghost use Rattle.nl_exec_meaning.specs.Standing.{AnsweringFits, HandsFit, MembersAscend};
ghost use Rattle.nl_exec_meaning.specs.declared.turns.Gathered.{Gathered as How};
ghost use Rattle.nl_exec_short.specs.Had.{short_plain};
ghost use Rattle.nl_exec_at_once.specs.AtOnce.{answering, told_by, value_or_block};
ghost use Rattle.nl_exec_at_once.specs.declared.statements.TheConstants.{MOST_NESTED as most_nested};

use nl_agents::Store;
use nl_exec_meaning::{Answered, BoxedAnswers, BoxedTurns, Code, Hands, Over, Site};
use nl_exec_short::values::{ShortValue, short_value};
use nl_exec_walks::living::{first_living, member_at, owner_of};
use nl_exec_walks::replies::{Reply, reply_to};
use nl_value::Value;
use std::alloc::Global;

// An answer is kept or passed over. False where it decides all, or is of the wrong kind, or memory is lacking: then nothing is changed.
#[inline(always)]
fn told(alloc: Global, made: &mut BoxedAnswers, word: Over, member: u64, short: &ShortValue) -> bool
    ensures told { result ≡ true → let v = short_plain short.now in
        Some made.new ≡ told_by (reply_to word v) member v made.old }
    ensures not { result ≡ false → made.new ≡ made.old }
{
    let value = short.value();
    match reply_to(word, &value) {
        Reply::Keep => match made.push(alloc, Answered { member, value }) {
            Ok(()) => true,
            Err(_) => false,
        },
        Reply::Pass => true,
        Reply::Decide(_) | Reply::Refuse => false,
    }
}

// The answer is kept or passed over, and the next member runs, for a unit, if there are both; else all is as it was.
#[inline(always)]
fn next_answer<S: Store>(
    alloc: Global,
    code: &Code,
    hands: &mut Hands<S>,
    node: u32,
    index: u32,
    block: u32,
    word: Over,
    short: &ShortValue,
    member: &mut u64,
    turns: &mut BoxedTurns,
    made: &mut BoxedAnswers,
    units: &mut u64,
) -> bool
    requires fit { HandsFit hands.old }
    requires answering { AnsweringFits (ground hands.old) member.old turns.old made.old }
    requires block { slice_get (parts (node_at code.now node)) index ≡ Some (node_at code.now block) }
    ensures next { result ≡ true → (how : How) (prev : Eval) (n : ℕ) →
        answering code.now prev (node_at code.now node) index word how member.old turns.old made.old
        (gives (short_plain short.now) (state_of code.now.names hands.old (units.old + n)))
        ≡ answering code.now prev (node_at code.now node) index word how member.new turns.new made.new
        (prev (node_at code.now block) (state_of code.now.names hands.new (units.new + n))) }
    ensures not { result ≡ false → (hands.new ≡ hands.old) × (units.new ≡ units.old)
        × (member.new ≡ member.old) × (turns.new ≡ turns.old) × (made.new ≡ made.old) }
    ensures answering { AnsweringFits (ground hands.new) member.new turns.new made.new }
    ensures ascend { (how : How) →
        MembersAscend how (members_kept made.old ++ member.old ∷ drop turns.old.at turns.old.members) →
        MembersAscend how (members_kept made.new ++ member.new ∷ drop turns.new.at turns.new.members) }
    ensures left { units.new ≤ units.old }
    ensures fewer { result ≡ true → units.new < units.old }
    ensures stands { Stands hands.new hands.old }
{
    if *units == 0 {
        return false;
    }
    // What the numbers of patches rest on: the store stands for a world.
    let _stands = hands.stage.store.shape();
    let all = turns.get();
    let members = all.members.as_slice();
    let Some(at) = first_living(&hands.stage.store, all.which, members, all.at) else {
        return false;
    };
    let Some(next) = member_at(members, at) else {
        return false;
    };
    let site = Site {
        agent: owner_of(all.which, next),
        asker: all.site.agent,
        body: all.site.body,
    };
    if !told(alloc, made, word, *member, short) {
        return false;
    }
    turns.go_to(at + 1);
    hands.site = site;
    *member = next;
    *units -= 1;
    true
}

/// Members answer, of which the first one has its unit, so far as that is done at once: where a value is given, it is that of the member at
/// which they stand, and else this one's block is still to be evaluated.
pub fn do_answers<S: Store>(
    alloc: Global,
    code: &Code,
    hands: &mut Hands<S>,
    node: u32,
    index: u32,
    block: u32,
    word: Over,
    member: &mut u64,
    turns: &mut BoxedTurns,
    made: &mut BoxedAnswers,
    units: &mut u64,
) -> Option<Value>
    requires fit { HandsFit hands.old }
    requires answering { AnsweringFits (ground hands.old) member.old turns.old made.old }
    requires block { slice_get (parts (node_at code.now node)) index ≡ Some (node_at code.now block) }
    ensures done { (how : How) (room n : ℕ) → most_nested < room →
        let prev = evaluator code.now.program room in
        answering code.now prev (node_at code.now node) index word how member.old turns.old made.old
        (prev (node_at code.now block) (state_of code.now.names hands.old (units.old + n)))
        ≡ answering code.now prev (node_at code.now node) index word how member.new turns.new made.new
        (value_or_block code.now prev block (option_map plain result)
        (state_of code.now.names hands.new (units.new + n))) }
    ensures value { IfSome result (λ value. IsTrue (fits (ground hands.new) (plain value))) }
    ensures answering { AnsweringFits (ground hands.new) member.new turns.new made.new }
    ensures ascend { (how : How) →
        MembersAscend how (members_kept made.old ++ member.old ∷ drop turns.old.at turns.old.members) →
        MembersAscend how (members_kept made.new ++ member.new ∷ drop turns.new.at turns.new.members) }
    ensures left { units.new ≤ units.old }
    ensures stands { Stands hands.new hands.old }
{
    'answers: loop {
        let Some(short) = short_value(code, hands, block) else {
            return None;
        };
        if !next_answer(
            alloc, code, hands, node, index, block, word, &short, member, turns, made, units,
        ) {
            return Some(short.value());
        }
    }
}
