//! What each query answers.
ghost use Rattle.std.specs.Prelude.{◌≡◌, ◌≤◌, ◌+◌, map, is_some, IsTrue, IfOk, OnErr};
ghost use Rattle.nl_value.specs.Views.{plain};
ghost use Rattle.nl_agents.specs.Changes.{OwnerLives};
ghost use Rattle.nl_agents.specs.Standing.{fits_rest};
ghost use Rattle.nl_agentset_query.specs.Inputs.{inputs_fit};
ghost use Rattle.nl_agentset_query.specs.Outcomes.{Answers, Gives, outcome_map};
ghost use Rattle.nl_agentset_query.specs.Words.{query_word};
ghost use Rattle.nl_agentset.specs.Queries.{told, query_answer, queried, breed_fits, word_breed_fits};
ghost use Rattle.nl_agentset.specs.Reads.{few_reads, few_reads_by};

use crate::links::{link_found, neighbor_tested, own_links, own_neighbors};
use crate::lookups::{breed_tested, looked_up};
use crate::measures::{ends_told, measured_to, measured_to_xy};
use crate::patches::{faced, one_patch, patches_around};
use crate::sets::{set_told, whole_set};
use crate::standing::standing_by;
use nl_agents::view::View;
use nl_agents::{Owner, Steps, Store};
use nl_agentset_query::{QueryFail, QueryWord, chosen_by, query_word, union_of};
use nl_draw::Stream;
use nl_value::Value;
use std::alloc::Global;
use std::sync::ledger::Ledger;

/// What a word answers that draws nothing.
fn told<S: Store, L: Ledger>(
    alloc: Global,
    word: QueryWord,
    breed: Option<u32>,
    caller: Owner,
    inputs: &[Value],
    view: &View<S>,
    steps: &mut Steps<L>,
) -> Result<Value, QueryFail>
    requires fit { IsTrue (inputs_fit (S.world view.now.store.now).rest (map plain inputs.now)) }
    requires lives { OwnerLives caller (S.world view.now.store.now) }
    ensures answer { let r = (S.world view.now.store.now).rest in
        Gives (outcome_map plain result) (told r breed caller word (map plain inputs.now)) }
    ensures reads { let r = (S.world view.now.store.now).rest in
        steps.new ≤ steps.old + few_reads r caller word (map plain inputs.now) }
{
    let store = view.store;
    match word {
        QueryWord::Whole(which) => Ok(Value::set(alloc, whole_set(alloc, which, breed))?),
        QueryWord::LookUp(which) => looked_up(alloc, which, breed, inputs, store, steps),
        QueryWord::OfBreed(which) => breed_tested(which, breed, inputs, store),
        QueryWord::OfSet(which) => set_told(alloc, which, caller, inputs, store, steps),
        QueryWord::Union(kind) => union_of(alloc, kind, inputs, store, steps),
        QueryWord::Choice(_) => Err(QueryFail::WrongType),
        QueryWord::Standing(which) => standing_by(
            alloc, which, breed, caller, inputs, store, steps,
        ),
        QueryWord::Around(which) => Ok(patches_around(alloc, which, caller, store)?),
        QueryWord::PatchBy(which) => one_patch(which, caller, inputs, store),
        QueryWord::Facing(which) => faced(which, caller, inputs, store),
        QueryWord::Measure(which) => measured_to(which, caller, inputs, store),
        QueryWord::MeasureXy(which) => measured_to_xy(which, caller, inputs, store),
        QueryWord::OfEnds(which) => ends_told(alloc, which, caller, store),
        QueryWord::MyLinks(side) => own_links(alloc, side, breed, caller, store, steps),
        QueryWord::Neighbors(side) => own_neighbors(alloc, side, breed, caller, store, steps),
        QueryWord::IsNeighbor(side) => {
            neighbor_tested(alloc, side, breed, caller, inputs, store, steps)
        }
        QueryWord::LinkTo(side) => link_found(alloc, side, breed, caller, inputs, view, steps),
    }
}

/// What a query answers of its inputs, run by the caller, and what it draws of the stream.
///
/// An input of another kind than the word takes, and a missing one, is WrongType, from left to right; then come the word's own errors in
/// their order. Inputs behind those that the word takes aren't looked at. An error draws nothing. A breed's word has the code of the word
/// without a breed, and its breed. A dead caller is passed as the observer. The world stays as it is: the view is a shared borrow.
pub fn answer<S: Store, L: Ledger>(
    alloc: Global,
    word: QueryWord,
    breed: Option<u32>,
    caller: Owner,
    inputs: &[Value],
    view: &View<S>,
    stream: &mut Stream,
    steps: &mut Steps<L>,
) -> Result<Value, QueryFail>
    requires breed { IsTrue (word_breed_fits (S.world view.now.store.now).rest.layout word breed) }
    requires fit { IsTrue (inputs_fit (S.world view.now.store.now).rest (map plain inputs.now)) }
    requires lives { OwnerLives caller (S.world view.now.store.now) }
    ensures answer { let r = (S.world view.now.store.now).rest in
        let told = query_answer r breed caller word (map plain inputs.now) stream.old in
        Answers result stream.new told }
    ensures fit { let r = (S.world view.now.store.now).rest in
        IfOk result (λ value. IsTrue (fits_rest r (plain value))) }
    ensures stays { OnErr result (stream.new ≡ stream.old) }
    ensures reads { let r = (S.world view.now.store.now).rest in
        steps.new ≤ steps.old + few_reads r caller word (map plain inputs.now) }
{
    // What the answer's fit rests on: the store stands for a world.
    let _stands = view.store.shape();
    match word {
        QueryWord::Choice(which) => chosen_by(alloc, which, inputs, view.store, stream, steps),
        _ => told(alloc, word, breed, caller, inputs, view, steps),
    }
}

/// What the query of a code answers, as `answer` says it.
pub fn query<S: Store, L: Ledger>(
    alloc: Global,
    code: u16,
    breed: Option<u32>,
    caller: Owner,
    inputs: &[Value],
    view: &View<S>,
    stream: &mut Stream,
    steps: &mut Steps<L>,
) -> Result<Value, QueryFail>
    requires word { IsTrue (is_some (query_word code)) }
    requires breed { IsTrue (breed_fits (S.world view.now.store.now).rest.layout (query_word code) breed) }
    requires fit { IsTrue (inputs_fit (S.world view.now.store.now).rest (map plain inputs.now)) }
    requires lives { OwnerLives caller (S.world view.now.store.now) }
    ensures answer { let r = (S.world view.now.store.now).rest in
        let told = queried r code breed caller (map plain inputs.now) stream.old in
        Answers result stream.new told }
    ensures fit { let r = (S.world view.now.store.now).rest in
        IfOk result (λ value. IsTrue (fits_rest r (plain value))) }
    ensures stays { OnErr result (stream.new ≡ stream.old) }
    ensures reads { let r = (S.world view.now.store.now).rest in
        steps.new ≤ steps.old + few_reads_by r caller (query_word code) (map plain inputs.now) }
{
    match query_word(code) {
        Some(word) => answer(alloc, word, breed, caller, inputs, view, stream, steps),
        None => unreachable!(),
    }
}
