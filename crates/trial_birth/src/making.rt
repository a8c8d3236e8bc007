//! Calls of `nl_birth` as plain data, each made only where its conditions hold.
//!
//! Numbers and coordinates are in tenths.
ghost use Rattle.std.specs.Prelude.{All, IsTrue};
ghost use Rattle.nl_agents.specs.Changes.{TurtleLives};

use nl_agents::Store;
use nl_birth::{BirthFail, Way, create, hatch, link, link_one, sprout};
use nl_draw::Stream;
use nl_plain::Plain;
use nl_store::Indexed;
use nl_value::Serials;
use std::alloc::Global;
use std::process::Abort;
use trial_stores::Tried;
use trial_stores::trial_model::program;
use trial_stores::trials::{Look, Place, Scene, Step, played, proceed, tenths};

/// A call that makes agents.
#[derive(Clone, Copy, Debug)]
pub(crate) enum Call {
    /// So many turtles of a breed are created, with looks in order or drawn ones.
    Create(u32, i64, bool),
    /// So many turtles of a breed sprout on the patch of a place.
    Sprout(Place, u32, i64),
    /// A turtle hatches so many of a breed.
    Hatch(u64, u32, i64),
    /// A turtle makes links of a breed with others.
    Link(u32, Way, u64, &'static [u64]),
    /// A turtle makes a link of a breed with one other.
    LinkOne(u32, Way, u64, u64),
}

/// What a call answers.
#[derive(Clone, Copy, Debug)]
pub(crate) enum Answer {
    Made(&'static [u64]),
    /// So many, with the serials from the first one on.
    Many(u64, usize),
    /// It is done, and no serials are told.
    Done,
    Fails(BirthFail),
}

/// Nothing is made.
pub(crate) const NONE: Answer = Answer::Made(&[]);

/// A call with its answer, and what the store answers after it.
pub(crate) type Act = (Call, Answer, &'static [Look]);

/// Lets go of a thing by one call: a store that ends inside of a function is walked there, once on each way out.
pub(crate) fn let_go<T: Drop>(_thing: T) {}

// Whether these are so many numbers from the first one on.
fn are_from(numbers: &[u64], first: u64, count: usize) -> bool {
    let mut next = first;
    for number in numbers {
        if *number != next {
            return false;
        }
        next = next.saturating_add(1);
    }
    numbers.len() == count
}

fn are_made(serials: &Serials, wanted: Answer) -> bool {
    match wanted {
        Answer::Made(numbers) => serials.as_slice() == numbers,
        Answer::Many(first, count) => are_from(serials.as_slice(), first, count),
        Answer::Done | Answer::Fails(_) => false,
    }
}

fn is_fail(fail: BirthFail, wanted: Answer) -> bool {
    match wanted {
        Answer::Fails(other) => fail == other,
        _ => false,
    }
}

fn is_answer(made: Result<Serials, BirthFail>, wanted: Answer) -> bool {
    match made {
        Ok(serials) => are_made(&serials, wanted),
        Err(fail) => is_fail(fail, wanted),
    }
}

fn creates<S: Store>(
    tried: &mut Tried<S>,
    alloc: Global,
    stream: &mut Stream,
    breed: u32,
    count: i64,
    ordered: bool,
    answer: Answer,
) -> bool {
    let Some(count) = tenths(count) else {
        return false;
    };
    if !tried.layout.is_turtle_breed(breed) {
        return false;
    }
    let made = create(alloc, &mut tried.store, stream, breed, count, ordered);
    is_answer(made, answer)
}

fn sprouts<S: Store>(
    tried: &mut Tried<S>,
    alloc: Global,
    stream: &mut Stream,
    place: Place,
    breed: u32,
    count: i64,
    answer: Answer,
) -> bool {
    let (Some(at), Some(count)) = (tried.point(place), tenths(count)) else {
        return false;
    };
    if !tried.layout.is_turtle_breed(breed) {
        return false;
    }
    let patch = tried.store.shape().patch_of(at);
    let made = sprout(alloc, &mut tried.store, stream, patch, breed, count);
    is_answer(made, answer)
}

fn hatches<S: Store>(
    tried: &mut Tried<S>,
    alloc: Global,
    parent: u64,
    breed: u32,
    count: i64,
    answer: Answer,
) -> bool {
    let Some(count) = tenths(count) else {
        return false;
    };
    if !tried.store.turtle_lives(parent) || !tried.layout.is_turtle_breed(breed) {
        return false;
    }
    let made = hatch(alloc, &mut tried.store, parent, breed, count);
    is_answer(made, answer)
}

// The numbers in ascending order, each once. None at want of memory.
fn serials_of(alloc: Global, numbers: &[u64]) -> Option<Serials> {
    let mut list = numbers.to_vec(alloc).ok()?;
    list.sort_unstable();
    list.dedup();
    Some(Serials::of_vec(list))
}

fn all_live<S: Store>(store: &S, targets: &Serials) -> bool
    ensures { IsTrue result → All (λ target. TurtleLives target (S.world store.now)) targets.now }
{
    let numbers = targets.as_slice();
    for target in numbers {
        if !store.turtle_lives(*target) {
            return false;
        }
    }
    true
}

/// Whether a turtle makes links of a breed with others, and the call answers so.
pub(crate) fn links<S: Store>(
    tried: &mut Tried<S>,
    alloc: Global,
    breed: u32,
    way: Way,
    caller: u64,
    others: &[u64],
    answer: Answer,
) -> bool {
    let Some(targets) = serials_of(alloc, others) else {
        return false;
    };
    if !tried.layout.is_link_breed(breed) || !tried.store.turtle_lives(caller) {
        return false;
    }
    if !all_live(&tried.store, &targets) {
        return false;
    }
    let made = link(alloc, &mut tried.store, breed, way, caller, &targets);
    is_answer(made, answer)
}

/// Whether a turtle makes a link of a breed with another one, and the call answers so.
pub(crate) fn links_one<S: Store>(
    tried: &mut Tried<S>,
    alloc: Global,
    breed: u32,
    way: Way,
    caller: u64,
    other: u64,
    answer: Answer,
) -> bool {
    if !tried.layout.is_link_breed(breed)
        || !tried.store.turtle_lives(caller)
        || !tried.store.turtle_lives(other)
    {
        return false;
    }
    match link_one(alloc, &mut tried.store, breed, way, caller, other) {
        Ok(()) => match answer {
            Answer::Done => true,
            _ => false,
        },
        Err(fail) => is_fail(fail, answer),
    }
}

/// Makes the call where its conditions hold. False where they don't, and where it answers otherwise.
pub(crate) fn makes<S: Store>(
    tried: &mut Tried<S>,
    alloc: Global,
    stream: &mut Stream,
    call: Call,
    answer: Answer,
) -> bool {
    match call {
        Call::Create(breed, count, ordered) => {
            creates(tried, alloc, stream, breed, count, ordered, answer)
        }
        Call::Sprout(place, breed, count) => {
            sprouts(tried, alloc, stream, place, breed, count, answer)
        }
        Call::Hatch(parent, breed, count) => hatches(tried, alloc, parent, breed, count, answer),
        Call::Link(breed, way, caller, others) => {
            links(tried, alloc, breed, way, caller, others, answer)
        }
        Call::LinkOne(breed, way, caller, other) => {
            links_one(tried, alloc, breed, way, caller, other, answer)
        }
    }
}

/// Plays the scenes on the store.
pub(crate) fn go_on<S: Store>(
    rt: &impl Abort,
    alloc: Global,
    tried: &mut Tried<S>,
    scenes: &[Scene],
) {
    if let Some(wrong) = proceed(alloc, tried, scenes) {
        panic!(rt; "{wrong:?}");
    }
}

/// A new store on which the scenes are played.
pub(crate) fn begun<S: Store>(rt: &impl Abort, alloc: Global, scenes: &[Scene]) -> Tried<S> {
    let Some(model) = program(alloc) else {
        panic!(rt);
    };
    match played(alloc, model, scenes) {
        Ok(tried) => tried,
        Err(wrong) => panic!(rt; "{wrong:?}"),
    }
}

/// Goes on with a copy of the store, and answers whether it was made.
pub(crate) fn copies<S: Store>(tried: &mut Tried<S>, alloc: Global) -> bool {
    tried.play(alloc, Step::Copy) && tried.play(alloc, Step::Swap)
}

/// Makes the calls, one after the other, with what is drawn from the seed 42.
pub(crate) fn act<S: Store>(rt: &impl Abort, alloc: Global, tried: &mut Tried<S>, acts: &[Act]) {
    let mut stream = Stream::new(42);
    for (call, answer, looks) in acts {
        assert!(rt;
            makes(tried, alloc, &mut stream, *call, *answer),
            "{call:?}"
        );
        go_on(rt, alloc, tried, &[(&[], looks)]);
    }
}

/// A new store, on which the steps are made and then the calls.
pub(crate) fn acted<S: Store>(
    rt: &impl Abort,
    alloc: Global,
    steps: &'static [Step],
    acts: &[Act],
) -> Tried<S> {
    let mut tried: Tried<S> = begun(rt, alloc, &[(steps, &[])]);
    act(rt, alloc, &mut tried, acts);
    tried
}

// Makes the calls on a new store, where the steps were made before.
fn assert_acts_over<S: Store>(
    rt: &impl Abort,
    alloc: Global,
    steps: &'static [Step],
    acts: &[Act],
) {
    let _tried: Tried<S> = acted(rt, alloc, steps, acts);
}

/// Makes the calls on a new store of each kind, where the steps were made before.
pub(crate) fn assert_acts(rt: &impl Abort, alloc: Global, steps: &'static [Step], acts: &[Act]) {
    assert_acts_over::<Plain>(rt, alloc, steps, acts);
    assert_acts_over::<Indexed>(rt, alloc, steps, acts);
}
