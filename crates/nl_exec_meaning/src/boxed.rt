//! What a frame keeps in a box, so that every frame is small.
ghost use Rattle.std.specs.Prelude.{◌≡◌, true, [], ◌∷◌, ◌++◌, IfOk, OnOk, OnErr};
ghost use Rattle.nl_value.specs.Views.{plain};
ghost use Rattle.nl_exec_meaning.specs.Arrows.{raised};
ghost use Rattle.nl_exec_meaning.specs.inner.Seen.{answered};

use crate::Site;
use crate::rounds::Rounds;
use crate::turns::{Answered, Answers, Turns};
use nl_fixed::NoMemory;
use nl_value::{Items, Value};
use std::alloc::Global;
use std::marker::Model;

/// Turns in a box, seen by contracts as the turns. It is made once a walk, and then changed in place.
#[derive(Drop)]
pub struct BoxedTurns {
    held: Box<Turns>,
}

impl Model for BoxedTurns {
    ghost use Rattle.nl_exec_meaning.specs.declared.turns.Turns.{Turns};

    ghost Value = { Turns };

    ghost view = { λ boxed. boxed.held.value };
}

impl BoxedTurns {
    /// Puts turns into a box.
    pub fn new(alloc: Global, turns: Turns) -> Result<BoxedTurns, NoMemory>
        ensures { IfOk result (λ boxed. boxed ≡ turns) }
    {
        let held = Box::new(alloc, turns)?;
        Ok(BoxedTurns { held })
    }

    /// The turns.
    #[inline(always)]
    pub fn get(&self) -> &Turns
        ensures { result.now ≡ self.now }
    {
        &self.held
    }

    /// The turns from a place on are left.
    #[inline(always)]
    pub fn go_to(&mut self, at: usize)
        ensures { self.new ≡ record self.old { at = at } }
    {
        self.held.at = at;
    }

    /// The same turns again.
    pub fn copy(&self, alloc: Global) -> Result<BoxedTurns, NoMemory>
        ensures { IfOk result (λ boxed. boxed ≡ self.now) }
    {
        let turns = self.held.copy(alloc)?;
        BoxedTurns::new(alloc, turns)
    }
}

/// Who ran, in a box, seen by contracts as it. It is made once a call.
#[derive(Drop)]
pub struct BoxedSite {
    held: Box<Site>,
}

impl Model for BoxedSite {
    ghost use Rattle.nl_exec_meaning.specs.declared.sites.Site.{Site};

    ghost Value = { Site };

    ghost view = { λ boxed. boxed.held.value };
}

impl BoxedSite {
    /// Puts who runs into a box.
    pub fn new(alloc: Global, site: Site) -> Result<BoxedSite, NoMemory>
        ensures { IfOk result (λ boxed. boxed ≡ site) }
    {
        let held = Box::new(alloc, site)?;
        Ok(BoxedSite { held })
    }

    /// Who ran.
    #[inline(always)]
    pub fn get(&self) -> Site
        ensures { result ≡ self.now }
    {
        *self.held
    }

    /// The same again.
    pub fn copy(&self, alloc: Global) -> Result<BoxedSite, NoMemory>
        ensures { IfOk result (λ boxed. boxed ≡ self.now) }
    {
        BoxedSite::new(alloc, *self.held)
    }
}

/// Answers in a box, seen by contracts as a list. It is made once a walk, and then changed in place.
#[derive(Drop)]
pub struct BoxedAnswers {
    held: Box<Answers>,
}

impl Model for BoxedAnswers {
    ghost use Rattle.std.specs.Prelude.{List};
    ghost use Rattle.std.specs.Coded.{coded_list};
    ghost use Rattle.nl_exec_meaning.specs.Walks.{Answer};
    ghost use Rattle.nl_exec_meaning.specs.Kept.{answer_code};

    ghost Value = { List Answer };

    ghost coded = { coded_list answer_code };

    ghost view = { λ boxed. boxed.held.value };
}

impl BoxedAnswers {
    /// No answers.
    pub fn empty(alloc: Global) -> Result<BoxedAnswers, NoMemory>
        ensures { IfOk result (λ boxed. boxed ≡ []) }
    {
        let held = Box::new(alloc, Answers::empty(alloc))?;
        Ok(BoxedAnswers { held })
    }

    /// The answers, out of their box.
    pub fn into_answers(self) -> Answers
        ensures { result ≡ self }
    {
        Box::into_inner(self.held)
    }

    /// Appends an answer, or leaves all as they were.
    #[inline(always)]
    pub fn push(&mut self, alloc: Global, answer: Answered) -> Result<(), NoMemory>
        ensures ok { OnOk result (self.new ≡ self.old ++ answered answer ∷ []) }
        ensures err { OnErr result (self.new ≡ self.old) }
    {
        self.held.push(alloc, answer)
    }

    /// The same answers again.
    pub fn copy(&self, alloc: Global) -> Result<BoxedAnswers, NoMemory>
        ensures { IfOk result (λ boxed. boxed ≡ self.now) }
    {
        let answers = self.held.copy(alloc)?;
        let held = Box::new(alloc, answers)?;
        Ok(BoxedAnswers { held })
    }
}

/// Turns of an arrow block in a box, seen by contracts as the turns. It is made once a word, and then changed in place.
#[derive(Drop)]
pub struct BoxedRounds {
    held: Box<Rounds>,
}

impl Model for BoxedRounds {
    ghost use Rattle.nl_exec_meaning.specs.declared.rounds.Rounds.{Rounds};
    ghost use Rattle.nl_exec_meaning.specs.Kept.{rounds_code};

    ghost Value = { Rounds };

    ghost coded = { rounds_code };

    ghost view = { λ boxed. boxed.held.value };
}

impl BoxedRounds {
    /// Puts turns into a box.
    pub fn new(alloc: Global, rounds: Rounds) -> Result<BoxedRounds, NoMemory>
        ensures { IfOk result (λ boxed. boxed ≡ rounds) }
    {
        let held = Box::new(alloc, rounds)?;
        Ok(BoxedRounds { held })
    }

    /// The turns.
    #[inline(always)]
    pub fn get(&self) -> &Rounds
        ensures { result.now ≡ self.now }
    {
        &self.held
    }

    /// The turns, out of their box.
    pub fn into_rounds(self) -> Rounds
        ensures { result ≡ self }
    {
        Box::into_inner(self.held)
    }

    /// The turns from a place on are left.
    #[inline(always)]
    pub fn go_to(&mut self, at: usize)
        ensures { self.new ≡ record self.old { at = at } }
    {
        self.held.at = at;
    }

    /// The turns from a pair of places on are left.
    #[inline(always)]
    pub fn go_to_pair(&mut self, place: usize, at: usize)
        ensures { self.new ≡ record self.old { place = place; at = at } }
    {
        self.held.place = place;
        self.held.at = at;
    }

    /// Keeps a value behind the others.
    #[inline(always)]
    pub fn keep(&mut self, alloc: Global, value: Value) -> Result<(), NoMemory>
        ensures { OnOk result (self.new ≡ record self.old { made = self.old.made ++ plain value ∷ [] }) }
    {
        self.held.made.push(alloc, value)?;
        Ok(())
    }

    /// Lets all values go, and keeps none from here on.
    pub fn let_go(&mut self, alloc: Global)
        ensures { self.new ≡ record self.old { made = []; past = true } }
    {
        self.held.made = Items::empty(alloc);
        self.held.past = true;
    }

    /// Hands a value on, in the place of the one before.
    #[inline(always)]
    pub fn hand_on(&mut self, alloc: Global, value: Value) -> Result<(), NoMemory>
        ensures { OnOk result (self.new ≡ record self.old { made = plain value ∷ [] }) }
    {
        self.held.made.truncate(0);
        self.held.made.push(alloc, value)?;
        Ok(())
    }

    /// One item more comes before the one at the place.
    #[inline(always)]
    pub fn raise(&mut self) -> Result<(), NoMemory>
        ensures { OnOk result (self.new ≡ record self.old { ranks = raised self.old.place self.old.ranks }) }
    {
        let place = self.held.place;
        self.held.ranks.raise(place)?;
        Ok(())
    }

    /// The same turns again.
    pub fn copy(&self, alloc: Global) -> Result<BoxedRounds, NoMemory>
        ensures { IfOk result (λ boxed. boxed ≡ self.now) }
    {
        let rounds = self.held.copy(alloc)?;
        BoxedRounds::new(alloc, rounds)
    }
}
