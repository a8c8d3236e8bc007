//! Agents of a set that run a block, one after another.
ghost use Rattle.std.specs.Prelude.{◌≡◌, [], ◌∷◌, ◌++◌, IfOk, OnOk, OnErr, map};
ghost use Rattle.nl_exec_meaning.specs.inner.Seen.{answered};

use crate::{Over, Site};
use nl_agentset_query::Walk;
use nl_fixed::{NoMemory, Num};
use nl_value::{AgentKind, Value};
use std::alloc::Global;
use std::marker::Model;

/// The turns that are left: those of the members from a place on. When a turn is over, who runs is who ran before all of them.
#[derive(Drop)]
pub struct Turns {
    pub which: AgentKind,
    pub members: Walk,
    pub at: usize,
    pub site: Site,
}

impl Turns {
    /// The same turns again.
    pub fn copy(&self, alloc: Global) -> Result<Turns, NoMemory>
        ensures { IfOk result (λ turns. turns ≡ self.now) }
    {
        let members = self.members.as_slice().to_vec(alloc)?;
        Ok(Turns {
            which: self.which,
            members: Walk::of_vec(members),
            at: self.at,
            site: self.site,
        })
    }
}

/// A member, and what it answered.
#[derive(Drop)]
pub struct Answered {
    pub member: u64,
    pub value: Value,
}

/// Answers in the order of turns, seen by contracts as a list.
#[derive(Drop)]
pub struct Answers {
    list: Vec<Answered>,
}

impl Model for Answers {
    ghost use Rattle.std.specs.Prelude.{List, map};
    ghost use Rattle.std.specs.Coded.{coded_list};
    ghost use Rattle.nl_exec_meaning.specs.Walks.{Answer};
    ghost use Rattle.nl_exec_meaning.specs.Kept.{answer_code};
    ghost use Rattle.nl_exec_meaning.specs.inner.Seen.{answered};

    ghost Value = { List Answer };

    ghost coded = { coded_list answer_code };

    ghost view = { λ answers. map answered answers.list.items };
}

impl Answers {
    /// No answers.
    pub fn empty(alloc: Global) -> Answers
        ensures { result ≡ [] }
    {
        Answers {
            list: Vec::new(alloc),
        }
    }

    /// The answers, in order.
    pub fn as_slice(&self) -> &[Answered]
        ensures { map answered result.now ≡ self.now }
    {
        self.list.as_slice()
    }

    /// The answers as a vector, without a copy.
    pub fn into_vec(self) -> Vec<Answered>
        ensures { map answered result.items ≡ self }
    {
        self.list
    }

    /// Appends an answer, or leaves all as they were.
    pub fn push(&mut self, _alloc: Global, answer: Answered) -> Result<(), NoMemory>
        ensures ok { OnOk result (self.new ≡ self.old ++ answered answer ∷ []) }
        ensures err { OnErr result (self.new ≡ self.old) }
    {
        self.list.push(answer)?;
        Ok(())
    }

    /// The same answers again.
    pub fn copy(&self, alloc: Global) -> Result<Answers, NoMemory>
        ensures { IfOk result (λ answers. answers ≡ self.now) }
    {
        let mut copied = Answers::empty(alloc);
        for answer in &self.list {
            let value = answer.value.copy(alloc)?;
            let answered = Answered {
                member: answer.member,
                value,
            };
            copied.push(alloc, answered)?;
        }
        Ok(copied)
    }
}

/// What is made of all answers: by a word of a set, by one that asks for several extremes, or by `of`, of a set or of one agent.
#[derive(Clone, Copy)]
pub enum Gathered {
    OfSet { word: Over },
    Several { up: bool, number: Num },
    OfAll { several: bool },
}
