//! The checked program.
ghost use Rattle.std.specs.Prelude.{◌≡◌, ◌<◌, ◌↔◌, Some, IsOkAnd, IfSome, IsSome, IsTrue, All, MatchOption, length, slice_get, bytes_eq, false, count_by};
ghost use Rattle.std.specs.Option.{option_copied, option_map};
ghost use Rattle.std.specs.List.{Contains};
ghost use Rattle.std.specs.List.Sorted.{IsPermutation, IsSortedBy};
ghost use Rattle.nl_tree.specs.Checked.{comes_before, AreAsMany, BodiesFit, BodiesAreRight, KindsAreLeft, AreRows, IsInRange, IsProgram};
ghost use Rattle.nl_tree.specs.Names.{IsDeclared};
ghost use Rattle.nl_tree.specs.Context.{AreLeft};
ghost use Rattle.nl_tree.specs.Slots.{NamesHaveSlots, OwnsSlot, global_slot, globals_count, is_global, names_global};
ghost use Rattle.nl_tree.specs.declared.declared.Procedure.{Procedure};
ghost use Rattle.nl_tree.specs.Views.{plain};
ghost use Rattle.nl_tree.specs.Vocabulary.{terms, what_named};

use crate::declared::{Declared, KindsList, NamedWhat, NamedWhats, What};
use crate::tree::{Tree, Trees};
use nl_fixed::NoMemory;
use nl_words::Kinds;
use std::alloc::Global;
use std::marker::Model;

/// A checked program: what a model declares, and for each procedure its body and the kinds of agents that may run it.
///
/// It also holds the model's whole word table, ordered by name.
#[derive(Drop)]
pub struct Program {
    declared: Declared,
    bodies: Trees,
    kinds: KindsList,
    rows: Vec<NamedWhat>,
    // How many widgets and globals there are.
    globals: u32,
}

impl Model for Program {
    ghost use Rattle.nl_tree.specs.Checked.{Checked, checked_code};

    ghost Value = { Checked };

    ghost coded = { checked_code };

    ghost use Rattle.std.specs.Prelude.{◌≡◌, length};
    ghost use Rattle.std.specs.List.Sorted.{IsPermutation, IsSortedBy};
    ghost use Rattle.nl_tree.specs.Checked.{comes_before, IsProgram, AreRows};
    ghost use Rattle.nl_tree.specs.Vocabulary.{global_names};

    ghost view = { λ p. record { declared = p.declared; bodies = p.bodies; kinds = p.kinds } };

    ghost invariant = { λ p. IsProgram (record { declared = p.declared; bodies = p.bodies; kinds = p.kinds })
        × AreRows p.declared p.rows.items
        × IsSortedBy comes_before p.rows.items
        × (p.globals ≡ length (global_names p.declared)) };
}

impl Program {
    /// The program of these declarations and bodies, with the kinds of agents that may run each body and the model's whole word table in any
    /// order. It takes no memory.
    pub fn new(
        _alloc: Global,
        declared: Declared,
        bodies: Trees,
        kinds: KindsList,
        rows: NamedWhats,
    ) -> Result<Program, NoMemory>
        requires names { IsDeclared declared }
        requires many { AreAsMany declared bodies kinds }
        requires fit { BodiesFit declared bodies }
        requires right { BodiesAreRight declared bodies }
        requires left { KindsAreLeft declared bodies kinds }
        requires rows { AreRows declared rows }
        ensures { IsOkAnd result (λ p. p ≡ record { declared = declared; bodies = bodies; kinds = kinds }) }
    {
        let rows = rows.sorted();
        let globals = count_globals(rows.as_slice()) as u32;
        Ok(Program {
            declared,
            bodies,
            kinds,
            rows,
            globals,
        })
    }

    /// What the model declares.
    pub fn declared(&self) -> &Declared
        ensures value { result.now ≡ self.now.declared }
        ensures checked { IsProgram self.now }
    {
        &self.declared
    }

    /// The body of the procedure at a place. Each name in it has a slot, or is an input of the procedure or made there by `let`, so a run
    /// meets no other name.
    pub fn body(&self, procedure: usize) -> Option<&Tree>
        ensures value { option_map plain (option_copied result) ≡ slice_get self.now.bodies procedure }
        ensures checked { IsProgram self.now }
        ensures within { IsSome result ↔ (procedure < length self.now.declared.procedures) }
        ensures slots { (p : Procedure) → slice_get self.now.declared.procedures procedure ≡ Some p
            → IfSome result (λ body. NamesHaveSlots self.now.declared p.inputs (plain body.now)) }
    {
        self.bodies.get(procedure)
    }

    /// The kinds of agents that may run the body of the procedure at a place: those that are left at its last word.
    pub fn kinds(&self, procedure: usize) -> Option<Kinds>
        ensures value { result ≡ slice_get self.now.kinds procedure }
        ensures left { IfSome result (AreLeft (terms self.now.declared) self.now.bodies procedure) }
        ensures within { IsSome result ↔ (procedure < length self.now.declared.procedures) }
    {
        self.kinds.as_slice().get(procedure).copied()
    }

    /// What the word of this name is, in lower case. The search is one of halves.
    pub fn what(&self, name: &[u8]) -> Option<What>
        ensures value { result ≡ what_named self.now.declared name.now }
        ensures range { IfSome result (λ it. IsInRange self.now.declared it) }
    {
        match find_row(self.rows.as_slice(), name) {
            Some(row) => Some(row.what),
            None => None,
        }
    }

    /// The slot of a global variable of this name, in lower case: that of a widget or global is its number in `What::Global`. The number of
    /// the run and the name of the experiment have the two slots after all of these. No two names share a slot.
    ///
    /// The search is one of halves.
    pub fn global(&self, name: &[u8]) -> Option<u32>
        ensures value { result ≡ global_slot self.now.declared name.now }
        ensures there { IsSome result ↔ IsTrue (names_global self.now.declared name.now) }
        ensures range { IfSome result (λ slot. slot < globals_count self.now.declared) }
        ensures one { IfSome result (OwnsSlot self.now.declared name.now) }
    {
        // What the clauses rest on: the declarations of a program are accepted.
        let _declared = self.declared();
        self.find_global(name)
    }

    // The slot of a global variable, by the rows.
    fn find_global(&self, name: &[u8]) -> Option<u32>
        ensures { result ≡ global_slot self.now.declared name.now }
    {
        if name == b"behaviorspace-run-number".as_slice() {
            return Some(self.globals);
        }
        if name == b"behaviorspace-experiment-name".as_slice() {
            return Some(self.globals + 1);
        }
        match self.what(name) {
            Some(What::Global(slot)) => Some(slot),
            _ => None,
        }
    }
}

// How many rows are those of a widget or global.
fn count_globals(rows: &[NamedWhat]) -> usize
    ensures { result ≡ count_by is_global rows.now }
{
    rows.iter()
        .filter(|row| matches!(row.what, What::Global(_)))
        .count()
}

// The row of this name among rows in the order of their names.
pub(crate) fn find_row<'a>(rows: &'a [NamedWhat], name: &[u8]) -> Option<&'a NamedWhat>
    requires { IsSortedBy comes_before rows.now }
    ensures { MatchOption result
        (All (λ row. bytes_eq row.name name.now ≡ false) rows.now)
        (λ row. (row.now.name ≡ name.now) × Contains rows.now row.now) }
{
    match rows.binary_search_by(|row| row.name.as_bytes().cmp(name)) {
        Ok(at) => Some(&rows[at]),
        Err(_) => None,
    }
}
