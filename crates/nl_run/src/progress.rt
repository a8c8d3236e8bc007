//! What a run has come to.

use crate::plan::LoneText;
use crate::rows::Rows;
use nl_agents::Store;
use nl_exec::Machine;
use nl_fixed::NoMemory;
use nl_tree::Form;
use std::alloc::Global;

/// The machine, the count of steps, and the rows so far, which are open.
#[derive(Drop)]
pub struct Progress<'a, S: Store> {
    pub machine: Machine<'a, S>,
    pub step: u64,
    pub rows: Rows,
    /// The units that were spent when the open text, or that which was open last, began. That a run ends rests on it.
    pub begun: u64,
}

impl<'a, S: Store> Progress<'a, S> {
    ghost use Rattle.std.specs.Prelude.{◌≡◌, ℕ, ◌≤◌, OnOk};
    ghost use Rattle.nl_tree.specs.Views.{plain};
    ghost use Rattle.nl_exec_meaning.specs.Meaning.{text as meaning};
    ghost use Rattle.nl_exec_meaning.specs.LoneTexts.{first_state};
    ghost use Rattle.nl_exec.specs.Machines.{IsClosed, IsOpen, form_of, program_of, rest_of, scene_of, spent_of};
    ghost use Rattle.nl_run.specs.Left.{GivesNone, SpendsNone};

    /// Opens a text of a form.
    pub fn open(&mut self, alloc: Global, text: LoneText<'a>, form: Form) -> Result<(), NoMemory>
        requires closed { IsClosed self.old.machine }
        requires begun { self.old.begun ≤ spent_of self.old.machine }
        ensures rest { OnOk result ((n : ℕ) → rest_of self.new.machine n
            ≡ meaning (program_of self.old.machine) form (plain text.entry.tree.now)
            (first_state (scene_of self.old.machine) n)) }
        ensures gives { OnOk result (GivesNone self.new) }
        ensures form { OnOk result (form_of self.new.machine ≡ form) }
        ensures open { OnOk result (IsOpen self.new.machine) }
        ensures units { SpendsNone self.new self.old }
        ensures program { program_of self.new.machine ≡ program_of self.old.machine }
        ensures step { self.new.step ≡ self.old.step }
        ensures rows { self.new.rows ≡ self.old.rows }
    {
        self.machine.begin(alloc, text.tree, form)
    }
}
