//! Texts in slices, from their beginning: whatever the slices are, a text comes to what it means. What is said here of it needs no word of what
//! a machine holds meanwhile.
ghost use Rattle.std.specs.Prelude.{◌≡◌, ℕ, ◌+◌, [], Ok, IfOk, OnOk};
ghost use Rattle.std.specs.List.{sum};
ghost use Rattle.nl_tree.specs.Views.{plain as tree};
ghost use Rattle.nl_exec_meaning.specs.State.{Budget};
ghost use Rattle.nl_exec_meaning.specs.LoneTexts.{ending_of, scene_in};
ghost use Rattle.nl_exec.specs.Endings.{end_seen};
ghost use Rattle.nl_exec.specs.Machines.{rest_of, end_in, scene_of, form_of, program_of, spent_of, units_left, IsOpen, IsClosed, meant};
ghost use Rattle.nl_exec.specs.declared.endings.End.{End};
ghost use Rattle.nl_exec.specs.declared.slices.Turn.TheVariants.{More, Ended};

use crate::endings::End;
use crate::slices::{Machine, Turn};
use nl_agents::Store;
use nl_fixed::NoMemory;
use nl_tree::{Form, Tree};
use std::alloc::Global;

// Works through the slices, one after another, until the open text ends.
fn through<S: Store>(
    alloc: Global,
    machine: &mut Machine<'_, S>,
    slices: &[u64],
) -> Result<Turn, NoMemory>
    requires { IsOpen machine.old }
    ensures more { result ≡ Ok More → (n : ℕ) → rest_of machine.new n ≡ rest_of machine.old (sum slices.now + n) }
    ensures stands { result ≡ Ok More → (slices.now ≡ [] → ⊥) →
        scene_in (rest_of machine.new 0).state ≡ scene_of machine.new }
    ensures cut { result ≡ Ok More → (slices.now ≡ [] → ⊥) → (rest_of machine.new 0).exit ≡ Budget }
    ensures spends { result ≡ Ok More → spent_of machine.new ≡ spent_of machine.old + sum slices.now }
    ensures open { result ≡ Ok More → IsOpen machine.new }
    ensures end { (e : End) → result ≡ Ok (Ended e) →
        end_seen e ≡ end_in machine.old (rest_of machine.old (units_left machine.old)) }
    ensures scene { (e : End) → result ≡ Ok (Ended e) →
        scene_in (rest_of machine.old (units_left machine.old)).state ≡ scene_of machine.new }
    ensures left { (e : End) → result ≡ Ok (Ended e) →
        (rest_of machine.old (units_left machine.old)).state.units ≡ units_left machine.new }
    ensures closed { (e : End) → result ≡ Ok (Ended e) → IsClosed machine.new }
    ensures bounded { units_left machine.new + spent_of machine.new ≡ units_left machine.old + spent_of machine.old }
    ensures form { form_of machine.new ≡ form_of machine.old }
    ensures program { program_of machine.new ≡ program_of machine.old }
{
    let mut left = slices;
    'slices: while let Some((units, behind)) = left.split_first() {
        left = behind;
        if let Turn::Ended(end) = machine.advance(alloc, *units)? {
            return Ok(Turn::Ended(end));
        }
    }
    Ok(Turn::More)
}

/// Opens a text and works through the slices, one after another, until it ends.
pub fn begin_in_slices<'a, S: Store>(
    alloc: Global,
    machine: &mut Machine<'a, S>,
    text: &'a Tree,
    form: Form,
    slices: &[u64],
) -> Result<Turn, NoMemory>
    requires { IsClosed machine.old }
    // More: the machine has what the text leaves of as many units as there are in all slices, and these are spent.
    ensures stands { result ≡ Ok More → (slices.now ≡ [] → ⊥) →
        scene_of machine.new ≡ scene_in (meant machine.old form (tree text.now) (sum slices.now)).state }
    ensures cut { result ≡ Ok More → (slices.now ≡ [] → ⊥) →
        (meant machine.old form (tree text.now) (sum slices.now)).exit ≡ Budget }
    ensures spends { result ≡ Ok More → spent_of machine.new ≡ spent_of machine.old + sum slices.now }
    ensures open { result ≡ Ok More → IsOpen machine.new }
    // Ended: as the text does with all units that are left at its beginning.
    ensures end { (e : End) → result ≡ Ok (Ended e) →
        end_seen e ≡ ending_of form (meant machine.old form (tree text.now) (units_left machine.old)).exit }
    ensures scene { (e : End) → result ≡ Ok (Ended e) →
        scene_of machine.new ≡ scene_in (meant machine.old form (tree text.now) (units_left machine.old)).state }
    ensures left { (e : End) → result ≡ Ok (Ended e) →
        units_left machine.new ≡ (meant machine.old form (tree text.now) (units_left machine.old)).state.units }
    ensures closed { (e : End) → result ≡ Ok (Ended e) → IsClosed machine.new }
    ensures program { program_of machine.new ≡ program_of machine.old }
{
    machine.begin(alloc, text, form)?;
    through(alloc, machine, slices)
}

/// Opens a text, works through the slices, one after another, and then to its end: the end, what it leaves and the units are those of the
/// text's meaning, whatever the slices are.
pub fn run_in_slices<'a, S: Store>(
    alloc: Global,
    machine: &mut Machine<'a, S>,
    text: &'a Tree,
    form: Form,
    slices: &[u64],
) -> Result<End, NoMemory>
    requires { IsClosed machine.old }
    ensures end { IfOk result (λ e.
        end_seen e ≡ ending_of form (meant machine.old form (tree text.now) (units_left machine.old)).exit) }
    ensures scene { OnOk result
        (scene_of machine.new ≡ scene_in (meant machine.old form (tree text.now) (units_left machine.old)).state) }
    ensures left { OnOk result
        (units_left machine.new ≡ (meant machine.old form (tree text.now) (units_left machine.old)).state.units) }
    ensures closed { OnOk result (IsClosed machine.new) }
    ensures program { program_of machine.new ≡ program_of machine.old }
{
    machine.begin(alloc, text, form)?;
    match through(alloc, machine, slices)? {
        Turn::Ended(end) => Ok(end),
        Turn::More => machine.finish(alloc),
    }
}
