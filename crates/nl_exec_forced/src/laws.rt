//! Laws of machines and their units. The functions do nothing, but for the last one: their contracts are the laws.
ghost use Rattle.std.specs.Prelude.{◌≡◌, Ok};
ghost use Rattle.nl_exec.specs.Machines.{IsOpen};
ghost use Rattle.nl_exec.specs.declared.endings.End.{End};
ghost use Rattle.nl_exec.specs.declared.slices.Turn.TheVariants.{Ended, More};
ghost use Rattle.nl_exec_forced.specs.Forced.{IsForced, IsWholeOrCut, WantsFurther};

use nl_agents::Store;
use nl_exec::{Machine, Turn};
use nl_fixed::NoMemory;
use std::alloc::Global;

/// What is left of the open text is whole with whatever units, or cut, as the text itself is.
pub fn rests_are_whole_or_cut<S: Store>(machine: &Machine<'_, S>)
    ensures { IsWholeOrCut machine.now }
{}

/// What `Machine::advance` promises where it answers that there is more, and what it promises where the text has ended within its units, exclude
/// each other: so which of the two it answers is forced by what the machine holds.
pub fn answers_are_forced<S: Store>(machine: &Machine<'_, S>)
    ensures { IsForced machine.now }
{}

/// Works so many units at most, by `Machine::advance`: where memory isn't wanting there is more exactly where what is left wants a unit beyond these,
/// and the budget has one.
pub fn answers_when_it_must<S: Store>(
    alloc: Global,
    machine: &mut Machine<'_, S>,
    units: u64,
) -> Result<Turn, NoMemory>
    requires { IsOpen machine.old }
    ensures more { result ≡ Ok More → WantsFurther machine.old units }
    ensures ended { (e : End) → result ≡ Ok (Ended e) → WantsFurther machine.old units → ⊥ }
{
    machine.advance(alloc, units)
}
