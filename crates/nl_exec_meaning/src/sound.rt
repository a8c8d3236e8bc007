//! What the machine knows of the program that it runs.
ghost use Rattle.std.specs.Prelude.{◌≡◌};
ghost use Rattle.nl_agents_layout.specs.Layouts.{layout_of};
ghost use Rattle.nl_exec_meaning.specs.Sound.{IsSound};

use nl_agents_layout::Layout;
use nl_tree::Program;

/// What a checked program and its layout owe to the machine. It does nothing.
pub fn program_is_sound(program: &Program, layout: &Layout)
    requires { layout.now ≡ layout_of program.now.declared }
    ensures { IsSound program.now layout.now }
{
    let _declared = program.declared();
}
