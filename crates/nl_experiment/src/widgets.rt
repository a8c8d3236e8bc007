//! The widgets that an experiment stands for.
ghost use Rattle.std.specs.Prelude.{◌≡◌, ◌++◌, [], IfOk, IsTrue, map};
ghost use Rattle.nl_experiment.specs.Widgets as spec;

use nl_experiment_fields::Fields;
use nl_experiment_fields::names::can_be_widget;
use nl_experiment_sweep::{Settings, Varies};
use nl_fixed::{Names, NoMemory, Str};
use nl_parse_reading::known_names::KnownNames;
use std::alloc::Global;

// The names of variables that are set.
fn set_names(alloc: Global, settings: &Settings) -> Result<Names, NoMemory>
    ensures { IfOk result (λ names. names ≡ map (λ s. s.name) settings.now) }
{
    let mut names = Names::empty(alloc);
    let list = settings.as_slice();
    'settings: for setting in list {
        names.push(alloc, setting.name.copy(alloc)?)?;
    }
    Ok(names)
}

// These names, and those of what is varied.
fn with_varied(alloc: Global, set: Names, varies: &Varies) -> Result<Names, NoMemory>
    ensures { IfOk result (λ names. names ≡ set ++ map (λ v. v.name) varies.now) }
{
    let mut names = set;
    let list = varies.as_slice();
    'varied: for vary in list {
        names.push(alloc, vary.name.copy(alloc)?)?;
    }
    Ok(names)
}

// Each of these names that a widget may have, once.
fn gathered(alloc: Global, names: &[Str]) -> Result<Names, NoMemory>
    ensures names { IfOk result (λ widgets. widgets ≡ spec.gathered [] names.now) }
    ensures right { IfOk result (λ widgets. IsTrue (spec.are_right widgets)) }
{
    let mut known = KnownNames::empty(alloc);
    let mut widgets = Names::empty(alloc);
    'names: for name in names {
        if can_be_widget(&known, name.as_bytes()) {
            known.push(alloc, name.copy(alloc)?)?;
            widgets.push(alloc, name.copy(alloc)?)?;
        }
    }
    Ok(widgets)
}

/// The widgets of an experiment: the names of its globals, and then of what it varies, each once.
pub(crate) fn widgets_of(alloc: Global, fields: &Fields) -> Result<Names, NoMemory>
    ensures names { IfOk result (λ widgets. widgets ≡ spec.widgets_of fields.now) }
    ensures right { IfOk result (λ widgets. IsTrue (spec.are_right widgets)) }
{
    let set = set_names(alloc, &fields.globals)?;
    let names = with_varied(alloc, set, &fields.vary)?;
    gathered(alloc, names.as_slice())
}
