//! The model of which stores are tried, and its program.
ghost use Rattle.std.specs.Prelude.{IfOk};
ghost use Rattle.nl_tree.specs.Names.{AreWidgets, IsDeclared};

use nl_check::check;
use nl_decl::declare;
use nl_fixed::{Names, NoMemory, Str};
use nl_scan::{Source, scan};
use nl_tree::{Declared, Program, Trees};
use std::alloc::Global;

// Beside these stands the widget `speed`.
const MODEL: &[u8] =
    b"globals [ g h ] breed [ foxes fox ] breed [ owls owl ] directed-link-breed [ wires wire ] \
undirected-link-breed [ ropes rope ] turtles-own [ age ] foxes-own [ den shared ] owls-own [ shared nest ] \
patches-own [ p ] links-own [ w ] wires-own [ v ]";

/// The breeds of the model, in the order of its text; 0 is no breed.
pub const FOXES: u32 = 1;

pub const OWLS: u32 = 2;

pub const WIRES: u32 = 3;

pub const ROPES: u32 = 4;

fn one_widget(alloc: Global) -> Result<Names, NoMemory>
    ensures { IfOk result AreWidgets }
{
    let mut names = Names::empty(alloc);
    let name = Str::of(alloc, b"speed")?;
    names.push(alloc, name)?;
    Ok(names)
}

/// The program of the model. None at want of memory.
pub fn program(alloc: Global) -> Option<Program> {
    let tokens = scan(alloc, MODEL).ok()?;
    let widgets = one_widget(alloc).ok()?;
    match declare(alloc, &Source::new(MODEL, tokens.as_slice()), widgets) {
        Ok(declared) => checked(alloc, declared),
        Err(_) => None,
    }
}

// The program of declarations that have no procedures.
fn checked(alloc: Global, declared: Declared) -> Option<Program>
    requires { IsDeclared declared }
{
    if !declared.procedures.as_slice().is_empty() {
        return None;
    }
    match check(alloc, declared, Trees::empty(alloc)) {
        Ok(program) => Some(program),
        Err(_) => None,
    }
}
