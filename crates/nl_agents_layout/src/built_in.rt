//! The variables that agents have from the start: their slots, and their first values.
ghost use Rattle.std.specs.Prelude.{◌≡◌, ◌≤◌, [], IfOk, unsigned_abs};
ghost use Rattle.nl_fixed.specs.Numbers.{limit};
ghost use Rattle.nl_value.specs.Plain.{PlainNumber, PlainWords};
ghost use Rattle.nl_value.specs.Views.{plain};
ghost use Rattle.nl_agents_layout.specs.BuiltIn.{first_of_turtle, first_of_patch, first_of_link, rule_of, slot_of_code};

use crate::rule::Rule;
use nl_fixed::{NoMemory, Num, Str};
use nl_value::Value;
use nl_words::codes;
use std::alloc::Global;

/// The slot of the color of turtles and of links.
pub const COLOR: u32 = 0;

/// The slot of the heading of turtles.
pub const HEADING: u32 = 1;

pub const SHAPE: u32 = 2;

pub const LABEL: u32 = 3;

pub const LABEL_COLOR: u32 = 4;

/// The slot of `hidden?`.
pub const HIDDEN: u32 = 5;

pub const SIZE: u32 = 6;

pub const PEN_SIZE: u32 = 7;

pub const PEN_MODE: u32 = 8;

pub const PCOLOR: u32 = 9;

pub const PLABEL: u32 = 10;

pub const PLABEL_COLOR: u32 = 11;

pub const THICKNESS: u32 = 12;

pub const TIE_MODE: u32 = 13;

/// How many variables agents have from the start. From here on the slots are those of variables that a model declares.
pub const BUILT_IN: u32 = 14;

/// The slot of a built-in variable, by the code of its word.
pub(crate) fn slot_of_code(code: u16) -> Option<u32>
    ensures { result ≡ slot_of_code code }
{
    let slot = match code {
        codes::COLOR => COLOR,
        codes::HEADING => HEADING,
        codes::SHAPE => SHAPE,
        codes::LABEL => LABEL,
        codes::LABEL_COLOR => LABEL_COLOR,
        codes::HIDDEN => HIDDEN,
        codes::SIZE => SIZE,
        codes::PEN_SIZE => PEN_SIZE,
        codes::PEN_MODE => PEN_MODE,
        codes::PCOLOR => PCOLOR,
        codes::PLABEL => PLABEL,
        codes::PLABEL_COLOR => PLABEL_COLOR,
        codes::THICKNESS => THICKNESS,
        codes::TIE_MODE => TIE_MODE,
        _ => return None,
    };
    Some(slot)
}

/// What a variable of agents may hold, by its slot. A variable that a model declares holds anything.
pub fn rule_of(slot: u32) -> Rule
    ensures { result ≡ rule_of slot }
{
    match slot {
        COLOR | LABEL_COLOR | PCOLOR | PLABEL_COLOR => Rule::Color,
        HEADING => Rule::Heading,
        SIZE | PEN_SIZE | THICKNESS => Rule::Number,
        HIDDEN => Rule::Truth,
        SHAPE | PEN_MODE | TIE_MODE => Rule::Words,
        _ => Rule::Anything,
    }
}

/// The number of so many millionths, which are in range.
fn millionths(count: i64) -> Value
    requires { unsigned_abs count ≤ limit }
    ensures { plain result ≡ PlainNumber count }
{
    Value::Number(Num::new(count).unwrap())
}

/// A text.
fn text(alloc: Global, bytes: &[u8]) -> Result<Value, NoMemory>
    ensures { IfOk result (λ value. plain value ≡ PlainWords bytes.now) }
{
    Value::words(alloc, Str::of(alloc, bytes)?)
}

/// The first value of a turtle's variable.
pub fn first_of_turtle(alloc: Global, slot: u32) -> Result<Value, NoMemory>
    ensures { IfOk result (λ value. plain value ≡ first_of_turtle slot) }
{
    let value = match slot {
        SHAPE => text(alloc, b"default")?,
        LABEL => Value::Blank,
        LABEL_COLOR => millionths(9_900_000),
        HIDDEN => Value::Truth(false),
        SIZE | PEN_SIZE => millionths(1_000_000),
        PEN_MODE => text(alloc, b"up")?,
        _ => millionths(0),
    };
    Ok(value)
}

/// The first value of a link's variable.
pub fn first_of_link(alloc: Global, slot: u32) -> Result<Value, NoMemory>
    ensures { IfOk result (λ value. plain value ≡ first_of_link slot) }
{
    let value = match slot {
        COLOR => millionths(5_000_000),
        SHAPE => text(alloc, b"default")?,
        LABEL => Value::Blank,
        LABEL_COLOR => millionths(9_900_000),
        HIDDEN => Value::Truth(false),
        TIE_MODE => text(alloc, b"none")?,
        _ => millionths(0),
    };
    Ok(value)
}

/// The first value of a patch's variable. It takes no memory.
pub fn first_of_patch(alloc: Global, slot: u32) -> Value
    ensures { plain result ≡ first_of_patch slot }
{
    match slot {
        PLABEL => Value::Blank,
        PLABEL_COLOR => millionths(9_900_000),
        _ => millionths(0),
    }
}
