//! The texts of the measure for each size.
ghost use Rattle.std.specs.Prelude.{◌≤◌, IfOk, ◌≡◌, OnOk, ◌++◌};
ghost use Rattle.std.specs.Fmt.{decimal};
ghost use Rattle.nl_bench.specs.Texts.{experiment_text, model_text};

use nl_fixed::{NoMemory, Str};
use std::alloc::Global;

/// Turtles that walk at random, are linked where they meet, die of too many links, and have children where they have none.
const MODEL: &[u8] =
    b"to setup clear-all crt crowd [ setxy random-xcor random-ycor ] reset-ticks end
to go
  ask turtles [ rt random 90 fd 1
    if any? other turtles-here [ create-links-with other turtles-here ]
    if count my-links > 3 [ die ] ]
  ask turtles with [ count my-links = 0 and who mod 7 = 0 ] [ hatch 1 [ fd 1 ] ]
  tick
end
";

// What stands before the seed.
const BEFORE_SEED: &[u8] = b"name = \"bench\"
seed = ";

// What stands between the seed and the crowd.
const BEFORE_CROWD: &[u8] = b"
repetitions = 4
steps = 20
metrics = [\"count turtles\", \"count links\"]

[world]
min-pxcor = -50
max-pxcor = 50
min-pycor = -50
max-pycor = 50

[globals]
crowd = ";

/// The model of the measure for a size from 1 to 1,000; it is the same for each size.
pub fn model(alloc: Global, size: u64) -> Result<Str, NoMemory>
    requires { size ≤ 1000 }
    ensures { IfOk result (λ text. text ≡ model_text) }
{
    Str::of(alloc, MODEL)
}

// Appends a number in digits.
fn append_digits(alloc: Global, text: &mut Str, number: u64) -> Result<(), NoMemory>
    ensures { OnOk result (text.new ≡ text.old ++ decimal number) }
{
    let digits = number.to_string(alloc)?;
    text.append(alloc, digits.as_bytes())
}

/// The experiment of the measure for a size from 1 to 1,000: the size is the seed, and there are 20 turtles for each one of it.
pub fn experiment(alloc: Global, size: u64) -> Result<Str, NoMemory>
    requires { size ≤ 1000 }
    ensures { IfOk result (λ text. text ≡ experiment_text size) }
{
    let mut text = Str::of(alloc, BEFORE_SEED)?;
    append_digits(alloc, &mut text, size)?;
    text.append(alloc, BEFORE_CROWD)?;
    append_digits(alloc, &mut text, 20 * size)?;
    text.append(alloc, b"\n")?;
    Ok(text)
}
