//! The colors that have names, with their numbers.
//!
//! The names and numbers are those of the NetLogo Programming Guide ("Color"). The numbers of the language's colors go from 0 up to
//! below 140, ten shades from black to white for each primary color.
ghost use Rattle.std.specs.Prelude.{◌≡◌, ◌<◌, map, slice_get, Some, IfOk};
ghost use Rattle.nl_value.specs.Colors.{color_named, number_among, primary_numbers};
ghost use Rattle.nl_value.specs.inner.Rows.{color_of};
ghost use Rattle.nl_value.specs.Plain.{PlainNumber};

use crate::values::{Items, Value};
use nl_fixed::{NoMemory, Num};
use std::alloc::Global;

/// How many primary colors there are.
pub const PRIMARY_COLORS: usize = 14;

/// A named color, in tenths.
pub(crate) struct NamedColor {
    pub(crate) name: &'static str,
    pub(crate) tenths: u16,
}

// Rows of names and tenths.
macro_rules! colors {
    ($($name:literal $tenths:literal)*) => {
        [$(NamedColor { name: $name, tenths: $tenths }),*]
    };
}

/// The number of the first color that has this name.
fn find(rows: &[NamedColor], name: &[u8]) -> Option<i64>
    ensures { result ≡ number_among (map color_of rows.now) name.now }
{
    for row in rows {
        if row.name.as_bytes() == name {
            return Some(row.tenths as i64 * 100_000);
        }
    }
    None
}

/// The number of the color that has this name in lower case, or None where no color has it.
pub fn color_named(name: &[u8]) -> Option<Num>
    ensures { result ≡ color_named name.now }
{
    static NAMED: [NamedColor; 17] = colors![
        "gray" 50 "red" 150 "orange" 250 "brown" 350 "yellow" 450 "green" 550 "lime" 650
        "turquoise" 750 "cyan" 850 "sky" 950 "blue" 1050 "violet" 1150 "magenta" 1250 "pink" 1350
        "grey" 50 "black" 0 "white" 99
    ];
    Num::new(find(&NAMED, name)?)
}

/// The primary color at a place, counted from 0. They are ten apart.
pub fn primary_color(at: usize) -> Num
    requires { at < PRIMARY_COLORS }
    ensures { slice_get primary_numbers at ≡ Some result }
{
    match Num::new(at as i64 * 10_000_000 + 5_000_000) {
        Some(number) => number,
        None => unreachable!(),
    }
}

/// The list of the primary colors, in order.
pub fn primary_colors(alloc: Global) -> Result<Items, NoMemory>
    ensures { IfOk result (λ items. items ≡ map PlainNumber primary_numbers) }
{
    let mut items = Items::empty(alloc);
    for at in 0..PRIMARY_COLORS {
        items.push(alloc, Value::Number(primary_color(at)))?;
    }
    Ok(items)
}
