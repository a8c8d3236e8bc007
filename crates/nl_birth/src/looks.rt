//! Colors and headings of new turtles.
ghost use Rattle.std.specs.Prelude.{◌≡◌, ◌<◌, ◌≤◌};
ghost use Rattle.nl_fixed.specs.Numbers.{whole_limit};
ghost use Rattle.nl_value.specs.Plain.{PlainNumber};
ghost use Rattle.nl_agents.specs.Changes.{TurtleLives, revalued};
ghost use Rattle.nl_agents.specs.declared.agents.Owner.TheVariants as owner;
ghost use Rattle.nl_birth.specs.Looks.{drawn_looks, looks_in_order, numbered, dressed};

use nl_agents::{COLOR, HEADING, Owner, Store};
use nl_draw::Stream;
use nl_fixed::{Num, rounded_quotient};
use nl_value::Value;
use nl_value::colors::{PRIMARY_COLORS, primary_color};

/// A turn, in millionths of a degree.
const FULL_TURN: i128 = 360_000_000;

/// The color of a turtle, and its heading in degrees.
#[derive(Clone, Copy, PartialEq, Eq, Debug)]
pub struct Looks {
    pub color: Num,
    pub heading: Num,
}

/// Draws first one of the primary colors, then a heading of whole degrees.
pub(crate) fn draw_looks(stream: &mut Stream) -> Looks
    ensures looks { result ≡ (drawn_looks stream.old).0 }
    ensures state { stream.new ≡ (drawn_looks stream.old).1 }
{
    let color = primary_color(stream.draw(PRIMARY_COLORS as u64) as usize);
    let heading = Num::whole(stream.draw(360) as i64).unwrap();
    Looks { color, heading }
}

/// The looks of the turtle of this index among so many, from 0: the primary colors in turn, and headings that are spread over a turn.
pub(crate) fn looks_in_order(count: u64, index: u64) -> Looks
    requires index { index < count }
    requires few { count ≤ whole_limit }
    ensures { result ≡ looks_in_order count index }
{
    let color = primary_color((index % PRIMARY_COLORS as u64) as usize);
    let heading = rounded_quotient(FULL_TURN * i128::from(index), count).rem_euclid(FULL_TURN);
    Looks {
        color,
        heading: Num::new(heading as i64).unwrap(),
    }
}

/// Sets a variable of a turtle to a number, where the turtle owns it.
fn set_number<S: Store>(store: &mut S, turtle: u64, slot: u32, number: Num)
    requires { TurtleLives turtle (S.world store.old) }
    ensures { S.world store.new ≡ numbered turtle slot number (S.world store.old) }
{
    let _shape = store.shape();
    let _old = store.set_var(Owner::Turtle(turtle), slot, Value::Number(number));
}

/// Gives a turtle its looks, as far as it owns what they are kept in.
pub(crate) fn dress<S: Store>(store: &mut S, turtle: u64, looks: Looks)
    requires { TurtleLives turtle (S.world store.old) }
    ensures { S.world store.new ≡ dressed turtle looks (S.world store.old) }
{
    set_number(store, turtle, COLOR, looks.color);
    set_number(store, turtle, HEADING, looks.heading);
}

#[cfg(test)]
mod tests {
    use super::*;

    // Worked out by the formulas of Pcg32 on its stream 54.
    #[test]
    fn looks_drawn_at_seed_42(rt: HostRuntime) {
        let mut stream = Stream::new(42);
        for (color, heading) in [(135, 339), (5, 125), (5, 265)] {
            let looks = draw_looks(&mut stream);
            assert_eq!(rt; looks.color.millionths(), color * 1_000_000);
            assert_eq!(rt; looks.heading.millionths(), heading * 1_000_000);
        }
    }

    #[test]
    fn looks_in_order_of_seven_and_of_sixteen(rt: HostRuntime) {
        let rows = [
            (7, 0, 5, 0),
            (7, 1, 15, 51_428_571),
            (7, 2, 25, 102_857_143),
            (7, 6, 65, 308_571_429),
            (16, 13, 135, 292_500_000),
            (16, 14, 5, 315_000_000),
            (16, 15, 15, 337_500_000),
        ];
        for (count, index, color, heading) in rows {
            let looks = looks_in_order(count, index);
            assert_eq!(rt;
                looks.color.millionths(),
                color * 1_000_000,
                "at {index} of {count}"
            );
            assert_eq!(rt;
                looks.heading.millionths(),
                heading,
                "at {index} of {count}"
            );
        }
    }
}
