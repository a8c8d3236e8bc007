//! Which of two values comes first.
ghost use Rattle.std.specs.Prelude.{◌≡◌, IsTrue};
ghost use Rattle.std.specs.Ordering.{nat_cmp};
ghost use Rattle.std.specs.Cmp.Lexicographic.{slice_cmp};
ghost use Rattle.nl_value.specs.Plain.{PlainTurtle, PlainLink};
ghost use Rattle.nl_value.specs.Living.{fits, link_key};
ghost use Rattle.nl_value.specs.inner.Contents.{compared_texts};
ghost use Rattle.nl_value.specs.Order.{compared, comes_before, order_kind, rank, value_order};
ghost use Rattle.nl_value.specs.Views.{plain};

use crate::life::Life;
use crate::values::Value;
use std::cmp::Ordering;

/// The kinds of values that have an order among themselves, in the order in which `compare` puts the kinds. Agents that have
/// died and all values that are none of these are Unordered.
#[derive(Clone, Copy, PartialEq, Eq, Debug)]
pub enum OrderKind {
    Numbers,
    Texts,
    Turtles,
    Patches,
    Links,
    Unordered,
}

impl Value {
    /// The values with which this one has an order.
    pub fn order_kind<L: Life>(&self, life: &L) -> OrderKind
        ensures { result ≡ order_kind (L.living life.now) (plain self.now) }
    {
        match self {
            Value::Number(_) => OrderKind::Numbers,
            Value::Words(_) | Value::Blank => OrderKind::Texts,
            Value::Turtle(turtle) if life.turtle_lives(*turtle) => OrderKind::Turtles,
            Value::Patch(_) => OrderKind::Patches,
            Value::Link(link) if life.link_lives(*link) => OrderKind::Links,
            _ => OrderKind::Unordered,
        }
    }
}

fn rank(kind: OrderKind) -> u8
    ensures { result ≡ rank kind }
{
    kind as u8
}

/// How two turtles compare, or None where one of them doesn't live.
fn compare_turtles<L: Life>(a: u64, b: u64, life: &L) -> Option<Ordering>
    ensures { result ≡ compared (L.living life.now) (PlainTurtle a) (PlainTurtle b) }
{
    if life.turtle_lives(a) && life.turtle_lives(b) {
        Some(a.cmp(&b))
    } else {
        None
    }
}

/// How two living links compare.
fn compare_living<L: Life>(a: u64, b: u64, life: &L) -> Ordering
    requires first { IsTrue ((L.living life.now).link_lives a) }
    requires second { IsTrue ((L.living life.now).link_lives b) }
    ensures { let w = L.living life.now in
        result ≡ slice_cmp nat_cmp (link_key w a) (link_key w b) }
{
    if life.link_before(a, b) {
        Ordering::Less
    } else if life.link_before(b, a) {
        Ordering::Greater
    } else {
        Ordering::Equal
    }
}

/// How two links compare, or None where one of them doesn't live.
fn compare_links<L: Life>(a: u64, b: u64, life: &L) -> Option<Ordering>
    ensures { result ≡ compared (L.living life.now) (PlainLink a) (PlainLink b) }
{
    if life.link_lives(a) && life.link_lives(b) {
        Some(compare_living(a, b, life))
    } else {
        None
    }
}

/// How two texts compare, by their bytes, or None where one is no text.
fn compare_texts(a: &Value, b: &Value) -> Option<Ordering>
    ensures { result ≡ compared_texts (plain a.now) (plain b.now) }
{
    match (a.text(), b.text()) {
        (Some(x), Some(y)) => Some(x.cmp(y)),
        _ => None,
    }
}

/// How two values compare, or None where they have no order.
fn compared<L: Life>(a: &Value, b: &Value, life: &L) -> Option<Ordering>
    ensures { result ≡ compared (L.living life.now) (plain a.now) (plain b.now) }
{
    match (a, b) {
        (Value::Number(x), Value::Number(y)) => Some(x.millionths().cmp(&y.millionths())),
        (Value::Turtle(x), Value::Turtle(y)) => compare_turtles(*x, *y, life),
        (Value::Patch(x), Value::Patch(y)) => Some(x.cmp(y)),
        (Value::Link(x), Value::Link(y)) => compare_links(*x, *y, life),
        _ => compare_texts(a, b),
    }
}

/// Whether the first value comes before the second. Numbers have an order, texts have one by their bytes, and two living
/// agents of one kind: turtles by serial, patches by number, which goes from left to right and then from top to bottom, and
/// links by their first ends, their second ends, their breeds and their serials. All other values have none.
pub fn before<L: Life>(a: &Value, b: &Value, life: &L) -> Option<bool>
    requires first { IsTrue (fits (L.living life.now) (plain a.now)) }
    requires second { IsTrue (fits (L.living life.now) (plain b.now)) }
    ensures { result ≡ comes_before (L.living life.now) (plain a.now) (plain b.now) }
{
    compared(a, b, life).map(|order| order.is_lt())
}

/// How any two values compare, for sorts: numbers come first, then texts, living turtles, patches, living links and all other
/// values. Two of one kind compare as `before` says; values that have no order are equal here. It asks for nothing, so that a
/// sort's closure can call it.
pub fn compare<L: Life>(a: &Value, b: &Value, life: &L) -> Ordering
    ensures { result ≡ value_order (L.living life.now) (plain a.now) (plain b.now) }
{
    match compared(a, b, life) {
        Some(order) => order,
        None => rank(a.order_kind(life)).cmp(&rank(b.order_kind(life))),
    }
}
