//! What `sort` makes of a list.
ghost use Rattle.std.specs.Prelude.{◌≡◌, map, IfOk};
ghost use Rattle.std.specs.List.{list_any, filter_map};
ghost use Rattle.nl_value.specs.Views.{plain};
ghost use Rattle.nl_listops_series.specs.Sorts.{is_of, is_agent_kind, agent_kind, first_kind, sorted_kind, sorted_items};

use nl_fixed::NoMemory;
use nl_value::{Items, Life, OrderKind, Value};
use std::alloc::Global;

/// Whether values of the kind have an order with this one.
fn is_of<L: Life>(value: &Value, kind: OrderKind, life: &L) -> bool
    ensures { result ≡ is_of (L.living life.now) kind (plain value.now) }
{
    match kind {
        OrderKind::Unordered => false,
        _ => value.order_kind(life) == kind,
    }
}

/// Whether a value is of the kind.
fn has_kind<L: Life>(values: &[Value], kind: OrderKind, life: &L) -> bool
    ensures { result ≡ list_any (is_of (L.living life.now) kind) (map plain values.now) }
{
    for value in values {
        if is_of(value, kind, life) {
            return true;
        }
    }
    false
}

/// Whether values of the kind are living agents.
fn is_agent_kind(kind: OrderKind) -> bool
    ensures { result ≡ is_agent_kind kind }
{
    matches!(
        kind,
        OrderKind::Turtles | OrderKind::Patches | OrderKind::Links
    )
}

/// The kind of the first living agent, and Unordered where there is none.
fn first_agent_kind<L: Life>(values: &[Value], life: &L) -> OrderKind
    ensures { result ≡ first_kind (filter_map (agent_kind (L.living life.now)) (map plain values.now)) }
{
    for value in values {
        let kind = value.order_kind(life);
        if is_agent_kind(kind) {
            return kind;
        }
    }
    OrderKind::Unordered
}

/// Which values are sorted: the numbers where there are any, else the texts, else the agents of the first living one's kind.
fn sorted_kind<L: Life>(values: &[Value], life: &L) -> OrderKind
    ensures { result ≡ sorted_kind (L.living life.now) (map plain values.now) }
{
    if has_kind(values, OrderKind::Numbers, life) {
        OrderKind::Numbers
    } else if has_kind(values, OrderKind::Texts, life) {
        OrderKind::Texts
    } else {
        first_agent_kind(values, life)
    }
}

/// The values that are sorted, ascending; what is equal in the order stays in place, and the others are dropped.
pub fn sorted<L: Life>(alloc: Global, items: &Items, life: &L) -> Result<Items, NoMemory>
    ensures { IfOk result (λ sorted. sorted ≡ sorted_items (L.living life.now) items.now) }
{
    let values = items.as_slice();
    let kind = sorted_kind(values, life);
    let mut kept = Items::empty(alloc);
    for value in values {
        if is_of(value, kind, life) {
            let again = value.copy(alloc)?;
            kept.push(alloc, again)?;
        }
    }
    kept.sort(alloc, life)?;
    Ok(kept)
}
