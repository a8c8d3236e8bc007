//! Tests of a value's kind.
ghost use Rattle.std.specs.Prelude.{◌≡◌};
ghost use Rattle.nl_value.specs.Views.{plain};
ghost use Rattle.nl_listops.specs.Kinds.{is_agent, is_set_of, is_kind};

use crate::words::KindTest;
use nl_value::{AgentKind, Life, Value};

/// Whether the value is a living agent.
fn is_agent<L: Life>(value: &Value, life: &L) -> bool
    ensures { result ≡ is_agent (L.living life.now) (plain value.now) }
{
    match value {
        Value::Turtle(turtle) => life.turtle_lives(*turtle),
        Value::Patch(_) => true,
        Value::Link(link) => life.link_lives(*link),
        _ => false,
    }
}

/// Whether the value is a set of agents of the kind.
fn is_set_of(value: &Value, kind: AgentKind) -> bool
    ensures { result ≡ is_set_of kind (plain value.now) }
{
    match value {
        Value::Set(set) => set.kind() == kind,
        _ => false,
    }
}

impl KindTest {
    /// Whether the value is of the kind.
    pub(crate) fn of<L: Life>(self, value: &Value, life: &L) -> bool
        ensures { result ≡ is_kind (L.living life.now) self (plain value.now) }
    {
        match self {
            KindTest::Number => matches!(value, Value::Number(_)),
            KindTest::Boolean => matches!(value, Value::Truth(_)),
            KindTest::Text => matches!(value, Value::Words(_) | Value::Blank),
            KindTest::List => matches!(value, Value::Items(_)),
            KindTest::Agent => is_agent(value, life),
            KindTest::Patch => matches!(value, Value::Patch(_)),
            KindTest::Agentset => matches!(value, Value::Set(_)),
            KindTest::TurtleSet => is_set_of(value, AgentKind::Turtle),
            KindTest::PatchSet => is_set_of(value, AgentKind::Patch),
            KindTest::LinkSet => is_set_of(value, AgentKind::Link),
        }
    }
}
