//! The clock of the world.
ghost use Rattle.std.specs.Prelude.{◌≡◌, map, IsTrue, IfOk, OnErr};
ghost use Rattle.nl_value.specs.Views.{plain};
ghost use Rattle.nl_agents.specs.World.{Rest};
ghost use Rattle.nl_agents.specs.Standing.{fits_rest};
ghost use Rattle.nl_exec_acts.specs.Fails.{AnswersAt};
ghost use Rattle.nl_exec_acts.specs.Acts.{clocked, ticks_or_off, advanced, advanced_by};

use crate::fail::ErrorKind;
use crate::words::Clock;
use nl_agentset_query::inputs::number_at;
use nl_fixed::Num;
use nl_value::Value;

/// The ticks, where the clock is on.
fn ticks_or_off(ticks: Option<Num>) -> Result<Num, ErrorKind>
    ensures { result ≡ ticks_or_off ticks }
{
    match ticks {
        Some(now) => Ok(now),
        None => Err(ErrorKind::TicksOff),
    }
}

/// Adds to the ticks, from what they are now.
fn advance(by: Num, now: Num, ticks: &mut Option<Num>) -> Result<Value, ErrorKind>
    ensures answer { AnswersAt result ticks.new (advanced by now) }
    ensures kept { OnErr result (ticks.new ≡ ticks.old) }
    ensures fit { IfOk result (λ value. (r : Rest) → IsTrue (fits_rest r (plain value))) }
{
    *ticks = Some(now.add(by)?);
    Ok(Value::Nobody)
}

/// Adds a number to the ticks. That the clock is off is told first.
fn advance_by(by: Num, ticks: &mut Option<Num>) -> Result<Value, ErrorKind>
    ensures answer { AnswersAt result ticks.new (advanced_by by ticks.old) }
    ensures kept { OnErr result (ticks.new ≡ ticks.old) }
    ensures fit { IfOk result (λ value. (r : Rest) → IsTrue (fits_rest r (plain value))) }
{
    let now = ticks_or_off(*ticks)?;
    if by.millionths() < 0 {
        return Err(ErrorKind::Domain);
    }
    advance(by, now, ticks)
}

impl Clock {
    /// What the word answers, and what becomes of the ticks.
    pub(crate) fn perform(
        self,
        inputs: &[Value],
        ticks: &mut Option<Num>,
    ) -> Result<Value, ErrorKind>
        ensures answer { AnswersAt result ticks.new (clocked self (map plain inputs.now) ticks.old) }
        ensures kept { OnErr result (ticks.new ≡ ticks.old) }
        ensures fit { IfOk result (λ value. (r : Rest) → IsTrue (fits_rest r (plain value))) }
    {
        match self {
            Clock::Reset => {
                *ticks = Some(Num::whole(0).unwrap());
                Ok(Value::Nobody)
            }
            Clock::Clear => {
                *ticks = None;
                Ok(Value::Nobody)
            }
            Clock::Advance => {
                let now = ticks_or_off(*ticks)?;
                advance(Num::whole(1).unwrap(), now, ticks)
            }
            Clock::AdvanceBy => advance_by(number_at(inputs, 0)?, ticks),
            Clock::Ticks => Ok(Value::Number(ticks_or_off(*ticks)?)),
        }
    }
}
