//! Runs as plain data, each with its text and the units that it wants, and want of memory where it is asked for.
ghost use Rattle.std.specs.Prelude.{◌≡◌, ◌≤◌, map, length, IfOk};

use nl_fixed::{NoMemory, Str};
use nl_lanes::{Lane, LaneTurn, Maker};
use std::alloc::Global;

/// Where memory is to be wanting for a run.
#[derive(Clone, Copy, PartialEq, Eq, Debug)]
pub enum Fault {
    Nowhere,
    Begin,
    Advance,
    Text,
}

/// A run as it is planned.
#[derive(Drop)]
pub struct Planned {
    pub text: Str,
    pub units: u64,
    pub fault: Fault,
}

/// What makes the runs of a plan, in order.
#[derive(Drop)]
pub struct Plan {
    pub rows: Vec<Planned>,
}

/// A run that has begun.
#[derive(Drop)]
pub struct PlannedRun {
    text: Str,
    left: u64,
    is_over: bool,
    fault: Fault,
}

impl Lane for PlannedRun {
    ghost lone_text = { λ r. r.text };

    ghost wants = { λ r. r.left };

    ghost has_ended = { λ r. r.is_over };

    fn advance(&mut self, _alloc: Global, units: u64) -> Result<LaneTurn, NoMemory> {
        if self.fault == Fault::Advance {
            return Err(NoMemory);
        }
        if self.left <= units {
            self.is_over = true;
            return Ok(LaneTurn::Ended);
        }
        self.left -= units;
        Ok(LaneTurn::More)
    }

    fn text(&self, alloc: Global) -> Result<Str, NoMemory> {
        if self.fault == Fault::Text {
            return Err(NoMemory);
        }
        self.text.copy(alloc)
    }
}

impl Maker for Plan {
    ghost use Rattle.trial_keys.specs.Plans.{lone};
    ghost use Rattle.std.specs.Prelude.{map};

    type Run = PlannedRun;

    ghost lone_runs = { λ p. map lone p.rows.items };

    fn begin(&mut self, alloc: Global, number: u64) -> Result<PlannedRun, NoMemory> {
        let planned = &self.rows[number as usize - 1];
        if planned.fault == Fault::Begin {
            return Err(NoMemory);
        }
        let text = planned.text.copy(alloc)?;
        Ok(PlannedRun {
            text,
            left: planned.units,
            is_over: false,
            fault: planned.fault,
        })
    }
}

/// A run of a plan: its text, and the units that it wants.
pub type Row = (&'static [u8], u64);

/// The plan of rows, where memory is to be wanting for one run by its number.
pub fn plan_of(alloc: Global, rows: &[Row], fault: (u64, Fault)) -> Result<Plan, NoMemory>
    ensures { IfOk result (λ plan. length plan.rows.items ≡ length rows.now) }
{
    let mut planned = Vec::new(alloc);
    for (index, (text, units)) in rows.iter().enumerate() {
        let is_here = fault.0 == index as u64 + 1;
        let row = Planned {
            text: Str::of(alloc, text)?,
            units: *units,
            fault: if is_here { fault.1 } else { Fault::Nowhere },
        };
        planned.push(row)?;
    }
    Ok(Plan { rows: planned })
}
