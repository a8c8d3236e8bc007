//! What the course of a run means. These functions do nothing: their contracts are laws.
ghost use Rattle.nl_run.specs.Laws.{ConditionsSpend, MetricsSpend, RowsRise, StepsFollowEachOther, TextsSpend, TheLastRowAloneEnds, UnitsAreOfTheBudget, UnitsBoundSteps};

/// The units that are left are some of those that there were. A step, or the end, comes before the further steps, and more than one step a
/// unit makes no difference. Behind a text, a metric and a condition there are as many units fewer as it spent.
pub fn units_bound_runs()
    ensures budget { UnitsAreOfTheBudget }
    ensures steps { StepsFollowEachOther }
    ensures most { UnitsBoundSteps }
    ensures texts { TextsSpend }
    ensures metrics { MetricsSpend }
    ensures conditions { ConditionsSpend }
{}

/// No row but the last one has an end, and that one has; counts of steps rise, but a row that only ends may have that of the one before it.
pub fn rows_say_one_run()
    ensures last { TheLastRowAloneEnds }
    ensures rise { RowsRise }
{}
