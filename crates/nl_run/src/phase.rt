//! Where a run stands.
ghost use Rattle.std.specs.Prelude.{◌+◌, ◌<◌, ◌^◌};

use crate::plan::LoneText;
use crate::rows::RunEnd;
use nl_draw::Mark;
use nl_fixed::Cells;

/// An end at which a run measures, if no condition tells when it does.
#[derive(Clone, Copy, PartialEq, Eq, Debug)]
pub enum Regular {
    Steps,
    Condition,
    Stop,
}

/// What comes once all metrics are measured.
#[derive(Clone, Copy, PartialEq, Eq, Debug)]
pub enum Behind {
    /// The next step.
    Step,
    /// The end of the run.
    End(Regular),
}

/// A metric that is measured.
#[derive(Drop)]
pub struct Measuring<'a> {
    /// Its index, counted from 0.
    pub index: usize,
    pub metric: LoneText<'a>,
    /// The texts of the metrics before it.
    pub cells: Cells,
    /// Where the random stream stood before it.
    pub mark: Mark,
    pub behind: Behind,
    pub ghost few: { index + 1 < 2 ^ 64 },
}

/// A text that is open.
#[derive(Drop)]
pub enum Open<'a> {
    /// The setup text.
    Setup,
    /// The text of a step.
    Go,
    /// The condition of the end; the random stream stood at the mark.
    Until(LoneText<'a>, Mark),
    /// The condition of the measures; the random stream stood at the mark.
    When(LoneText<'a>, Mark),
    /// A metric.
    Metric(Measuring<'a>),
}

/// Where a run stands.
#[derive(Drop)]
pub enum Phase<'a> {
    /// The machine has this open text.
    Text(Open<'a>),
    /// It is seen whether a step comes.
    Step,
    /// A unit is wanted for a step.
    Wanting,
    /// The run ends in this way. Its rows don't have the end yet.
    Over(RunEnd),
    /// The run has ended.
    Ended,
    /// Memory was wanting.
    Failed,
}

impl<'a> Phase<'a> {
    ghost use Rattle.std.specs.Prelude.{◌≡◌};
    ghost use Rattle.nl_run.specs.Going.{is_going};

    /// Whether the run has neither ended nor failed.
    pub fn is_going(&self) -> bool
        ensures { result ≡ is_going self.now }
    {
        !matches!(self, Phase::Ended | Phase::Failed)
    }
}
