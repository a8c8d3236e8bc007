//! Which statistic a word is.
ghost use Rattle.nl_listops_series.specs.Outcomes.{Gives};
ghost use Rattle.nl_listops_series.specs.Statistics.{numbers_among};
ghost use Rattle.nl_listops.specs.Statistics.{statistic_of};

use crate::words::Statistic;
use nl_fixed::Num;
use nl_listops_series::{ListFail, statistics};
use nl_value::Items;
use std::alloc::Global;

impl Statistic {
    /// The statistic of the numbers among the items.
    pub(crate) fn of(self, alloc: Global, items: &Items) -> Result<Num, ListFail>
        ensures { Gives result (statistic_of self (numbers_among items.now)) }
    {
        let numbers = statistics::numbers_among(alloc, items)?;
        match self {
            Statistic::Sum => statistics::total(&numbers),
            Statistic::Min => statistics::least(&numbers),
            Statistic::Max => statistics::greatest(&numbers),
            Statistic::Mean => statistics::mean(&numbers),
            Statistic::Median => statistics::median(alloc, numbers),
            Statistic::Variance => statistics::variance(&numbers),
            Statistic::StandardDeviation => statistics::deviation(&numbers),
        }
    }
}
