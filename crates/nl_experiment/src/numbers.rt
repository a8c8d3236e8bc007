//! Numbers of runs as words.
ghost use Rattle.std.specs.Prelude.{◌≡◌, ◌≤◌};
ghost use Rattle.nl_experiment.specs.Numbers.{AreDigits, number_of, run_among};

use nl_experiment_keys::PlanKind;
use nl_experiment_sweep::MOST_RUNS;

/// The run that digits name among so many.
#[tactic(auto, using(crate::proofs::Digits::beyond))]
pub(crate) fn run_among(runs: u64, word: &[u8]) -> Result<u64, PlanKind>
    requires few { runs ≤ 100000 }
    requires digits { AreDigits word.now }
    ensures { result ≡ run_among runs (number_of word.now) }
{
    let mut number = 0u64;
    'digits: for digit in word {
        if number > MOST_RUNS {
            return Err(PlanKind::NoSuchRun);
        }
        number = 10 * number + u64::from(*digit - b'0');
    }
    if 1 <= number && number <= runs {
        Ok(number)
    } else {
        Err(PlanKind::NoSuchRun)
    }
}
