//! What turns and rounds mean. These functions do nothing: their contracts are laws.
ghost use Rattle.nl_lanes.specs.Laws.{AllEndedGiveAll, EndedGive, EnoughUnitsGiveInOrder, NoTextTwice, OneLaneGivesInOrder, OneLaneIsInOrder, RoundsAreTurns, RoundsEndAll, RoundsGiveAll, RunsAreOnce, TextsAreOfRuns, UnitsBoundRounds};

/// Over each list of turns, of any lanes and with any units: each text that is given is that of a run, none is given twice, and where all runs
/// have ended each was given once. One lane gives them in order.
pub fn texts_come_once()
    ensures once { RunsAreOnce }
    ensures own { TextsAreOfRuns }
    ensures twice { NoTextTwice }
    ensures ended { EndedGive }
    ensures all { AllEndedGiveAll }
    ensures order { OneLaneIsInOrder }
{}

/// Rounds are turns. They go on until all runs have ended, and more rounds than there are units make no difference.
pub fn rounds_end_all_runs()
    ensures turns { RoundsAreTurns }
    ensures ended { RoundsEndAll }
    ensures most { UnitsBoundRounds }
{}

/// Rounds give the texts of all runs, each of them once, and in order where there is one lane, or where a turn has units enough for each run.
pub fn rounds_give_all_texts()
    ensures all { RoundsGiveAll }
    ensures one { OneLaneGivesInOrder }
    ensures enough { EnoughUnitsGiveInOrder }
{}
