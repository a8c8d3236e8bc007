//! Laws of runs and their units. The functions do nothing: their contracts are the laws.
ghost use Rattle.nl_run_units.specs.Courses.{CutRunsLeaveNotAll, RunsAreWholeOrCut, RunsWantWhatTheySpend};

/// A run either ends by itself, and leaves whatever it is given beyond that, or it ends for want of units.
pub fn runs_are_whole_or_cut()
    ensures { RunsAreWholeOrCut }
{}

/// A run that ends by itself wants just the units that it spends: with fewer it ends for want of units, and with more it leaves these.
pub fn runs_want_what_they_spend()
    ensures { RunsWantWhatTheySpend }
{}

/// No run that ends for want of units leaves all of what it is given beyond these.
pub fn cut_runs_leave_not_all()
    ensures { CutRunsLeaveNotAll }
{}
