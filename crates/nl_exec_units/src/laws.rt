//! Laws of texts and their units. The functions do nothing: their contracts are the laws.
ghost use Rattle.nl_exec_units.specs.Further.{CutTextsLeaveNotAll, NodesAreWholeOrCut, TextsAreWholeOrCut, TextsWantWhatTheySpend};

/// The evaluation of a node either ends by itself, and leaves whatever it is given beyond that, or it ends for want of units.
pub fn nodes_are_whole_or_cut()
    ensures { NodesAreWholeOrCut }
{}

/// So does a lone text.
pub fn texts_are_whole_or_cut()
    ensures { TextsAreWholeOrCut }
{}

/// A lone text that ends by itself wants just the units that it spends: with fewer it ends for want of units, and with more it leaves these.
pub fn texts_want_what_they_spend()
    ensures { TextsWantWhatTheySpend }
{}

/// No lone text that ends for want of units leaves all of what it is given beyond these.
pub fn cut_texts_leave_not_all()
    ensures { CutTextsLeaveNotAll }
{}
