//! What the rules of motion mean. These functions do nothing: the contract of each is a law.
ghost use Rattle.nl_motion.specs.Laws.{StepsLeadBack, ClimbsEndAtCenters, ClimbsLeadToSummits, NoNumbersNoDraw, DiffusionKeepsTotals, DiffusingNothingKeepsFields, EvenFieldsStay};

/// A step and the same step back lead to where they began, but for a millionth on each axis by which two roundings may differ.
pub fn steps_lead_back()
    ensures { StepsLeadBack }
{}

/// After a climb a turtle stands at the center of a patch. Where that is another one than before, its number is greater, or less, and none
/// of the neighbors has a greater, or a lesser one. Where none has a number nothing is drawn.
pub fn climbs_lead_to_summits()
    ensures centers { ClimbsEndAtCenters }
    ensures summits { ClimbsLeadToSummits }
    ensures none { NoNumbersNoDraw }
{}

/// What patches give to each other stays among them; a part of 0 changes nothing, and a field of one value stays as it is.
pub fn diffusion_loses_nothing()
    ensures totals { DiffusionKeepsTotals }
    ensures nothing { DiffusingNothingKeepsFields }
    ensures even { EvenFieldsStay }
{}
