//! What is true of every world that the calls of a store make. These functions do nothing: the contract of each is a law.
ghost use Rattle.nl_agents.specs.Laws.{FirstWorldsAreWorlds, CallsKeepWorlds, CallsMakeWorlds, SerialsAscend, DeadTurtlesStayDead, DeadLinksStayDead, EndsLive, TiesAreSingle, ValuesFit, ThereAndBack, SettingSets, SettingKeepsTheRest, BreedsChangeVariables, BirthsCopyParents, BirthsGiveFirstValues, CallsLeaveTheRest};

/// The first world is a world, what a call leaves of a world is one, and so is all that calls make of a first world.
pub fn calls_make_worlds()
    ensures first { FirstWorldsAreWorlds }
    ensures keep { CallsKeepWorlds }
    ensures make { CallsMakeWorlds }
{}

/// Serials ascend, and one that is dead never lives again, whatever calls are made.
pub fn serials_are_never_used_again()
    ensures ascend { SerialsAscend }
    ensures turtles { DeadTurtlesStayDead }
    ensures links { DeadLinksStayDead }
{}

/// The ends of a link are two living turtles, which no other link of its breed joins the same way.
pub fn links_stand()
    ensures live { EndsLive }
    ensures single { TiesAreSingle }
{}

/// Every value of a world fits it, and every heading is a number.
pub fn values_fit()
    ensures { ValuesFit }
{}

/// A variable that both breeds own has its value after a change to the other breed and back.
pub fn there_and_back()
    ensures { ThereAndBack }
{}

/// What is set has the value, and every other variable has the one that it had.
pub fn setting_sets_one()
    ensures sets { SettingSets }
    ensures keeps { SettingKeepsTheRest }
{}

/// What a turtle has after a change of breed, and what it is born with.
pub fn breeds_and_births()
    ensures breeds { BreedsChangeVariables }
    ensures copies { BirthsCopyParents }
    ensures first { BirthsGiveFirstValues }
{}

/// A call leaves whatever it isn't on as it was: other turtles, links and patches, global variables, the shape and the layout.
pub fn calls_leave_the_rest()
    ensures { CallsLeaveTheRest }
{}
