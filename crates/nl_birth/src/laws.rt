//! Laws of births and of the making of links. These functions do nothing: the contract of each is a law.
ghost use Rattle.nl_birth.specs.Laws.{DrawnBirthsAppend, OrderedBirthsAppend, HatchingsAppend, HatchedAreAlike, HeadingsAreBelowATurn, DrawnLooksStay, OrderedLooksStay, RoomEndsWhereFull, LinksAppend, MadeTwiceMakesNone, LowerEndIsFirst, LinkRoomEndsWhereFull, TurtlesLiveOn, LinksLiveOn, KeepingGoesOn};

/// Turtles that are born are appended under the next serials, of their breed and where they are to stand, and nothing else is changed.
pub fn births_append()
    ensures drawn { DrawnBirthsAppend }
    ensures ordered { OrderedBirthsAppend }
    ensures hatched { HatchingsAppend }
{}

/// A hatched turtle of its parent's breed differs from its parent in its serial alone.
pub fn hatched_are_alike()
    ensures { HatchedAreAlike }
{}

/// Each turtle that was created has the color and the heading that were drawn for it, or that its place in the order gives.
pub fn looks_stay()
    ensures drawn { DrawnLooksStay }
    ensures ordered { OrderedLooksStay }
{}

/// The headings of turtles in order are from 0 on and below 360.
pub fn headings_are_below_a_turn()
    ensures { HeadingsAreBelowATurn }
{}

/// There is room exactly until the store is full.
pub fn room_ends_where_full()
    ensures turtles { RoomEndsWhereFull }
    ensures links { LinkRoomEndsWhereFull }
{}

/// Links are appended under the next serials, with the ends that the way says, and nothing else is changed.
pub fn links_append()
    ensures append { LinksAppend }
    ensures lower_first { LowerEndIsFirst }
{}

/// Making the same links again makes none.
pub fn made_twice_makes_none()
    ensures { MadeTwiceMakesNone }
{}

/// Turtles and links that lived before others were made live on as they were, however many calls make others.
pub fn who_lived_lives_on()
    ensures turtles { TurtlesLiveOn }
    ensures links { LinksLiveOn }
    ensures goes_on { KeepingGoesOn }
{}
