//! What the definitions of format 2 mean. These functions do nothing: the contract of each is a law.
ghost use Rattle.nl_experiment_migrated.specs.Laws.{DocumentsArePlain, KeysStandInSecond, TextsAreOne, TextsStay, TheSameIsSaid};

/// The document of each experiment is plain: no floating-point number and no date is in it, and it is three deep at most.
pub fn documents_are_plain()
    ensures { DocumentsArePlain }
{}

/// What stands at each key in format 2.
pub fn keys_stand_in_second()
    ensures { KeysStandInSecond }
{}

/// An experiment says in format 2 what it said.
pub fn the_same_is_said()
    ensures { TheSameIsSaid }
{}

/// The text in format 2 is its own.
pub fn texts_stay()
    ensures { TextsStay }
{}

/// An experiment has one text in format 2.
pub fn texts_are_one()
    ensures { TextsAreOne }
{}
