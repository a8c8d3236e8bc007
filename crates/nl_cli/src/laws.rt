//! What the definition of answers means. These functions do nothing: the contract of each is a law.
ghost use Rattle.nl_cli.specs.Laws.{AnswersAreAlike, AnswersAreUnique, ChecksTellOfTables, TablesAreInParts, TablesAreLines, WordsHaveAnswers};
ghost use Rattle.nl_cli.specs.SettingLaws.{JobsSetTheirNames};

/// A list of words has one status over a folder, and one answer at most where nothing is put.
pub fn answers_are_alike()
    ensures { AnswersAreAlike }
{}

/// A list of words has one answer at most over a folder.
pub fn answers_are_unique()
    ensures { AnswersAreUnique }
{}

/// A list of words has an answer over each folder.
pub fn words_have_answers()
    ensures { WordsHaveAnswers }
{}

/// A table is its header and the rows that `rerun` puts for each of its runs, one after another. So its runs may be spread over machines.
pub fn tables_are_in_parts()
    ensures { TablesAreInParts }
{}

/// `check` is Done exactly where `table` is.
pub fn checks_tell_of_tables()
    ensures { ChecksTellOfTables }
{}

/// A table is its lines.
pub fn tables_are_lines()
    ensures { TablesAreLines }
{}

/// Whatever a run of a job sets is a global variable of its program, or belongs to the run itself, as a bound of its world or its seed. So no
/// setting is passed over.
pub fn jobs_set_their_names()
    ensures { JobsSetTheirNames }
{}
