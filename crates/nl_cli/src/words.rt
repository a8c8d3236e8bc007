//! The forms of the words.
ghost use Rattle.std.specs.Prelude.{◌≡◌, ◌≤◌, ◌<◌, true, IfSome};
ghost use Rattle.std.specs.Option.{option_map};
ghost use Rattle.nl_experiment.specs.Numbers.{AreDigits, number_of};
ghost use Rattle.nl_cli.specs.Words as spec;
ghost use Rattle.nl_cli.specs.Words.{IsRight, IsRightTask, command_in, paths_in, path_of, size_among, task_in};

use nl_outer::Args;

/// What a file is read for.
#[derive(Clone, Copy, Debug, PartialEq, Eq)]
pub enum Role {
    Model,
    Experiment,
}

/// The paths that a form names.
#[derive(Clone, Copy)]
pub struct Paths<'a> {
    pub model: &'a str,
    pub experiment: &'a str,
}

/// What is asked of a model and an experiment.
#[derive(Clone, Copy)]
pub enum Task<'a> {
    /// The whole table.
    Table,
    /// The rows of the run that these digits name.
    Rerun(&'a str),
    /// Whether they have no fault, and how many runs there are.
    Check,
}

/// What the words ask for.
#[derive(Clone, Copy)]
pub enum Command<'a> {
    /// A task over two files.
    Over(Paths<'a>, Task<'a>),
    /// The measure of a size.
    Bench(u64),
}

/// What the inputs of the measure are called.
pub const MEASURE: &str = "bench";

// The measure is made of a size from 1 on.
const MOST_SIZE: u64 = 1_000;

// Whether bytes are digits alone.
fn are_digits(word: &[u8]) -> bool
    ensures { result ≡ spec.are_digits word.now }
{
    word.iter().all(|byte| byte.is_ascii_digit())
}

// Whether a word is digits without a sign, and without a 0 before others.
fn is_number(word: &[u8]) -> bool
    ensures { result ≡ spec.is_number word.now }
{
    match word.split_first() {
        Some((digit, [])) => digit.is_ascii_digit(),
        Some((digit, _)) => are_digits(word) && *digit != b'0',
        None => false,
    }
}

// The size that digits are, where the measure may have it.
#[tactic(auto, using(crate::proofs::Sizes::beyond))]
fn size_among(word: &[u8]) -> Option<u64>
    requires { AreDigits word.now }
    ensures { result ≡ size_among (number_of word.now) }
{
    let mut size = 0u64;
    'digits: for digit in word {
        if size > MOST_SIZE {
            return None;
        }
        size = 10 * size + u64::from(*digit - b'0');
    }
    if 1 <= size && size <= MOST_SIZE {
        Some(size)
    } else {
        None
    }
}

// The measure of the size that a word is.
fn bench_of<'a>(word: &'a str) -> Option<Command<'a>>
    ensures command { option_map command_in result ≡ spec.bench_of word.now }
    ensures right { IfSome result (λ command. IsRight (command_in command)) }
{
    if !is_number(word.as_bytes()) {
        return None;
    }
    match size_among(word.as_bytes()) {
        Some(size) => Some(Command::Bench(size)),
        None => None,
    }
}

// A command that takes two files and nothing else.
fn task_named<'a>(command: &'a str) -> Option<Task<'a>>
    ensures task { option_map task_in result ≡ spec.task_named command.now }
    ensures right { IfSome result (λ task. IsRightTask (task_in task)) }
{
    match command {
        "table" => Some(Task::Table),
        "check" => Some(Task::Check),
        _ => None,
    }
}

// One that takes a number behind them.
fn task_numbered<'a>(command: &'a str, number: &'a str) -> Option<Task<'a>>
    ensures task { option_map task_in result ≡ spec.task_numbered command.now number.now }
    ensures right { IfSome result (λ task. IsRightTask (task_in task)) }
{
    if command == "rerun" && is_number(number.as_bytes()) {
        Some(Task::Rerun(number))
    } else {
        None
    }
}

/// What the words ask for, if they are a form.
pub fn command_of(words: &Args) -> Option<Command<'_>>
    ensures command { option_map command_in result ≡ spec.command_of words.now }
    ensures right { IfSome result (λ command. IsRight (command_in command)) }
{
    let command = words.word(0)?;
    let first = words.word(1)?;
    let Some(experiment) = words.word(2) else {
        return if command == "bench" {
            bench_of(first)
        } else {
            None
        };
    };
    let paths = Paths {
        model: first,
        experiment,
    };
    let task = match words.word(3) {
        None => task_named(command)?,
        Some(number) => {
            if words.len() != 4 {
                return None;
            }
            task_numbered(command, number)?
        }
    };
    Some(Command::Over(paths, task))
}

/// What the inputs are called in lines and tables.
pub fn paths_for<'a>(command: &Command<'a>) -> Paths<'a>
    ensures { paths_in result ≡ spec.paths_for (command_in command.now) }
{
    match command {
        Command::Over(paths, _) => *paths,
        Command::Bench(_) => Paths {
            model: MEASURE,
            experiment: MEASURE,
        },
    }
}

/// The path that plays a role.
pub fn path_for<'a>(paths: &Paths<'a>, role: Role) -> &'a str
    ensures { result.now ≡ path_of (paths_in paths.now) role }
{
    match role {
        Role::Model => paths.model,
        Role::Experiment => paths.experiment,
    }
}
