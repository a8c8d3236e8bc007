//! Which act a code is.
//!
//! Acts that take the same inputs in the same way are together in one enum. A second spelling is the same act, and a word that a breed
//! makes has the code of the word without the breed.
ghost use Rattle.std.specs.Prelude.{◌≡◌};
ghost use Rattle.nl_exec_acts.specs.Words.{whom_word, move_word, look_word, clock_word, clear_word, spot_word, bound_word, run_word, idle_word, answering_word, act_word};

use nl_agentset_query::{QueryWord, query_word};
use nl_listops::{ValueWord, value_word};
use nl_words::codes;

/// Words of values that take a set too.
#[derive(Clone, Copy)]
pub enum SetWord {
    /// `sort`
    Sort,
    /// `member?`
    Member,
}

/// Agents that the caller has from who runs and who asked.
#[derive(Clone, Copy)]
pub enum Whom {
    /// `self`
    Caller,
    /// `myself`
    Asker,
    /// `other-end`
    OtherEnd,
}

/// Where a turtle goes, and where it looks.
#[derive(Clone, Copy)]
pub enum Move {
    Jump,
    SetXy,
    Home,
    MoveTo,
    Face,
    FaceXy,
    Right,
    Left,
}

/// What is set of how an agent is drawn.
#[derive(Clone, Copy)]
pub enum Look {
    Hide,
    Show,
    PenUp,
    PenDown,
    PenErase,
}

/// The clock of the world.
#[derive(Clone, Copy)]
pub enum Clock {
    /// `reset-ticks`
    Reset,
    /// `clear-ticks`
    Clear,
    /// `tick`
    Advance,
    /// `tick-advance`
    AdvanceBy,
    /// `ticks`
    Ticks,
}

/// What becomes of agents at a clear.
#[derive(Clone, Copy)]
pub enum Clear {
    Turtles,
    Links,
    Patches,
}

/// Random coordinates.
#[derive(Clone, Copy)]
pub enum Spot {
    Pxcor,
    Pycor,
    Xcor,
    Ycor,
}

/// The bounds of the world.
#[derive(Clone, Copy)]
pub enum Bound {
    MinPxcor,
    MaxPxcor,
    MinPycor,
    MaxPycor,
    Width,
    Height,
}

/// What a run is.
#[derive(Clone, Copy)]
pub enum OfRun {
    Number,
    Experiment,
}

/// What a word without a block does at once, when its inputs are there.
#[derive(Clone, Copy)]
pub enum Act {
    /// A word of values.
    Value(ValueWord),
    /// A query of agents.
    Query(QueryWord),
    Whom(Whom),
    /// Whether the input is a living link with a direction, or without one.
    IsLink { directed: bool },
    Move(Move),
    Look(Look),
    Clock(Clock),
    Clear(Clear),
    /// `random-seed`
    Seed,
    Spot(Spot),
    Bound(Bound),
    OfRun(OfRun),
    /// A word of what isn't there: pictures, plots and output.
    Idle,
}

/// Whose agents these are.
fn whom_word(code: u16) -> Option<Act>
    ensures { result ≡ whom_word code }
{
    match code {
        codes::SELF => Some(Act::Whom(Whom::Caller)),
        codes::MYSELF => Some(Act::Whom(Whom::Asker)),
        codes::OTHER_END => Some(Act::Whom(Whom::OtherEnd)),
        codes::IS_DIRECTED_LINK => Some(Act::IsLink { directed: true }),
        codes::IS_UNDIRECTED_LINK => Some(Act::IsLink { directed: false }),
        _ => None,
    }
}

/// Motion.
fn move_word(code: u16) -> Option<Act>
    ensures { result ≡ move_word code }
{
    match code {
        codes::JUMP => Some(Act::Move(Move::Jump)),
        codes::SETXY => Some(Act::Move(Move::SetXy)),
        codes::HOME => Some(Act::Move(Move::Home)),
        codes::MOVE_TO => Some(Act::Move(Move::MoveTo)),
        codes::FACE => Some(Act::Move(Move::Face)),
        codes::FACEXY => Some(Act::Move(Move::FaceXy)),
        codes::RIGHT => Some(Act::Move(Move::Right)),
        codes::RT => Some(Act::Move(Move::Right)),
        codes::LEFT => Some(Act::Move(Move::Left)),
        codes::LT => Some(Act::Move(Move::Left)),
        _ => None,
    }
}

/// How agents are drawn.
fn look_word(code: u16) -> Option<Act>
    ensures { result ≡ look_word code }
{
    match code {
        codes::HIDE_TURTLE => Some(Act::Look(Look::Hide)),
        codes::HT => Some(Act::Look(Look::Hide)),
        codes::HIDE_LINK => Some(Act::Look(Look::Hide)),
        codes::SHOW_TURTLE => Some(Act::Look(Look::Show)),
        codes::ST => Some(Act::Look(Look::Show)),
        codes::SHOW_LINK => Some(Act::Look(Look::Show)),
        codes::PEN_UP => Some(Act::Look(Look::PenUp)),
        codes::PU => Some(Act::Look(Look::PenUp)),
        codes::PEN_DOWN => Some(Act::Look(Look::PenDown)),
        codes::PD => Some(Act::Look(Look::PenDown)),
        codes::PEN_ERASE => Some(Act::Look(Look::PenErase)),
        codes::PE => Some(Act::Look(Look::PenErase)),
        _ => None,
    }
}

/// The clock, and the seed of the stream.
fn clock_word(code: u16) -> Option<Act>
    ensures { result ≡ clock_word code }
{
    match code {
        codes::RESET_TICKS => Some(Act::Clock(Clock::Reset)),
        codes::CLEAR_TICKS => Some(Act::Clock(Clock::Clear)),
        codes::TICK => Some(Act::Clock(Clock::Advance)),
        codes::TICK_ADVANCE => Some(Act::Clock(Clock::AdvanceBy)),
        codes::TICKS => Some(Act::Clock(Clock::Ticks)),
        codes::RANDOM_SEED => Some(Act::Seed),
        _ => None,
    }
}

/// Clears that touch no global variable.
fn clear_word(code: u16) -> Option<Act>
    ensures { result ≡ clear_word code }
{
    match code {
        codes::CLEAR_TURTLES => Some(Act::Clear(Clear::Turtles)),
        codes::CT => Some(Act::Clear(Clear::Turtles)),
        codes::CLEAR_LINKS => Some(Act::Clear(Clear::Links)),
        codes::CLEAR_PATCHES => Some(Act::Clear(Clear::Patches)),
        codes::CP => Some(Act::Clear(Clear::Patches)),
        _ => None,
    }
}

/// Random coordinates.
fn spot_word(code: u16) -> Option<Act>
    ensures { result ≡ spot_word code }
{
    match code {
        codes::RANDOM_PXCOR => Some(Act::Spot(Spot::Pxcor)),
        codes::RANDOM_PYCOR => Some(Act::Spot(Spot::Pycor)),
        codes::RANDOM_XCOR => Some(Act::Spot(Spot::Xcor)),
        codes::RANDOM_YCOR => Some(Act::Spot(Spot::Ycor)),
        _ => None,
    }
}

/// The bounds of the world.
fn bound_word(code: u16) -> Option<Act>
    ensures { result ≡ bound_word code }
{
    match code {
        codes::MIN_PXCOR => Some(Act::Bound(Bound::MinPxcor)),
        codes::MAX_PXCOR => Some(Act::Bound(Bound::MaxPxcor)),
        codes::MIN_PYCOR => Some(Act::Bound(Bound::MinPycor)),
        codes::MAX_PYCOR => Some(Act::Bound(Bound::MaxPycor)),
        codes::WORLD_WIDTH => Some(Act::Bound(Bound::Width)),
        codes::WORLD_HEIGHT => Some(Act::Bound(Bound::Height)),
        _ => None,
    }
}

/// What a run is.
fn run_word(code: u16) -> Option<Act>
    ensures { result ≡ run_word code }
{
    match code {
        codes::BEHAVIORSPACE_RUN_NUMBER => Some(Act::OfRun(OfRun::Number)),
        codes::BEHAVIORSPACE_EXPERIMENT_NAME => Some(Act::OfRun(OfRun::Experiment)),
        _ => None,
    }
}

/// Words without effect.
fn idle_word(code: u16) -> Option<Act>
    ensures { result ≡ idle_word code }
{
    match code {
        codes::PRINT
        | codes::SHOW
        | codes::TYPE
        | codes::WRITE
        | codes::OUTPUT_PRINT
        | codes::OUTPUT_SHOW
        | codes::OUTPUT_TYPE
        | codes::OUTPUT_WRITE
        | codes::CLEAR_OUTPUT
        | codes::DISPLAY
        | codes::NO_DISPLAY
        | codes::WAIT
        | codes::PLOT
        | codes::PLOTXY
        | codes::HISTOGRAM
        | codes::SET_CURRENT_PLOT
        | codes::SET_CURRENT_PLOT_PEN
        | codes::CREATE_TEMPORARY_PLOT_PEN
        | codes::SET_PLOT_PEN_COLOR
        | codes::SET_PLOT_PEN_MODE
        | codes::SET_PLOT_PEN_INTERVAL
        | codes::SET_PLOT_X_RANGE
        | codes::SET_PLOT_Y_RANGE
        | codes::PLOT_PEN_UP
        | codes::PLOT_PEN_DOWN
        | codes::PLOT_PEN_RESET
        | codes::CLEAR_PLOT
        | codes::CLEAR_ALL_PLOTS
        | codes::SETUP_PLOTS
        | codes::UPDATE_PLOTS
        | codes::AUTO_PLOT_ON
        | codes::AUTO_PLOT_OFF
        | codes::RESET_PERSPECTIVE
        | codes::RP
        | codes::SET_DEFAULT_SHAPE
        | codes::CLEAR_DRAWING
        | codes::CD
        | codes::WATCH
        | codes::FOLLOW
        | codes::RIDE
        | codes::WATCH_ME
        | codes::FOLLOW_ME
        | codes::RIDE_ME
        | codes::STAMP
        | codes::STAMP_ERASE => Some(Act::Idle),
        _ => None,
    }
}

/// The words of values, then the queries.
fn answering_word(code: u16) -> Option<Act>
    ensures { result ≡ answering_word code }
{
    if let Some(word) = value_word(code) {
        return Some(Act::Value(word));
    }
    match query_word(code) {
        Some(word) => Some(Act::Query(word)),
        None => None,
    }
}

/// The act that has this code, if one has.
pub fn act_word(code: u16) -> Option<Act>
    ensures { result ≡ act_word code }
{
    answering_word(code)
        .or(whom_word(code))
        .or(move_word(code))
        .or(look_word(code))
        .or(clock_word(code))
        .or(clear_word(code))
        .or(spot_word(code))
        .or(bound_word(code))
        .or(run_word(code))
        .or(idle_word(code))
}
