//! Which construct a built-in word is.
//!
//! A second spelling is the same word, and a word that a breed makes has the code of the word without the breed.
ghost use Rattle.std.specs.Prelude.{◌≡◌};
ghost use Rattle.nl_exec_meaning.specs.Words.{apart_word, arrow_word, control_word, over_word, making_word, spread_word, built_word};

use nl_birth::Way;
use nl_exec_acts::Act;
use nl_exec_acts::words::act_word;
use nl_words::codes;

/// Words that evaluate their parts in a way of their own, all for the agent that runs them.
#[derive(Clone, Copy, Debug, PartialEq, Eq)]
pub enum Control {
    And,
    Or,
    Let,
    Set,
    Stop,
    Report,
    Die,
    If,
    IfElse,
    IfElseValue,
    Repeat,
    While,
    Loop,
    Forward,
    Back,
    /// `clear-globals`
    ClearGlobals,
    /// `clear-all`
    ClearAll,
}

/// Words that have agents of a set run a block.
#[derive(Clone, Copy, Debug, PartialEq, Eq)]
pub enum Over {
    Ask,
    Of,
    With,
    All,
    WithMax,
    WithMin,
    MaxOneOf,
    MinOneOf,
    MaxNOf,
    MinNOf,
    SortOn,
}

/// Words whose block the same agent runs or evaluates in turns.
#[derive(Clone, Copy, Debug, PartialEq, Eq)]
pub enum Arrow {
    ForEach,
    Map,
    Filter,
    Reduce,
    SortBy,
    NValues,
}

/// Words that make agents, which may run a block.
#[derive(Clone, Copy, Debug, PartialEq, Eq)]
pub enum Making {
    /// `create-turtles`, and `create-ordered-turtles`.
    Create { ordered: bool },
    Hatch,
    Sprout,
    /// Links with one turtle, or with those of a set.
    Link { way: Way, one: bool },
}

/// Words that read or write a variable of patches.
#[derive(Clone, Copy, Debug, PartialEq, Eq)]
pub enum Spread {
    /// `diffuse`, and `diffuse4`.
    Diffuse { four: bool },
    /// `uphill`, `downhill` and their forms over four neighbors.
    Climb { up: bool, four: bool },
}

/// What a built-in word is that is no variable and no color.
#[derive(Clone, Copy)]
pub enum Built {
    Control(Control),
    Over(Over),
    Arrow(Arrow),
    Making(Making),
    Spread(Spread),
    Act(Act),
}

/// Variables of agents that are kept under no slot: what an agent is, and where it stands.
#[derive(Clone, Copy, Debug, PartialEq, Eq)]
pub enum Apart {
    Who,
    Xcor,
    Ycor,
    Pxcor,
    Pycor,
    Breed,
    End1,
    End2,
}

/// Variables that are kept under no slot.
pub fn apart_word(code: u16) -> Option<Apart>
    ensures { result ≡ apart_word code }
{
    match code {
        codes::WHO => Some(Apart::Who),
        codes::XCOR => Some(Apart::Xcor),
        codes::YCOR => Some(Apart::Ycor),
        codes::PXCOR => Some(Apart::Pxcor),
        codes::PYCOR => Some(Apart::Pycor),
        codes::BREED => Some(Apart::Breed),
        codes::END1 => Some(Apart::End1),
        codes::END2 => Some(Apart::End2),
        _ => None,
    }
}

/// Words with ways of their own.
fn control_word(code: u16) -> Option<Control>
    ensures { result ≡ control_word code }
{
    match code {
        codes::AND => Some(Control::And),
        codes::OR => Some(Control::Or),
        codes::LET => Some(Control::Let),
        codes::SET => Some(Control::Set),
        codes::STOP => Some(Control::Stop),
        codes::REPORT => Some(Control::Report),
        codes::DIE => Some(Control::Die),
        codes::IF => Some(Control::If),
        codes::IFELSE => Some(Control::IfElse),
        codes::IFELSE_VALUE => Some(Control::IfElseValue),
        codes::REPEAT => Some(Control::Repeat),
        codes::WHILE => Some(Control::While),
        codes::LOOP => Some(Control::Loop),
        codes::FORWARD => Some(Control::Forward),
        codes::FD => Some(Control::Forward),
        codes::BACK => Some(Control::Back),
        codes::BK => Some(Control::Back),
        codes::CLEAR_GLOBALS => Some(Control::ClearGlobals),
        codes::CLEAR_ALL => Some(Control::ClearAll),
        codes::CA => Some(Control::ClearAll),
        _ => None,
    }
}

/// Words that have agents of a set run a block.
fn over_word(code: u16) -> Option<Over>
    ensures { result ≡ over_word code }
{
    match code {
        codes::ASK => Some(Over::Ask),
        codes::OF => Some(Over::Of),
        codes::WITH => Some(Over::With),
        codes::ALL => Some(Over::All),
        codes::WITH_MAX => Some(Over::WithMax),
        codes::WITH_MIN => Some(Over::WithMin),
        codes::MAX_ONE_OF => Some(Over::MaxOneOf),
        codes::MIN_ONE_OF => Some(Over::MinOneOf),
        codes::MAX_N_OF => Some(Over::MaxNOf),
        codes::MIN_N_OF => Some(Over::MinNOf),
        codes::SORT_ON => Some(Over::SortOn),
        _ => None,
    }
}

/// Words whose block is run or evaluated in turns.
fn arrow_word(code: u16) -> Option<Arrow>
    ensures { result ≡ arrow_word code }
{
    match code {
        codes::FOREACH => Some(Arrow::ForEach),
        codes::MAP => Some(Arrow::Map),
        codes::FILTER => Some(Arrow::Filter),
        codes::REDUCE => Some(Arrow::Reduce),
        codes::SORT_BY => Some(Arrow::SortBy),
        codes::N_VALUES => Some(Arrow::NValues),
        _ => None,
    }
}

/// Words that make agents.
fn making_word(code: u16) -> Option<Making>
    ensures { result ≡ making_word code }
{
    match code {
        codes::CREATE_TURTLES => Some(Making::Create { ordered: false }),
        codes::CRT => Some(Making::Create { ordered: false }),
        codes::CREATE_ORDERED_TURTLES => Some(Making::Create { ordered: true }),
        codes::CRO => Some(Making::Create { ordered: true }),
        codes::HATCH => Some(Making::Hatch),
        codes::SPROUT => Some(Making::Sprout),
        codes::CREATE_LINK_WITH => Some(Making::Link {
            way: Way::With,
            one: true,
        }),
        codes::CREATE_LINKS_WITH => Some(Making::Link {
            way: Way::With,
            one: false,
        }),
        codes::CREATE_LINK_TO => Some(Making::Link {
            way: Way::To,
            one: true,
        }),
        codes::CREATE_LINKS_TO => Some(Making::Link {
            way: Way::To,
            one: false,
        }),
        codes::CREATE_LINK_FROM => Some(Making::Link {
            way: Way::From,
            one: true,
        }),
        codes::CREATE_LINKS_FROM => Some(Making::Link {
            way: Way::From,
            one: false,
        }),
        _ => None,
    }
}

/// Words of a variable of patches.
fn spread_word(code: u16) -> Option<Spread>
    ensures { result ≡ spread_word code }
{
    match code {
        codes::DIFFUSE => Some(Spread::Diffuse { four: false }),
        codes::DIFFUSE4 => Some(Spread::Diffuse { four: true }),
        codes::UPHILL => Some(Spread::Climb {
            up: true,
            four: false,
        }),
        codes::UPHILL4 => Some(Spread::Climb {
            up: true,
            four: true,
        }),
        codes::DOWNHILL => Some(Spread::Climb {
            up: false,
            four: false,
        }),
        codes::DOWNHILL4 => Some(Spread::Climb {
            up: false,
            four: true,
        }),
        _ => None,
    }
}

/// What the word of this code is, if it is one of the language's and no variable or color.
pub fn built_word(code: u16) -> Option<Built>
    ensures { result ≡ built_word code }
{
    if let Some(word) = control_word(code) {
        return Some(Built::Control(word));
    }
    if let Some(word) = over_word(code) {
        return Some(Built::Over(word));
    }
    if let Some(word) = arrow_word(code) {
        return Some(Built::Arrow(word));
    }
    if let Some(word) = making_word(code) {
        return Some(Built::Making(word));
    }
    if let Some(word) = spread_word(code) {
        return Some(Built::Spread(word));
    }
    match act_word(code) {
        Some(act) => Some(Built::Act(act)),
        None => None,
    }
}
