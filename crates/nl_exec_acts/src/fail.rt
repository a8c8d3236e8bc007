//! Why a word has no answer.
use nl_agentset_query::QueryFail;
use nl_fixed::{NoMemory, NumFault};
use nl_listops::ListFail;
use thiserror::Error;

/// What went wrong while a text ran. Each stands at a word, or at a variable that is set.
#[derive(Clone, Copy, Debug, PartialEq, Eq, Error)]
pub enum ErrorKind {
    /// A value is of another kind than the word takes.
    #[error("WrongType")]
    WrongType,
    /// A number on the way to the answer is out of range.
    #[error("Overflow")]
    Overflow,
    #[error("ZeroDivide")]
    ZeroDivide,
    /// The word has no meaning at these inputs.
    #[error("Domain")]
    Domain,
    /// An agent is wanted, and there is none.
    #[error("NoAgent")]
    NoAgent,
    /// The agent's breed doesn't own the variable.
    #[error("NoVariable")]
    NoVariable,
    /// An agent of this kind may not run the word.
    #[error("WrongContext")]
    WrongContext,
    /// A place lies outside of the list or text.
    #[error("OutOfList")]
    OutOfList,
    /// A point lies outside of the world, on an axis that doesn't wrap.
    #[error("OutOfWorld")]
    OutOfWorld,
    /// Two points between which a direction is asked are one.
    #[error("SamePoint")]
    SamePoint,
    /// The clock was asked before `reset-ticks`.
    #[error("TicksOff")]
    TicksOff,
    /// There are fewer agents, items or numbers than the word takes.
    #[error("TooFew")]
    TooFew,
    /// A link may not be made, or its breed may not be set.
    #[error("LinkFault")]
    LinkFault,
    /// A value passes the limits on values.
    #[error("TooLarge")]
    TooLarge,
    /// As many agents live as may.
    #[error("TooMany")]
    TooMany,
    /// A node of a text is evaluated too deep.
    #[error("TooNested")]
    TooNested,
    /// A reporter procedure ended without `report`.
    #[error("NoReport")]
    NoReport,
}

/// Why an act has no answer: an error of the text, or want of memory, which is none.
#[derive(Clone, Copy, Debug, PartialEq, Eq, Error)]
pub enum ActFail {
    #[error("{0}")]
    Error(ErrorKind),
    #[error("out of memory")]
    NoMemory,
}

impl From<ErrorKind> for ActFail {
    ghost use Rattle.std.specs.Prelude.{◌≡◌};
    ghost use Rattle.nl_exec_acts.specs.declared.fail.ActFail.TheVariants.{Error};

    ghost from_gives = { λ error e. e ≡ Error error };

    fn from(error: ErrorKind) -> ActFail {
        ActFail::Error(error)
    }
}

impl From<NoMemory> for ActFail {
    ghost use Rattle.std.specs.Prelude.{◌≡◌};
    ghost use Rattle.nl_exec_acts.specs.declared.fail.ActFail.TheVariants.{NoMemory};

    ghost from_gives = { λ _ e. e ≡ NoMemory };

    fn from(_refused: NoMemory) -> ActFail {
        ActFail::NoMemory
    }
}

impl From<NumFault> for ErrorKind {
    ghost use Rattle.std.specs.Prelude.{◌≡◌};
    ghost use Rattle.nl_exec_acts.specs.Fails.{error_of_number};

    ghost from_gives = { λ fault e. e ≡ error_of_number fault };

    fn from(fault: NumFault) -> ErrorKind {
        match fault {
            NumFault::Overflow => ErrorKind::Overflow,
            NumFault::ZeroDivide => ErrorKind::ZeroDivide,
            NumFault::Domain => ErrorKind::Domain,
        }
    }
}

impl From<QueryFail> for ErrorKind {
    ghost use Rattle.std.specs.Prelude.{◌≡◌};
    ghost use Rattle.nl_exec_acts.specs.Fails.{error_of_query};

    ghost from_gives = { λ fail e. e ≡ error_of_query fail };

    fn from(fail: QueryFail) -> ErrorKind {
        match fail {
            QueryFail::WrongType => ErrorKind::WrongType,
            QueryFail::NoAgent => ErrorKind::NoAgent,
            QueryFail::OutOfWorld => ErrorKind::OutOfWorld,
            QueryFail::SamePoint => ErrorKind::SamePoint,
            QueryFail::Overflow => ErrorKind::Overflow,
            QueryFail::Domain => ErrorKind::Domain,
            QueryFail::TooFew => ErrorKind::TooFew,
            QueryFail::NoMemory => ErrorKind::TooLarge,
        }
    }
}

impl From<ListFail> for ActFail {
    ghost use Rattle.std.specs.Prelude.{◌≡◌};
    ghost use Rattle.nl_exec_acts.specs.Fails.{fail_of_list};

    ghost from_gives = { λ fail e. e ≡ fail_of_list fail };

    fn from(fail: ListFail) -> ActFail {
        match fail {
            ListFail::WrongType => ActFail::Error(ErrorKind::WrongType),
            ListFail::OutOfList => ActFail::Error(ErrorKind::OutOfList),
            ListFail::Overflow => ActFail::Error(ErrorKind::Overflow),
            ListFail::ZeroDivide => ActFail::Error(ErrorKind::ZeroDivide),
            ListFail::Domain => ActFail::Error(ErrorKind::Domain),
            ListFail::TooFew => ActFail::Error(ErrorKind::TooFew),
            ListFail::TooLarge => ActFail::Error(ErrorKind::TooLarge),
            ListFail::NoMemory => ActFail::NoMemory,
        }
    }
}

impl From<QueryFail> for ActFail {
    ghost use Rattle.std.specs.Prelude.{◌≡◌};
    ghost use Rattle.nl_exec_acts.specs.Fails.{fail_of_query};

    ghost from_gives = { λ fail e. e ≡ fail_of_query fail };

    fn from(fail: QueryFail) -> ActFail {
        match fail {
            QueryFail::NoMemory => ActFail::NoMemory,
            _ => ActFail::Error(ErrorKind::from(fail)),
        }
    }
}
