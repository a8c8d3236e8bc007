//! What is left to do above a node.
ghost use Rattle.std.specs.Prelude.{◌≡◌, IfOk, length, vec_len};

use crate::boxed::{BoxedAnswers, BoxedRounds, BoxedSite, BoxedTurns};
use crate::exits::Exit;
use crate::held::HeldValue;
use crate::locals::Locals;
use crate::turns::Gathered;
use crate::{Arrow, Making, Over};
use nl_fixed::{NoMemory, Num};
use nl_value::Items;
use nl_words::Kinds;
use std::alloc::Global;

/// The rest of a node's case, once its child that runs has ended. Nodes are places in the code.
#[derive(Drop)]
pub enum Frame {
    /// A part of a list, or an input of a call or an act: `at` is the next one, and `made` are the values before it.
    Part {
        node: u32,
        at: u32,
        made: Items,
    },
    /// What stands in parentheses, or in a block that was chosen.
    Inside {
        node: u32,
    },
    /// What a minus sign stands before.
    Negated {
        node: u32,
    },
    /// A statement: `at` is the next one, and `kept` how many locals are known around the block.
    Statement {
        node: u32,
        at: u32,
        kept: usize,
    },
    /// A statement of a lone text: `at` is the next one, and `stopped` whether one before it was a call that `stop` ended.
    TextStatement {
        node: u32,
        at: u32,
        stopped: bool,
    },
    /// The value of `let`, and the number of the local's name.
    LetValue {
        node: u32,
        id: u32,
    },
    /// The value of `set`, and the node of the variable.
    SetValue {
        node: u32,
        variable: u32,
    },
    /// The value of `report`.
    ReportValue {
        node: u32,
    },
    /// The left side of `and`.
    AndLeft {
        node: u32,
    },
    /// The left side of `or`.
    OrLeft {
        node: u32,
    },
    /// The right side of `and` or `or`.
    RightSide {
        node: u32,
    },
    /// The test of `if`.
    IfTest {
        node: u32,
    },
    /// A test of `ifelse` or `ifelse-value`, the index of its block, and whether the word has a value.
    EitherTest {
        node: u32,
        at: u32,
        valued: bool,
    },
    /// The number of `repeat`.
    RepeatCount {
        node: u32,
    },
    /// A turn of `repeat`, and how many come after it.
    RepeatTurn {
        node: u32,
        left: u64,
    },
    /// The test of `while`.
    WhileTest {
        node: u32,
    },
    /// A turn of `while`.
    WhileTurn {
        node: u32,
    },
    /// A turn of `loop`.
    LoopTurn {
        node: u32,
    },
    /// The distance of `forward`, or of `back`.
    Distance {
        node: u32,
        runs: Kinds,
        back: bool,
    },
    /// A unit for a step of this length: so many whole steps and this rest come after it, in the direction of `way`.
    Step {
        node: u32,
        turtle: u64,
        by: Num,
        left: u64,
        rest: u64,
        way: Num,
    },
    /// The body of a procedure: what its caller has as locals, and where it runs.
    Body {
        node: u32,
        reporter: bool,
        saved: Locals,
        site: BoxedSite,
    },
    /// Who is asked.
    AskWho {
        node: u32,
    },
    /// A turn of an ask, or of a birth's block: the block is the part at the index.
    Asked {
        node: u32,
        index: u32,
        turns: BoxedTurns,
    },
    /// The set whose members a word asks for values: the block is the part at the index.
    SetWho {
        node: u32,
        word: Over,
        index: u32,
    },
    /// How many extremes are asked for.
    SomeNumber {
        node: u32,
        word: Over,
        up: bool,
    },
    /// The set of which so many extremes are asked for.
    SomeSet {
        node: u32,
        word: Over,
        up: bool,
        number: HeldValue,
    },
    /// The agents of `of`.
    OfWho {
        node: u32,
    },
    /// A turn that has a value, with the answers before it, and what is made of them all.
    Answering {
        node: u32,
        index: u32,
        word: Over,
        member: u64,
        turns: BoxedTurns,
        made: BoxedAnswers,
        gathered: Gathered,
    },
    /// What a word takes that makes agents.
    MakingInput {
        node: u32,
        word: Making,
        breed: Option<u32>,
        runs: Kinds,
    },
    /// The share that `diffuse` gives away of the variable of a slot.
    Share {
        node: u32,
        runs: Kinds,
        slot: u32,
        four: bool,
    },
    /// An input of a word with an arrow block: `at` is the next part, and `made` are the values before it.
    ArrowInput {
        node: u32,
        word: Arrow,
        at: u32,
        made: Items,
    },
    /// A turn of an arrow block for which a unit was wanted: the block is the part at the index.
    RoundWanted {
        node: u32,
        index: u32,
        word: Arrow,
        rounds: BoxedRounds,
    },
    /// A turn of an arrow block, and how many locals there are around it.
    Round {
        node: u32,
        index: u32,
        word: Arrow,
        kept: usize,
        rounds: BoxedRounds,
    },
}

/// What a case does next.
#[derive(Drop)]
pub enum Next {
    /// It has ended.
    Answer(Exit),
    /// A child is evaluated, and then it goes on by the frame.
    Go(Frame, u32),
    /// The same, once a unit is spent.
    Want(Frame, u32),
    /// It goes on by the frame, once a unit is spent.
    Tick(Frame),
}

impl Frame {
    /// The same frame again.
    pub fn copy(&self, alloc: Global) -> Result<Frame, NoMemory>
        ensures { IfOk result (λ frame. frame ≡ self.now) }
    {
        Ok(match self {
            Frame::Part { node, at, made } => Frame::Part {
                node: *node,
                at: *at,
                made: made.copy(alloc)?,
            },
            Frame::Body {
                node,
                reporter,
                saved,
                site,
            } => Frame::Body {
                node: *node,
                reporter: *reporter,
                saved: saved.copy(alloc)?,
                site: site.copy(alloc)?,
            },
            Frame::Inside { node } => Frame::Inside { node: *node },
            Frame::Negated { node } => Frame::Negated { node: *node },
            Frame::Statement { node, at, kept } => Frame::Statement {
                node: *node,
                at: *at,
                kept: *kept,
            },
            Frame::TextStatement { node, at, stopped } => Frame::TextStatement {
                node: *node,
                at: *at,
                stopped: *stopped,
            },
            Frame::LetValue { node, id } => Frame::LetValue {
                node: *node,
                id: *id,
            },
            Frame::SetValue { node, variable } => Frame::SetValue {
                node: *node,
                variable: *variable,
            },
            Frame::ReportValue { node } => Frame::ReportValue { node: *node },
            Frame::AndLeft { node } => Frame::AndLeft { node: *node },
            Frame::OrLeft { node } => Frame::OrLeft { node: *node },
            Frame::RightSide { node } => Frame::RightSide { node: *node },
            Frame::IfTest { node } => Frame::IfTest { node: *node },
            Frame::EitherTest { node, at, valued } => Frame::EitherTest {
                node: *node,
                at: *at,
                valued: *valued,
            },
            Frame::RepeatCount { node } => Frame::RepeatCount { node: *node },
            Frame::RepeatTurn { node, left } => Frame::RepeatTurn {
                node: *node,
                left: *left,
            },
            Frame::WhileTest { node } => Frame::WhileTest { node: *node },
            Frame::WhileTurn { node } => Frame::WhileTurn { node: *node },
            Frame::LoopTurn { node } => Frame::LoopTurn { node: *node },
            Frame::Distance { node, runs, back } => Frame::Distance {
                node: *node,
                runs: *runs,
                back: *back,
            },
            Frame::Step {
                node,
                turtle,
                by,
                left,
                rest,
                way,
            } => Frame::Step {
                node: *node,
                turtle: *turtle,
                by: *by,
                left: *left,
                rest: *rest,
                way: *way,
            },
            Frame::AskWho { node } => Frame::AskWho { node: *node },
            Frame::Asked { node, index, turns } => Frame::Asked {
                node: *node,
                index: *index,
                turns: turns.copy(alloc)?,
            },
            Frame::SetWho { node, word, index } => Frame::SetWho {
                node: *node,
                word: *word,
                index: *index,
            },
            Frame::SomeNumber { node, word, up } => Frame::SomeNumber {
                node: *node,
                word: *word,
                up: *up,
            },
            Frame::SomeSet {
                node,
                word,
                up,
                number,
            } => Frame::SomeSet {
                node: *node,
                word: *word,
                up: *up,
                number: number.copy(alloc)?,
            },
            Frame::OfWho { node } => Frame::OfWho { node: *node },
            Frame::Answering {
                node,
                index,
                word,
                member,
                turns,
                made,
                gathered,
            } => Frame::Answering {
                node: *node,
                index: *index,
                word: *word,
                member: *member,
                turns: turns.copy(alloc)?,
                made: made.copy(alloc)?,
                gathered: *gathered,
            },
            Frame::MakingInput {
                node,
                word,
                breed,
                runs,
            } => Frame::MakingInput {
                node: *node,
                word: *word,
                breed: *breed,
                runs: *runs,
            },
            Frame::Share {
                node,
                runs,
                slot,
                four,
            } => Frame::Share {
                node: *node,
                runs: *runs,
                slot: *slot,
                four: *four,
            },
            Frame::ArrowInput {
                node,
                word,
                at,
                made,
            } => Frame::ArrowInput {
                node: *node,
                word: *word,
                at: *at,
                made: made.copy(alloc)?,
            },
            Frame::RoundWanted {
                node,
                index,
                word,
                rounds,
            } => Frame::RoundWanted {
                node: *node,
                index: *index,
                word: *word,
                rounds: rounds.copy(alloc)?,
            },
            Frame::Round {
                node,
                index,
                word,
                kept,
                rounds,
            } => Frame::Round {
                node: *node,
                index: *index,
                word: *word,
                kept: *kept,
                rounds: rounds.copy(alloc)?,
            },
        })
    }
}

/// The same frames again.
pub fn copy_frames(alloc: Global, frames: &[Frame]) -> Result<Vec<Frame>, NoMemory>
    ensures items { IfOk result (λ copied. copied.items ≡ frames.now) }
    ensures len { IfOk result (λ copied. vec_len copied ≡ length frames.now) }
{
    let mut copied = Vec::new(alloc);
    for frame in frames {
        copied.push(frame.copy(alloc)?)?;
    }
    Ok(copied)
}
