//! Trees of texts.
ghost use Rattle.std.specs.Prelude.{◌≡◌, ℕ, ◌+◌, ◌<◌, ◌↔◌, [], ◌∷◌, ◌++◌, OnOk, OnErr, IfSome, IsSome, MatchOption, map, length, drop, slice_get};
ghost use Rattle.std.specs.Option.{option_copied, option_map};
ghost use Rattle.nl_tree.specs.Tree.{label, span, parts, size};
ghost use Rattle.nl_tree.specs.Views.{plain};

use nl_fixed::{Names, NoMemory, Num, Span, Str};
use std::alloc::Global;
use std::marker::Model;

/// What a node of a tree is.
#[derive(Drop)]
pub enum Label {
    /// A number as it is written.
    Number(Num),
    /// A text with its escapes resolved.
    Text(Str),
    /// A literal list; its parts are the items.
    List,
    /// A word, in lower case, with its inputs as parts: a call, an operator, a constant or a variable. `let` and `set` have the name as
    /// first part, and `of` its block.
    Named(Str),
    /// The negative of its one part.
    Negate,
    /// A pair of parentheses; its one part is what they hold.
    Paren,
    /// A block of commands, or a whole body of them; its parts are the statements.
    Commands,
    /// A block of one expression.
    Reporter,
    /// An arrow block: a block that is run or evaluated in turns, with the names that its head gives to the values of a turn, in lower case.
    /// Its one part is a block of commands, or an expression.
    Arrow(Names),
}

/// A tree: what its node is, where that stands in the text, and its parts in order.
///
/// The span is that of a word for a node of a word, of `-` for a negation, and of the literal for a number or a text; else that of the
/// opening bracket. The commands in an arrow block have that block's span, and those of a whole body the span of their first token, or of
/// what ends them.
#[cycle(tree)]
#[derive(Drop)]
pub struct Tree {
    pub label: Label,
    pub span: Span,
    pub parts: Trees,
}

/// Trees, in order.
#[cycle(tree)]
#[derive(Drop)]
pub struct Trees {
    list: Vec<Tree>,
}

impl Model for Trees {
    ghost use Rattle.std.specs.Prelude.{List};
    ghost use Rattle.std.specs.Coded.{coded_list};
    ghost use Rattle.nl_tree.specs.Tree.{Node, list_size};
    ghost use Rattle.nl_tree.specs.inner.TreeCode.{node_code};

    ghost Value = { List Node };

    ghost coded = { coded_list node_code };

    ghost use Rattle.std.specs.Prelude.{map};
    ghost use Rattle.nl_tree.specs.Views.{plain};

    ghost view = { λ trees. map plain trees.list.items };

    ghost size = { list_size };

    ghost use Rattle.std.proofs.Common.{arith};
    ghost use Rattle.nl_tree.specs.inner.TreeFalls.{falls};

    ghost size_decreases = { λ trees h. omega (arith, falls trees.list.items) };
}

impl Tree {
    /// What the node is.
    pub fn label(&self) -> &Label
        ensures { result.now ≡ label (plain self.now) }
    {
        &self.label
    }

    /// Where the node stands in its text.
    pub fn span(&self) -> Span
        ensures { result ≡ span (plain self.now) }
    {
        self.span
    }

    /// How many parts the node has.
    pub fn len(&self) -> usize
        ensures { result ≡ length (parts (plain self.now)) }
    {
        self.parts.len()
    }

    /// The part at a place, counted from 0.
    pub fn part(&self, at: usize) -> Option<&Tree>
        ensures value { option_map plain (option_copied result) ≡ slice_get (parts (plain self.now)) at }
        ensures rest { MatchOption result
            (drop at (parts (plain self.now)) ≡ [])
            (λ part. drop at (parts (plain self.now))
            ≡ plain part.now ∷ drop (at + 1) (parts (plain self.now))) }
        ensures within { IsSome result ↔ (at < length (parts (plain self.now))) }
        ensures smaller { IfSome result (λ part. size (plain part.now) < size (plain self.now)) }
    {
        self.parts.get(at)
    }
}

impl Trees {
    /// No trees.
    pub fn empty(alloc: Global) -> Trees
        ensures { result ≡ [] }
    {
        Trees {
            list: Vec::new(alloc),
        }
    }

    /// The trees, in order.
    pub fn as_slice(&self) -> &[Tree]
        ensures { map plain result.now ≡ self.now }
    {
        self.list.as_slice()
    }

    /// How many trees there are.
    pub fn len(&self) -> usize
        ensures { result ≡ length self.now }
    {
        self.list.len()
    }

    /// The tree at a place, counted from 0.
    pub fn get(&self, at: usize) -> Option<&Tree>
        ensures value { option_map plain (option_copied result) ≡ slice_get self.now at }
        ensures rest { MatchOption result
            (drop at self.now ≡ [])
            (λ tree. drop at self.now ≡ plain tree.now ∷ drop (at + 1) self.now) }
        ensures within { IsSome result ↔ (at < length self.now) }
    {
        tree_at(self.list.as_slice(), at)
    }

    /// Appends a tree, or leaves the list as it was.
    pub fn push(&mut self, _alloc: Global, tree: Tree) -> Result<(), NoMemory>
        ensures ok { OnOk result (self.new ≡ self.old ++ plain tree ∷ []) }
        ensures err { OnErr result (self.new ≡ self.old) }
    {
        self.list.push(tree)?;
        Ok(())
    }
}

fn tree_at(trees: &[Tree], at: usize) -> Option<&Tree>
    ensures value { option_copied result ≡ slice_get trees.now at }
    ensures rest { MatchOption result
        (drop at trees.now ≡ [])
        (λ tree. drop at trees.now ≡ tree.now ∷ drop (at + 1) trees.now) }
    ensures within { IsSome result ↔ (at < length trees.now) }
{
    trees.get(at)
}
