//! Trees beside their depth, so that no tree is walked to find it.
ghost use Rattle.std.specs.Prelude.{◌≡◌, IfOk, OnOk};
ghost use Rattle.nl_tree.specs.Tree.{node, none, depth, depths};
ghost use Rattle.nl_tree.specs.Views.{plain};
ghost use Rattle.nl_parse_reading.specs.inner.Limit.{capped, is_none, is_one};
ghost use Rattle.nl_tree.specs.Grammar.{one, two, leaf, and_last};

use nl_fixed::{NoMemory, Span};
use nl_tree::{Label, Tree, Trees};
use std::alloc::Global;
use std::marker::Model;

/// A depth that is too great, with all that are greater.
pub const TOO_DEEP: u32 = 201;

/// A tree, seen by contracts without where it lies in memory.
#[derive(Drop)]
pub struct Grown {
    tree: Tree,
    // the greatest depth of its parts, up to `TOO_DEEP`
    inner: u32,
}

impl Model for Grown {
    ghost use Rattle.std.specs.Prelude.{◌≡◌};
    ghost use Rattle.nl_tree.specs.Tree.{Node, nodes, depths};
    ghost use Rattle.nl_tree.specs.inner.TreeCode.{node_code};
    ghost use Rattle.nl_tree.specs.Views.{plain};
    ghost use Rattle.nl_parse_reading.specs.inner.Limit.{capped};

    ghost Value = { Node };

    ghost coded = { node_code };

    ghost view = { λ grown. plain grown.tree };

    ghost invariant = { λ grown. grown.inner ≡ capped (depths (nodes grown.tree.parts)) };
}

/// Trees in a row, the parts of a node that is still open.
#[derive(Drop)]
pub struct Grouped {
    trees: Trees,
    // the greatest depth among them, up to `TOO_DEEP`
    inner: u32,
}

impl Model for Grouped {
    ghost use Rattle.std.specs.Prelude.{◌≡◌};
    ghost use Rattle.nl_tree.specs.Tree.{Nodes, nodes, depths};
    ghost use Rattle.nl_parse_reading.specs.inner.NodesCode.{nodes_code};
    ghost use Rattle.nl_parse_reading.specs.inner.Limit.{capped};

    ghost Value = { Nodes };

    ghost coded = { nodes_code };

    ghost view = { λ grouped. nodes grouped.trees };

    ghost invariant = { λ grouped. grouped.inner ≡ capped (depths (nodes grouped.trees)) };
}

impl Grown {
    /// A tree without parts.
    pub fn leaf(alloc: Global, label: Label, span: Span) -> Grown
        ensures { result ≡ leaf label span }
    {
        Grouped::new(alloc).under(label, span)
    }

    /// A tree with one part.
    pub fn over(alloc: Global, label: Label, span: Span, part: Grown) -> Result<Grown, NoMemory>
        ensures { IfOk result (λ tree. tree ≡ node label span (one part)) }
    {
        let parts = Grouped::of(alloc, part)?;
        Ok(parts.under(label, span))
    }

    /// A tree with two parts.
    pub fn pair(
        alloc: Global,
        label: Label,
        span: Span,
        left: Grown,
        right: Grown,
    ) -> Result<Grown, NoMemory>
        ensures { IfOk result (λ tree. tree ≡ node label span (two left right)) }
    {
        let mut parts = Grouped::of(alloc, left)?;
        parts.add(alloc, right)?;
        Ok(parts.under(label, span))
    }

    /// The tree's depth, up to `TOO_DEEP`.
    pub fn depth(&self) -> u32
        ensures { result ≡ capped (depth self.now) }
    {
        (self.inner + 1).min(TOO_DEEP)
    }

    /// What the node is, where it stands, and its parts.
    pub fn taken_apart(self) -> (Label, Span, Grouped)
        ensures { self ≡ node result.0 result.1 result.2 }
    {
        let Grown { tree, inner } = self;
        let Tree { label, span, parts } = tree;
        (
            label,
            span,
            Grouped {
                trees: parts,
                inner,
            },
        )
    }

    /// The tree itself.
    pub fn into_tree(self) -> Tree
        ensures { plain result ≡ self }
    {
        let Grown { tree, .. } = self;
        tree
    }
}

impl Grouped {
    /// No trees.
    pub fn new(alloc: Global) -> Grouped
        ensures { result ≡ none }
    {
        Grouped {
            trees: Trees::empty(alloc),
            inner: 0,
        }
    }

    /// One tree.
    pub fn of(alloc: Global, part: Grown) -> Result<Grouped, NoMemory>
        ensures { IfOk result (λ parts. parts ≡ one part) }
    {
        let mut parts = Grouped::new(alloc);
        parts.add(alloc, part)?;
        Ok(parts)
    }

    /// Adds a tree at the end.
    #[tactic(auto, using(crate::proofs::Lists::nodes_push, crate::proofs::Lists::depths_last))]
    pub fn add(&mut self, alloc: Global, part: Grown) -> Result<(), NoMemory>
        ensures { OnOk result (self.new ≡ and_last self.old part) }
    {
        let depth = part.depth();
        let Grown { tree, .. } = part;
        self.trees.push(alloc, tree)?;
        self.inner = self.inner.max(depth);
        Ok(())
    }

    /// These trees as the parts of one node.
    pub fn under(self, label: Label, span: Span) -> Grown
        ensures { result ≡ node label span self }
    {
        let Grouped { trees, inner } = self;
        Grown {
            tree: Tree {
                label,
                span,
                parts: trees,
            },
            inner,
        }
    }

    /// Whether there is exactly one tree.
    #[tactic(auto, using(crate::proofs::Lists::one_node))]
    pub fn is_one(&self) -> bool
        ensures { result ≡ is_one self.now }
    {
        self.trees.len() == 1
    }

    /// Whether there is no tree.
    #[tactic(auto, using(crate::proofs::Lists::no_node))]
    pub fn is_none(&self) -> bool
        ensures { result ≡ is_none self.now }
    {
        self.trees.len() == 0
    }

    /// The greatest depth among the trees, up to `TOO_DEEP`.
    pub fn depth(&self) -> u32
        ensures { result ≡ capped (depths self.now) }
    {
        self.inner
    }
}
