//! Code: the nodes of texts, with each name looked up once.
ghost use Rattle.std.specs.Prelude.{◌≡◌, ◌+◌, ◌<◌, ◌^◌, [], ◌∷◌, IfOk, OnErr, IfSome, MatchOption, length, map, drop, slice_get};
ghost use Rattle.std.specs.Option.{option_copied, option_map};
ghost use Rattle.nl_tree.specs.Tree.{label, span, parts};
ghost use Rattle.nl_tree.specs.Views.{plain};
ghost use Rattle.nl_exec_meaning.specs.Arrows.{head_of};
ghost use Rattle.nl_exec_meaning.specs.Cases.{case_of};
ghost use Rattle.nl_exec_meaning.specs.inner.Arena.{IsItem};
ghost use Rattle.nl_exec_meaning.specs.Code.{IsOneToOne, case_of_op, case_of_text, inputs_at, name_of, node_at, written};

use crate::item::{Item, Op};
use crate::items::{copy_items, copy_lists, copy_trees, item_at, numbers_at, tree_at};
use crate::local_names::LocalNames;
use crate::naming::text_of;
use crate::numbers::Numbers;
use crate::resolve::{
    number_heads, number_inputs, procedures_of, push_bodies, resolve_all, resolve_text,
};
use nl_fixed::{NoMemory, Span, Str};
use nl_tree::{Program, Tree};
use std::alloc::Global;
use std::marker::Model;

/// The nodes of a program's bodies and of one lone text, with each name looked up once.
///
/// Nodes lie by breadth, so that the parts of a node stand side by side, and the body of each procedure has the procedure's number. A
/// place where no node is stands for a list without items.
#[derive(Drop)]
pub struct Code<'a> {
    program: &'a Program,
    // The tree of each node, for what is said of the nodes; a run never reads them.
    trees: Vec<&'a Tree>,
    items: Vec<Item>,
    names: LocalNames<'a>,
    // The numbers of each procedure's inputs.
    inputs: Vec<Numbers>,
    // The numbers of the names of each node's head: none, where it has no head.
    heads: Vec<Numbers>,
    // How many nodes are those of the bodies, which stand first.
    kept: usize,
}

impl<'a> Model for Code<'a> {
    ghost use Rattle.nl_exec_meaning.specs.Code.{Code, code_code};

    ghost Value = { Code };

    ghost coded = { code_code };

    ghost use Rattle.nl_exec_meaning.specs.inner.Arena.{IsArena, trees_seen};

    ghost view = { λ c. record {
      program = c.program.now;
      nodes = trees_seen c.trees.items;
      names = c.names;
      kept = c.kept;
    } };

    ghost invariant = { λ c. IsArena c.program.now c.names (trees_seen c.trees.items) c.items.items
        c.inputs.items c.heads.items c.kept };
}

impl<'a> Code<'a> {
    /// The nodes of a program's bodies. The time grows with the texts, and names are searched for.
    pub fn new(alloc: Global, program: &'a Program) -> Result<Code<'a>, NoMemory>
        ensures program { IfOk result (λ code. code.program ≡ program.now) }
        ensures kept { IfOk result (λ code. length code.nodes ≡ code.kept) }
    {
        let mut trees: Vec<&'a Tree> = Vec::new(alloc);
        let mut names: LocalNames<'a> = LocalNames::empty(alloc);
        let mut items = Vec::new(alloc);
        let mut heads = Vec::new(alloc);
        let inputs = number_inputs(alloc, &mut names, procedures_of(program))?;
        push_bodies(&mut trees, program)?;
        resolve_all(alloc, program, &mut trees, &mut names, &mut items)?;
        number_heads(alloc, &mut names, trees.as_slice(), &mut heads)?;
        let kept = items.len();
        Ok(Code {
            program,
            trees,
            items,
            names,
            inputs,
            heads,
            kept,
        })
    }

    /// Makes the nodes of a lone text in the place of those of an earlier one, and gives its first node. Where memory is refused, there is no
    /// lone text.
    pub fn open(&mut self, alloc: Global, text: &'a Tree) -> Result<u32, NoMemory>
        ensures text { IfOk result (λ root. node_at self.new root ≡ plain text.now) }
        ensures first { IfOk result (λ root. root ≡ self.old.kept) }
        ensures closed { OnErr result (length self.new.nodes ≡ self.old.kept) }
        ensures program { self.new.program ≡ self.old.program }
        ensures kept { self.new.kept ≡ self.old.kept }
    {
        let kept = self.kept;
        self.trees.truncate(kept);
        self.items.truncate(kept);
        self.heads.truncate(kept);
        match resolve_text(
            alloc,
            self.program,
            &mut self.trees,
            &mut self.names,
            &mut self.items,
            &mut self.heads,
            text,
        ) {
            Ok(root) => Ok(root),
            Err(error) => {
                self.trees.truncate(self.kept);
                self.items.truncate(self.kept);
                self.heads.truncate(self.kept);
                Err(error)
            }
        }
    }

    /// The same nodes again.
    pub fn copy(&self, alloc: Global) -> Result<Code<'a>, NoMemory>
        ensures { IfOk result (λ again. again ≡ self.now) }
    {
        let trees = copy_trees(alloc, &self.trees)?;
        let items = copy_items(alloc, &self.items)?;
        let names = self.names.copy(alloc)?;
        let inputs = copy_lists(alloc, &self.inputs)?;
        let heads = copy_lists(alloc, &self.heads)?;
        Ok(Code {
            program: self.program,
            trees,
            items,
            names,
            inputs,
            heads,
            kept: self.kept,
        })
    }

    /// The program whose bodies these are.
    pub fn program(&self) -> &'a Program
        ensures { result.now ≡ self.now.program }
    {
        self.program
    }

    // The item of a node.
    #[inline(always)]
    fn item(&self, node: u32) -> Item
        ensures item { IsItem self.now.program.declared self.now.names self.now.nodes result
            (node_at self.now node) }
        ensures apart { IsOneToOne self.now.names }
    {
        match item_at(&self.items, node) {
            Some(item) => item,
            None => Item {
                op: Op::Items,
                span: Span { start: 0, len: 0 },
                first: 0,
                count: 0,
            },
        }
    }

    /// What a node is.
    #[inline(always)]
    pub fn op(&self, node: u32) -> Op
        ensures op { case_of_op self.now.names (label (node_at self.now node)) result
            ≡ case_of self.now.program.declared (label (node_at self.now node)) }
        ensures apart { IsOneToOne self.now.names }
    {
        self.item(node).op
    }

    /// The text that a node is, if it is one.
    #[inline]
    pub fn text(&self, node: u32) -> Option<&Str>
        ensures { case_of_text (option_copied result) ≡ written (label (node_at self.now node)) }
    {
        match tree_at(&self.trees, node) {
            Some(tree) => text_of(tree.label()),
            None => None,
        }
    }

    /// Where a node stands in its text.
    #[inline(always)]
    pub fn span(&self, node: u32) -> Span
        ensures { result ≡ span (node_at self.now node) }
    {
        self.item(node).span
    }

    /// How many parts a node has.
    #[inline(always)]
    pub fn count(&self, node: u32) -> u32
        ensures { result ≡ length (parts (node_at self.now node)) }
    {
        self.item(node).count
    }

    /// A part of a node, counted from 0.
    #[inline(always)]
    pub fn part(&self, node: u32, at: u32) -> Option<u32>
        ensures value { option_map (λ i. node_at self.now i) result
            ≡ slice_get (parts (node_at self.now node)) at }
        ensures rest { MatchOption result
            (drop at (parts (node_at self.now node)) ≡ [])
            (λ i. drop at (parts (node_at self.now node))
            ≡ node_at self.now i ∷ drop (at + 1) (parts (node_at self.now node))) }
        ensures within { IfSome result (λ i. at + 1 < 2 ^ 32) }
    {
        let item = self.item(node);
        if at < item.count {
            Some(item.first + at)
        } else {
            None
        }
    }

    /// The node of the body of a procedure.
    #[inline]
    pub fn body(&self, procedure: u32) -> Option<u32>
        ensures { option_map (λ i. node_at self.now i) result ≡ slice_get self.now.program.bodies procedure }
    {
        if (procedure as usize) < self.inputs.len() {
            Some(procedure)
        } else {
            None
        }
    }

    /// The number of the name of a procedure's input, counted from 0.
    #[inline]
    pub fn input(&self, procedure: u32, at: usize) -> Option<u32>
        ensures { option_map (λ id. name_of self.now.names id) result
            ≡ slice_get (inputs_at self.now.program procedure) at }
    {
        match numbers_at(&self.inputs, procedure as usize) {
            Some(ids) => ids.get(at),
            None => None,
        }
    }
    /// The numbers of the names that the head of an arrow block has, in order. A node of another kind has none.
    #[inline]
    pub fn head(&self, node: u32) -> &[u32]
        ensures { map (λ id. name_of self.now.names id) result.now ≡ head_of (node_at self.now node) }
    {
        match numbers_at(&self.heads, node as usize) {
            Some(ids) => ids.as_slice(),
            None => &[],
        }
    }
}
