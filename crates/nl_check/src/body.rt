//! The steps of a text, from its tree.
ghost use Rattle.std.specs.Prelude.{◌≡◌, ◌++◌, ◌∷◌, [], IfOk, OnOk};
ghost use Rattle.nl_tree.specs.Names.{IsDeclared};
ghost use Rattle.nl_tree.specs.Views.{plain};
ghost use Rattle.nl_tree.specs.Vocabulary.{terms};
ghost use Rattle.nl_tree.specs.Context.{is_block, text_of};
ghost use Rattle.nl_check.specs.inner.Calls.{body_steps};
ghost use Rattle.nl_check.specs.inner.Bodies.{PutsSteps, HasRow, node_at, flat_at, word_at, parts_at, part_at, inner_at, variable_at, own_step, word_step};

use crate::given::block_kinds;
use crate::step::{Step, Use, use_of};
use crate::words::{input_at, is_operator, manner, runs_itself};
use nl_fixed::{NoMemory, Span};
use nl_tree::{Declared, Label, Tree, Word, word};
use nl_words::{Input, Manner};
use std::alloc::Global;

/// The steps of a text.
pub(crate) fn steps_of(
    alloc: Global,
    declared: &Declared,
    tree: &Tree,
) -> Result<Vec<Step>, NoMemory>
    requires { IsDeclared declared.now }
    ensures { IfOk result
        (λ steps. steps.items ≡ body_steps (terms declared.now) (plain tree.now)) }
{
    let mut steps = Vec::new(alloc);
    let text = Site {
        declared,
        inner: false,
    };
    text.put(tree, &mut steps)?;
    Ok(steps)
}

// Where words stand: in a text of a model, or in a block there that other agents run.
#[derive(Clone, Copy)]
struct Site<'a> {
    declared: &'a Declared,
    // Whether it is such a block.
    inner: bool,
}

// The node of a word, with the word's name and row.
#[derive(Clone, Copy)]
struct WordNode<'a> {
    tree: &'a Tree,
    name: &'a [u8],
    word: Word,
}

impl<'a> Site<'a> {
    // Appends the steps of a node.
    #[cycle(put)]
    fn put(&self, tree: &Tree, steps: &mut Vec<Step>) -> Result<(), NoMemory>
        requires { IsDeclared self.now.declared.now }
        ensures { OnOk result
            (PutsSteps self.now steps.old.items steps.new.items (node_at self.now tree.now)) }
    {
        match tree.label() {
            Label::Named(name) => match word(self.declared, name.as_bytes()) {
                Some(word) => {
                    let node = WordNode {
                        tree,
                        name: name.as_bytes(),
                        word,
                    };
                    self.put_word(&node, steps)
                }
                None => put_use(use_of(None, tree.span(), Manner::Run, self.inner), steps),
            },
            _ => self.put_plain(tree, steps),
        }
    }

    // Appends the steps of all parts of a node.
    #[cycle(put)]
    fn put_plain(&self, tree: &Tree, steps: &mut Vec<Step>) -> Result<(), NoMemory>
        requires { IsDeclared self.now.declared.now }
        ensures { OnOk result
            (PutsSteps self.now steps.old.items steps.new.items (flat_at self.now tree.now)) }
    {
        for at in 0..tree.len() {
            let Some(part) = tree.part(at) else {
                unreachable!()
            };
            self.put(part, steps)?;
        }
        Ok(())
    }

    // Appends the steps of a word and its parts: an operator stands after its first part, any other word before them.
    #[cycle(put)]
    fn put_word(&self, node: &WordNode, steps: &mut Vec<Step>) -> Result<(), NoMemory>
        requires model { IsDeclared self.now.declared.now }
        requires row { HasRow self.now node.now }
        ensures { OnOk result
            (PutsSteps self.now steps.old.items steps.new.items (word_at self.now node.now)) }
    {
        if !is_operator(node.word.role) {
            self.put_name(node, steps)?;
            return self.put_parts(node, 0, steps);
        }
        let Some(part) = node.tree.part(0) else {
            return self.put_name(node, steps);
        };
        self.put_part(node, 0, part, steps)?;
        self.put_name(node, steps)?;
        self.put_parts(node, 1, steps)
    }

    // Appends the use of the word itself.
    fn put_name(&self, node: &WordNode, steps: &mut Vec<Step>) -> Result<(), NoMemory>
        ensures { OnOk result
            (steps.new.items ≡ steps.old.items ++ own_step self.now node.now ∷ []) }
    {
        put_use(
            use_of(Some(node.word), node.tree.span(), Manner::Run, self.inner),
            steps,
        )
    }

    // Appends the steps of a word's parts from a place on.
    #[cycle(put)]
    fn put_parts(&self, node: &WordNode, from: usize, steps: &mut Vec<Step>) -> Result<(), NoMemory>
        requires { IsDeclared self.now.declared.now }
        ensures { OnOk result
            (PutsSteps self.now steps.old.items steps.new.items
            (parts_at self.now node.now from)) }
    {
        for at in from..node.tree.len() {
            let Some(part) = node.tree.part(at) else {
                unreachable!()
            };
            self.put_part(node, at, part, steps)?;
        }
        Ok(())
    }

    // Appends the steps of the part at a place of a word's node, by what the word reads there. A part past the word's inputs is a value.
    #[cycle(put)]
    fn put_part(
        &self,
        node: &WordNode,
        at: usize,
        part: &Tree,
        steps: &mut Vec<Step>,
    ) -> Result<(), NoMemory>
        requires { IsDeclared self.now.declared.now }
        ensures { OnOk result
            (PutsSteps self.now steps.old.items steps.new.items
            (part_at self.now node.now at part.now)) }
    {
        match input_at(&node.word, at) {
            Some(Input::Variable) => self.put_variable(node, part, steps),
            Some(Input::Fresh) => Ok(()),
            _ => self.put_inner(node, part, steps),
        }
    }

    // Appends the steps of an expression or a block of a word's node.
    #[cycle(put)]
    fn put_inner(&self, node: &WordNode, part: &Tree, steps: &mut Vec<Step>) -> Result<(), NoMemory>
        requires { IsDeclared self.now.declared.now }
        ensures { OnOk result
            (PutsSteps self.now steps.old.items steps.new.items
            (inner_at self.now node.now part.now)) }
    {
        if is_block(part.label()) && !runs_itself(node.word.what) {
            let first = block_kinds(self.declared, &node.word, node.tree);
            let block = Site {
                declared: self.declared,
                inner: true,
            };
            steps.push(Step::Open(first))?;
            block.put(part, steps)?;
            steps.push(Step::Close)?;
            return Ok(());
        }
        self.put(part, steps)
    }

    // Appends the use of the variable that the word names, as that of `set`.
    fn put_variable(
        &self,
        node: &WordNode,
        part: &Tree,
        steps: &mut Vec<Step>,
    ) -> Result<(), NoMemory>
        requires { IsDeclared self.now.declared.now }
        ensures { OnOk result
            (PutsSteps self.now steps.old.items steps.new.items
            (variable_at self.now node.now part.now)) }
    {
        let variable = text_of(part.label());
        let row = word(self.declared, variable);
        let manner = manner(node.word.what);
        put_use(use_of(row, part.span(), manner, self.inner), steps)
    }
}

fn is_block(label: &Label) -> bool
    ensures { result ≡ is_block label.now }
{
    matches!(label, Label::Commands | Label::Reporter | Label::Arrow(_))
}

fn text_of(label: &Label) -> &[u8]
    ensures { result.now ≡ text_of label.now }
{
    match label {
        Label::Named(name) => name.as_bytes(),
        _ => b"",
    }
}

// Appends the use of a word.
fn put_use(used: Use, steps: &mut Vec<Step>) -> Result<(), NoMemory>
    ensures { OnOk result (steps.new.items ≡ steps.old.items ++ word_step used ∷ []) }
{
    steps.push(Step::Word(used))?;
    Ok(())
}
