//! Nodes of trees, with each name looked up once.
ghost use Rattle.std.specs.Prelude.{◌≡◌, ◌+◌, ◌<◌, ◌≤◌, ◌^◌, Some, ◌++◌, IfOk, OnOk, map, length, slice_get, take};
ghost use Rattle.nl_tree.specs.Tree.{label, parts};
ghost use Rattle.nl_tree.specs.Views.{plain};
ghost use Rattle.nl_exec_meaning.specs.Arrows.{head_of};
ghost use Rattle.nl_exec_meaning.specs.inner.Arena.{AreHeads, AreInputs, AreItems, AreNames, Grows, IsInputs, IsItem, trees_seen};

use crate::item::{Item, Op};
use crate::items::push_item;
use crate::local_names::LocalNames;
use crate::naming::label_op;
use crate::numbers::Numbers;
use nl_fixed::{NoMemory, Str};
use nl_tree::{Label, Procedure, Program, Tree};
use std::alloc::Global;

/// The parts of a tree.
fn parts_of(tree: &Tree) -> &[Tree]
    ensures { map plain result.now ≡ parts (plain tree.now) }
{
    tree.parts.as_slice()
}

/// The procedures of a program, of which each has a body.
pub(crate) fn procedures_of(program: &Program) -> &[Procedure]
    ensures value { result.now ≡ program.now.declared.procedures }
    ensures many { length program.now.bodies ≡ length program.now.declared.procedures }
{
    program.declared().procedures.as_slice()
}

/// The body of a procedure.
fn body_at(program: &Program, at: usize) -> &Tree
    requires { at < length program.now.declared.procedures }
    ensures { slice_get program.now.bodies at ≡ Some (plain result.now) }
{
    program.body(at).unwrap()
}

/// Puts trees behind the others. Their first place comes back.
fn push_trees<'a>(trees: &mut Vec<&'a Tree>, more: &'a [Tree]) -> Result<u32, NoMemory>
    ensures trees { OnOk result
        (trees_seen trees.new.items ≡ trees_seen trees.old.items ++ map plain more.now) }
    ensures first { IfOk result (λ first. first ≡ length trees.old.items) }
    ensures within { OnOk result (length trees.old.items + length more.now < 2 ^ 32) }
    ensures grows { Grows (trees_seen trees.old.items) (trees_seen trees.new.items) }
{
    let Ok(first) = u32::try_from(trees.len()) else {
        return Err(NoMemory);
    };
    let Ok(count) = u32::try_from(more.len()) else {
        return Err(NoMemory);
    };
    let Some(_) = first.checked_add(count) else {
        return Err(NoMemory);
    };
    for tree in more {
        trees.push(tree)?;
    }
    Ok(first)
}

/// Makes the node of a tree, and puts its parts behind the others.
fn resolve<'a>(
    alloc: Global,
    program: &'a Program,
    trees: &mut Vec<&'a Tree>,
    names: &mut LocalNames<'a>,
    tree: &'a Tree,
) -> Result<Item, NoMemory>
    ensures item { IfOk result
        (λ it. IsItem program.now.declared names.new (trees_seen trees.new.items) it (plain tree.now)) }
    ensures trees { OnOk result
        (trees_seen trees.new.items ≡ trees_seen trees.old.items ++ parts (plain tree.now)) }
    ensures grows { Grows (trees_seen trees.old.items) (trees_seen trees.new.items) }
    ensures names { Grows names.old names.new }
    ensures apart { AreNames names.old → AreNames names.new }
{
    let op: Op = label_op(alloc, program, names, tree.label())?;
    let more = parts_of(tree);
    let first = push_trees(trees, more)?;
    let count = more.len() as u32;
    Ok(Item {
        op,
        span: tree.span(),
        first,
        count,
    })
}

/// Makes the nodes of all trees that have none yet.
pub(crate) fn resolve_all<'a>(
    alloc: Global,
    program: &'a Program,
    trees: &mut Vec<&'a Tree>,
    names: &mut LocalNames<'a>,
    items: &mut Vec<Item>,
) -> Result<(), NoMemory>
    requires fewer { length items.old.items ≤ length trees.old.items }
    requires right { AreItems program.now.declared names.old (trees_seen trees.old.items) items.old.items }
    ensures right { OnOk result
        (AreItems program.now.declared names.new (trees_seen trees.new.items) items.new.items) }
    ensures full { OnOk result (length items.new.items ≡ length trees.new.items) }
    ensures items { Grows items.old.items items.new.items }
    ensures trees { Grows (trees_seen trees.old.items) (trees_seen trees.new.items) }
    ensures names { Grows names.old names.new }
    ensures apart { AreNames names.old → AreNames names.new }
{
    'trees: while items.len() < trees.len() {
        let tree = trees[items.len()];
        let Ok(item) = resolve(alloc, program, trees, names, tree) else {
            return Err(NoMemory);
        };
        push_item(items, item)?;
    }
    Ok(())
}

/// Makes the nodes of one tree more. The place of the first comes back.
pub(crate) fn resolve_text<'a>(
    alloc: Global,
    program: &'a Program,
    trees: &mut Vec<&'a Tree>,
    names: &mut LocalNames<'a>,
    items: &mut Vec<Item>,
    heads: &mut Vec<Numbers>,
    text: &'a Tree,
) -> Result<u32, NoMemory>
    requires full { length items.old.items ≡ length trees.old.items }
    requires right { AreItems program.now.declared names.old (trees_seen trees.old.items) items.old.items }
    requires heads { AreHeads names.old heads.old.items (trees_seen trees.old.items) }
    ensures text { IfOk result (λ root. slice_get (trees_seen trees.new.items) root ≡ Some (plain text.now)) }
    ensures first { IfOk result (λ root. root ≡ length trees.old.items) }
    ensures right { OnOk result
        (AreItems program.now.declared names.new (trees_seen trees.new.items) items.new.items) }
    ensures full { OnOk result (length items.new.items ≡ length trees.new.items) }
    ensures heads { OnOk result (AreHeads names.new heads.new.items (trees_seen trees.new.items)) }
    ensures kept { Grows heads.old.items heads.new.items }
    ensures items { Grows items.old.items items.new.items }
    ensures trees { Grows (trees_seen trees.old.items) (trees_seen trees.new.items) }
    ensures names { Grows names.old names.new }
    ensures apart { AreNames names.old → AreNames names.new }
{
    let Ok(root) = u32::try_from(trees.len()) else {
        return Err(NoMemory);
    };
    trees.push(text)?;
    resolve_all(alloc, program, trees, names, items)?;
    number_heads(alloc, names, trees.as_slice(), heads)?;
    Ok(root)
}

/// Puts the bodies of a program's procedures in order.
pub(crate) fn push_bodies<'a>(
    trees: &mut Vec<&'a Tree>,
    program: &'a Program,
) -> Result<(), NoMemory>
    ensures { OnOk result (trees_seen trees.new.items ≡ trees_seen trees.old.items ++ program.now.bodies) }
{
    for at in 0..procedures_of(program).len() {
        trees.push(body_at(program, at))?;
    }
    Ok(())
}

/// The numbers of names.
fn number_all<'a>(
    alloc: Global,
    names: &mut LocalNames<'a>,
    list: &'a [Str],
) -> Result<Numbers, NoMemory>
    ensures numbers { IfOk result (λ ids. IsInputs names.new ids list.now) }
    ensures grows { Grows names.old names.new }
    ensures apart { AreNames names.old → AreNames names.new }
{
    let mut ids = Numbers::empty(alloc);
    for name in list {
        let id = names.number(alloc, name)?;
        ids.push(alloc, id)?;
    }
    Ok(ids)
}

/// The numbers of the inputs of procedures.
pub(crate) fn number_inputs<'a>(
    alloc: Global,
    names: &mut LocalNames<'a>,
    procedures: &'a [Procedure],
) -> Result<Vec<Numbers>, NoMemory>
    ensures numbers { IfOk result (λ inputs. AreInputs names.new inputs.items procedures.now) }
    ensures grows { Grows names.old names.new }
    ensures apart { AreNames names.old → AreNames names.new }
{
    let mut inputs = Vec::new(alloc);
    for procedure in procedures {
        let ids = number_all(alloc, names, procedure.inputs.as_slice())?;
        inputs.push(ids)?;
    }
    Ok(inputs)
}

/// The names that the head of a tree has, where it has one.
fn head_names(tree: &Tree) -> &[Str]
    ensures { result.now ≡ head_of (plain tree.now) }
{
    match tree.label() {
        Label::Arrow(names) => names.as_slice(),
        _ => &[],
    }
}

/// The numbers of the names of heads, for all trees that have none yet.
pub(crate) fn number_heads<'a>(
    alloc: Global,
    names: &mut LocalNames<'a>,
    trees: &[&'a Tree],
    heads: &mut Vec<Numbers>,
) -> Result<(), NoMemory>
    requires heads { AreHeads names.old heads.old.items
        (take (length heads.old.items) (trees_seen trees.now)) }
    ensures heads { OnOk result (AreHeads names.new heads.new.items (trees_seen trees.now)) }
    ensures kept { Grows heads.old.items heads.new.items }
    ensures grows { Grows names.old names.new }
    ensures apart { AreNames names.old → AreNames names.new }
{
    for at in heads.len()..trees.len() {
        let ids = number_all(alloc, names, head_names(trees[at]))?;
        heads.push(ids)?;
    }
    Ok(())
}
