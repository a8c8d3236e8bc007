//! What stands at a place of a list.
ghost use Rattle.std.specs.Prelude.{◌≡◌, [], ◌∷◌, ◌++◌, IfOk, OnOk, OnErr, slice_get};
ghost use Rattle.std.specs.Option.{option_copied};

use crate::item::Item;
use crate::numbers::Numbers;
use nl_fixed::NoMemory;
use nl_tree::Tree;
use std::alloc::Global;

/// The item at a place.
#[inline]
pub(crate) fn item_at(items: &[Item], node: u32) -> Option<Item>
    ensures { result ≡ slice_get items.now node }
{
    items.get(node as usize).copied()
}

/// The tree at a place.
pub(crate) fn tree_at<'a>(trees: &[&'a Tree], node: u32) -> Option<&'a Tree>
    ensures { result ≡ slice_get trees.now node }
{
    trees.get(node as usize).copied()
}

/// The numbers at a place.
#[inline]
pub(crate) fn numbers_at(lists: &[Numbers], at: usize) -> Option<&Numbers>
    ensures { option_copied result ≡ slice_get lists.now at }
{
    lists.get(at)
}

/// Puts an item behind the others.
pub(crate) fn push_item(items: &mut Vec<Item>, item: Item) -> Result<(), NoMemory>
    ensures ok { OnOk result (items.new.items ≡ items.old.items ++ item ∷ []) }
    ensures err { OnErr result (items.new.items ≡ items.old.items) }
{
    items.extend_from_slice(&[item])?;
    Ok(())
}

/// The same trees again.
pub(crate) fn copy_trees<'a>(alloc: Global, trees: &[&'a Tree]) -> Result<Vec<&'a Tree>, NoMemory>
    ensures { IfOk result (λ copied. copied.items ≡ trees.now) }
{
    let mut copied = Vec::new(alloc);
    for tree in trees {
        copied.push(*tree)?;
    }
    Ok(copied)
}

/// The same items again.
pub(crate) fn copy_items(alloc: Global, items: &[Item]) -> Result<Vec<Item>, NoMemory>
    ensures { IfOk result (λ copied. copied.items ≡ items.now) }
{
    let mut copied = Vec::new(alloc);
    for item in items {
        copied.push(*item)?;
    }
    Ok(copied)
}

/// The same lists again.
pub(crate) fn copy_lists(alloc: Global, lists: &[Numbers]) -> Result<Vec<Numbers>, NoMemory>
    ensures { IfOk result (λ copied. copied.items ≡ lists.now) }
{
    let mut copied = Vec::new(alloc);
    for list in lists {
        copied.push(list.copy(alloc)?)?;
    }
    Ok(copied)
}
