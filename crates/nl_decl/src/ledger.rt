//! The names that are declared so far.
ghost use Rattle.std.specs.Prelude.{◌≡◌, map, IfOk, OnOk};
ghost use Rattle.std.specs.List.{list_any};
ghost use Rattle.std.specs.HashSet.{contains};
ghost use Rattle.nl_decl.specs.Claims.{first_clash, widget_claim};
ghost use Rattle.nl_decl.specs.inner.Ledger.{marked_with, same_marked, Notes, Puts, TellsBarred, TellsTaken};
ghost use Rattle.nl_decl.specs.inner.Marks.{own_marks};

use crate::claims::{Claim, Claimed};
use crate::marks::{Mark, Marked, barring_marks, common_mark, own_mark};
use nl_fixed::{Names, NoMemory};
use nl_words::base_words;
use std::alloc::Global;
use std::collections::HashSet;

fn put(marks: &mut HashSet<Marked>, key: Marked) -> Result<(), NoMemory>
    ensures { OnOk result
        (Puts key (contains same_marked marks.old) (contains same_marked marks.new)) }
{
    marks.insert(key)?;
    Ok(())
}

fn marked(alloc: Global, name: &[u8], mark: Mark) -> Result<Marked, NoMemory>
    ensures { IfOk result (λ key. (key.name.items ≡ name.now) × (key.mark ≡ mark)) }
{
    let mut copy = Vec::new(alloc);
    copy.extend_from_slice(name)?;
    Ok(Marked { name: copy, mark })
}

// Leaves the marks of a declaration.
fn note(
    alloc: Global,
    marks: &mut HashSet<Marked>,
    name: &[u8],
    claim: Claim,
) -> Result<(), NoMemory>
    ensures { OnOk result (Notes name.now claim
        (contains same_marked marks.old) (contains same_marked marks.new)) }
{
    let key = marked(alloc, name, common_mark(claim))?;
    put(marks, key)?;
    match own_mark(claim) {
        None => Ok(()),
        Some(mark) => {
            let key = marked(alloc, name, mark)?;
            put(marks, key)?;
            Ok(())
        }
    }
}

// Whether one of these marks is on the name.
fn bears(marks: &HashSet<Marked>, key: &mut Marked, asked: &[Mark]) -> bool
    ensures same { key.new.name ≡ key.old.name }
    ensures found { result
        ≡ list_any (marked_with (contains same_marked marks.now) key.old.name) asked.now }
{
    'asked: for mark in asked {
        key.mark = *mark;
        if marks.contains(&*key) {
            return true;
        }
    }
    false
}

fn bears_own(marks: &HashSet<Marked>, key: &mut Marked, own: Option<Mark>) -> bool
    ensures { result
        ≡ list_any (marked_with (contains same_marked marks.now) key.old.name) (own_marks own) }
{
    match own {
        None => false,
        Some(mark) => {
            key.mark = mark;
            marks.contains(&*key)
        }
    }
}

// Whether there is an earlier declaration beside which a name that is declared so may not stand.
fn is_barred(
    alloc: Global,
    marks: &HashSet<Marked>,
    name: &[u8],
    claim: Claim,
) -> Result<bool, NoMemory>
    ensures { IfOk result (TellsBarred (contains same_marked marks.now) name.now claim) }
{
    let mut key = marked(alloc, name, Mark::Word)?;
    let common = bears(marks, &mut key, barring_marks(claim));
    let own = bears_own(marks, &mut key, own_mark(claim));
    Ok(common | own)
}

// Whether a name that is declared so is taken: a built-in word has it, or it is barred.
fn is_taken(
    alloc: Global,
    marks: &HashSet<Marked>,
    name: &[u8],
    claim: Claim,
) -> Result<bool, NoMemory>
    ensures { IfOk result (TellsTaken (contains same_marked marks.now) name.now claim) }
{
    let words = base_words();
    if words.find(name).is_some() {
        return Ok(true);
    }
    let barred = is_barred(alloc, marks, name, claim)?;
    Ok(barred)
}

/// The token of the first name that is declared twice, if there is one: the later of the two.
pub(crate) fn first_duplicate(
    alloc: Global,
    widgets: &Names,
    claims: &[Claimed],
) -> Result<Option<usize>, NoMemory>
    ensures { IfOk result (λ place. place ≡ first_clash (map widget_claim widgets.now) claims.now) }
{
    let mut marks = HashSet::new(alloc);
    'widgets: for name in widgets.as_slice() {
        note(alloc, &mut marks, name.as_bytes(), Claim::Widget)?;
    }
    'claims: for claimed in claims {
        let name = claimed.name.as_bytes();
        if is_taken(alloc, &marks, name, claimed.claim)? {
            return Ok(Some(claimed.place));
        }
        note(alloc, &mut marks, name, claimed.claim)?;
    }
    Ok(None)
}
