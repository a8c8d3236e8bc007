//! A text as a row of steps: its words and, each in its place, where the blocks begin and end that other agents run.
ghost use Rattle.std.specs.Prelude.{◌≡◌, []};
ghost use Rattle.std.specs.Option.{option_map};
ghost use Rattle.nl_fixed.specs.Nouns.{Name};
ghost use Rattle.nl_tree.specs.Context.{is_on_patches, row_of_term, fixed_by, leaving_by};
ghost use Rattle.nl_tree.specs.Index.{named};
ghost use Rattle.nl_check.specs.inner.Steps.{runs_of, calls_of, unsettable_by, used_as};

use crate::kinds::everyone;
use crate::words::{is_fixed, leaving};
use nl_fixed::Span;
use nl_tree::{What, Word};
use nl_words::{Kinds, Leaving, Manner, Role};

/// A word in its place.
#[derive(Clone, Copy, Debug)]
pub(crate) struct Use {
    pub span: Span,
    /// The kinds that its row allows; all where it is no word of its text or block.
    pub runs: Kinds,
    /// The place of the procedure that it calls.
    pub calls: Option<u32>,
    /// Whether it is a variable that may not stand there.
    pub unsettable: bool,
    pub leaving: Leaving,
    /// Whether it stands in a block that other agents run.
    pub inner: bool,
}

#[derive(Clone, Copy, Debug)]
pub(crate) enum Step {
    Word(Use),
    /// A block begins that other agents run, with its first kinds.
    Open(Kinds),
    /// The innermost such block ends.
    Close,
}

/// The use of a word of this row, whatever its name.
pub(crate) fn use_of(word: Option<Word>, span: Span, manner: Manner, inner: bool) -> Use
    ensures { (n : Name) → result ≡ used_as (option_map (named n) word) inner span manner }
{
    let counted = match manner {
        Manner::Run | Manner::Set => word,
        Manner::Spread => None,
    };
    Use {
        span,
        runs: runs_of(counted),
        calls: called(counted),
        unsettable: is_unsettable(word, manner),
        leaving: leaving_of(word),
        inner,
    }
}

fn runs_of(word: Option<Word>) -> Kinds
    ensures { result ≡ runs_of (option_map (named []) word) }
{
    match word {
        Some(word) => word.runs,
        None => everyone(),
    }
}

fn called(word: Option<Word>) -> Option<u32>
    ensures { result ≡ calls_of (option_map (named []) word) }
{
    match word {
        Some(word) => match word.what {
            What::Procedure(place) => Some(place),
            _ => None,
        },
        None => None,
    }
}

fn leaving_of(word: Option<Word>) -> Leaving
    ensures { result ≡ leaving_by (row_of_term (option_map (named []) word)) }
{
    match word {
        Some(word) => leaving(word.what),
        None => Leaving::Stays,
    }
}

// Whether the variable may not stand there: it is fixed or, where one of patches is wanted, it isn't such a one.
fn is_unsettable(word: Option<Word>, manner: Manner) -> bool
    ensures { result ≡ unsettable_by manner (option_map (named []) word) }
{
    match manner {
        Manner::Run => false,
        Manner::Set => is_fixed_row(word),
        Manner::Spread => is_fixed_row(word) || !is_on_patches(word),
    }
}

fn is_fixed_row(word: Option<Word>) -> bool
    ensures { result ≡ fixed_by (row_of_term (option_map (named []) word)) }
{
    match word {
        Some(word) => is_fixed(word.what),
        None => false,
    }
}

fn is_on_patches(word: Option<Word>) -> bool
    ensures { result ≡ is_on_patches (option_map (named []) word) }
{
    match word {
        Some(word) => {
            matches!(word.role, Role::Variable) && word.runs.patch && !word.runs.observer
        }
        None => false,
    }
}
