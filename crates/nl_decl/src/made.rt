//! The words that a breed makes.
//!
//! Which words there are is that of the NetLogo Dictionary. Each has the rule of a word without a breed, over that breed alone.
ghost use Rattle.std.specs.Prelude.{◌≡◌, IfOk, map};
ghost use Rattle.nl_tree.specs.Vocabulary.{turtle_patterns, undirected_patterns, directed_patterns};
ghost use Rattle.nl_decl.specs.Made.{name_by, pattern_of, patterns_by};

use nl_fixed::{NoMemory, Str};
use std::alloc::Global;

/// A word that is made of the plural or the singular of a breed.
#[derive(Clone, Copy, Debug)]
pub struct MadeWord {
    pub before: &'static str,
    /// Whether it is made of the plural.
    pub plural: bool,
    pub after: &'static str,
    /// The word without a breed whose row it has.
    pub base: &'static str,
}

macro_rules! made_words {
    ($($before:literal $part:ident $after:literal as $base:literal;)*) => {
        &[$(MadeWord {
            before: $before,
            plural: is_plural!($part),
            after: $after,
            base: $base,
        }),*]
    };
}

macro_rules! is_plural {
    (plural) => {
        true
    };
    (singular) => {
        false
    };
}

/// The words of a breed of links, with a direction or without one, or of turtles.
pub fn made_words(link: bool, directed: bool) -> &'static [MadeWord]
    ensures { map pattern_of result.now ≡ patterns_by link directed }
{
    if !link {
        turtle_words()
    } else if directed {
        directed_words()
    } else {
        undirected_words()
    }
}

fn turtle_words() -> &'static [MadeWord]
    ensures { map pattern_of result.now ≡ turtle_patterns }
{
    made_words! {
        "" plural "" as "turtles";
        "" plural "-own" as "turtles-own";
        "create-" plural "" as "create-turtles";
        "create-ordered-" plural "" as "create-ordered-turtles";
        "hatch-" plural "" as "hatch";
        "sprout-" plural "" as "sprout";
        "" plural "-here" as "turtles-here";
        "" plural "-at" as "turtles-at";
        "" plural "-on" as "turtles-on";
        "" singular "" as "turtle";
        "is-" singular "?" as "is-turtle?";
    }
}

fn undirected_words() -> &'static [MadeWord]
    ensures { map pattern_of result.now ≡ undirected_patterns }
{
    made_words! {
        "" plural "" as "links";
        "" plural "-own" as "links-own";
        "my-" plural "" as "my-links";
        "create-" plural "-with" as "create-links-with";
        "" singular "" as "link";
        "is-" singular "?" as "is-link?";
        "" singular "-neighbors" as "link-neighbors";
        "" singular "-neighbor?" as "link-neighbor?";
        "" singular "-with" as "link-with";
        "create-" singular "-with" as "create-link-with";
    }
}

fn directed_words() -> &'static [MadeWord]
    ensures { map pattern_of result.now ≡ directed_patterns }
{
    made_words! {
        "" plural "" as "links";
        "" plural "-own" as "links-own";
        "my-" plural "" as "my-links";
        "create-" plural "-to" as "create-links-to";
        "create-" plural "-from" as "create-links-from";
        "my-in-" plural "" as "my-in-links";
        "my-out-" plural "" as "my-out-links";
        "" singular "" as "link";
        "is-" singular "?" as "is-link?";
        "" singular "-neighbors" as "link-neighbors";
        "" singular "-neighbor?" as "link-neighbor?";
        "" singular "-with" as "link-with";
        "create-" singular "-to" as "create-link-to";
        "create-" singular "-from" as "create-link-from";
        "in-" singular "-neighbors" as "in-link-neighbors";
        "out-" singular "-neighbors" as "out-link-neighbors";
        "in-" singular "-neighbor?" as "in-link-neighbor?";
        "out-" singular "-neighbor?" as "out-link-neighbor?";
        "in-" singular "-from" as "in-link-from";
        "out-" singular "-to" as "out-link-to";
    }
}

/// The word that is made of these names.
pub fn made_name(
    alloc: Global,
    word: &MadeWord,
    plural: &[u8],
    singular: &[u8],
) -> Result<Str, NoMemory>
    ensures { IfOk result (λ name. name ≡ name_by (pattern_of word.now) plural.now singular.now) }
{
    let mut name = Str::of(alloc, word.before.as_bytes())?;
    name.append(alloc, if word.plural { plural } else { singular })?;
    name.append(alloc, word.after.as_bytes())?;
    Ok(name)
}
