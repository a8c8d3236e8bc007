//! Sets of kinds of agents.
ghost use Rattle.std.specs.Prelude.{◌≡◌};
ghost use Rattle.nl_words.specs.Kinds.{everyone, observers, turtles, links, agents};
ghost use Rattle.nl_check.specs.inner.Kinds.{meet, is_none, count};

use nl_words::Kinds;

/// All kinds.
pub(crate) fn everyone() -> Kinds
    ensures { result ≡ everyone }
{
    kinds(true, true, true, true)
}

/// The observer.
pub(crate) fn observers() -> Kinds
    ensures { result ≡ observers }
{
    kinds(true, false, false, false)
}

/// Turtles.
pub(crate) fn turtles() -> Kinds
    ensures { result ≡ turtles }
{
    kinds(false, true, false, false)
}

/// Links.
pub(crate) fn links() -> Kinds
    ensures { result ≡ links }
{
    kinds(false, false, false, true)
}

/// Turtles, patches and links.
pub(crate) fn agents() -> Kinds
    ensures { result ≡ agents }
{
    kinds(false, true, true, true)
}

/// The set of these kinds.
pub(crate) fn kinds(observer: bool, turtle: bool, patch: bool, link: bool) -> Kinds
    ensures { result ≡ Rattle.nl_words.specs.Kinds.kinds observer turtle patch link }
{
    Kinds {
        observer,
        turtle,
        patch,
        link,
    }
}

/// The kinds that are in both.
pub(crate) fn meet(a: Kinds, b: Kinds) -> Kinds
    ensures { result ≡ meet a b }
{
    Kinds {
        observer: a.observer && b.observer,
        turtle: a.turtle && b.turtle,
        patch: a.patch && b.patch,
        link: a.link && b.link,
    }
}

/// Whether there is no kind.
pub(crate) fn is_none(kinds: Kinds) -> bool
    ensures { result ≡ is_none kinds }
{
    !(kinds.observer || kinds.turtle || kinds.patch || kinds.link)
}

/// How many kinds there are.
pub(crate) fn count(kinds: Kinds) -> u8
    ensures { result ≡ count kinds }
{
    u8::from(kinds.observer) + u8::from(kinds.turtle) + u8::from(kinds.patch) + u8::from(kinds.link)
}
