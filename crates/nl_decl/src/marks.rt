//! What a name bars for later declarations of the same name.
ghost use Rattle.std.specs.Prelude.{◌≡◌};
ghost use Rattle.nl_decl.specs.inner.Marks.{common_mark, own_mark, barring_marks};

use crate::claims::Claim;

/// What a name that is declared so far bars for later declarations of that name.
#[derive(Clone, Copy, Debug, PartialEq, Eq, Hash)]
pub enum Mark {
    Word,
    Widget,
    Global,
    Turtles,
    Patches,
    Links,
    SomeTurtleBreed,
    TurtleBreed(usize),
    SomeLinkBreed,
    LinkBreed(usize),
    SomeInput,
    Input(usize),
}

/// A mark of a name.
#[derive(PartialEq, Eq, Hash, Drop)]
pub struct Marked {
    pub name: Vec<u8>,
    pub mark: Mark,
}

/// The mark that each declaration of this kind leaves, whoever the owner or procedure is.
pub(crate) fn common_mark(claim: Claim) -> Mark
    ensures { result ≡ common_mark claim }
{
    match claim {
        Claim::Word => Mark::Word,
        Claim::Widget => Mark::Widget,
        Claim::Global => Mark::Global,
        Claim::Turtles => Mark::Turtles,
        Claim::Patches => Mark::Patches,
        Claim::Links => Mark::Links,
        Claim::TurtleBreed(_) => Mark::SomeTurtleBreed,
        Claim::LinkBreed(_) => Mark::SomeLinkBreed,
        Claim::Input(_) => Mark::SomeInput,
    }
}

/// The mark of the one breed or procedure.
pub(crate) fn own_mark(claim: Claim) -> Option<Mark>
    ensures { result ≡ own_mark claim }
{
    match claim {
        Claim::TurtleBreed(breed) => Some(Mark::TurtleBreed(breed)),
        Claim::LinkBreed(breed) => Some(Mark::LinkBreed(breed)),
        Claim::Input(procedure) => Some(Mark::Input(procedure)),
        _ => None,
    }
}

/// The common marks beside which a name may not be declared so.
pub(crate) fn barring_marks(claim: Claim) -> &'static [Mark]
    ensures { result.now ≡ barring_marks claim }
{
    match claim {
        Claim::Word | Claim::Widget | Claim::Patches => &[
            Mark::Word,
            Mark::Widget,
            Mark::Global,
            Mark::Turtles,
            Mark::Patches,
            Mark::Links,
            Mark::SomeTurtleBreed,
            Mark::SomeLinkBreed,
            Mark::SomeInput,
        ],
        Claim::Global => &[
            Mark::Word,
            Mark::Global,
            Mark::Turtles,
            Mark::Patches,
            Mark::Links,
            Mark::SomeTurtleBreed,
            Mark::SomeLinkBreed,
            Mark::SomeInput,
        ],
        Claim::Turtles => &[
            Mark::Word,
            Mark::Widget,
            Mark::Global,
            Mark::Turtles,
            Mark::Patches,
            Mark::SomeTurtleBreed,
            Mark::SomeInput,
        ],
        Claim::Links => &[
            Mark::Word,
            Mark::Widget,
            Mark::Global,
            Mark::Patches,
            Mark::Links,
            Mark::SomeLinkBreed,
            Mark::SomeInput,
        ],
        Claim::TurtleBreed(_) => &[
            Mark::Word,
            Mark::Widget,
            Mark::Global,
            Mark::Turtles,
            Mark::Patches,
            Mark::SomeInput,
        ],
        Claim::LinkBreed(_) => &[
            Mark::Word,
            Mark::Widget,
            Mark::Global,
            Mark::Patches,
            Mark::Links,
            Mark::SomeInput,
        ],
        Claim::Input(_) => &[
            Mark::Word,
            Mark::Widget,
            Mark::Global,
            Mark::Turtles,
            Mark::Patches,
            Mark::Links,
            Mark::SomeTurtleBreed,
            Mark::SomeLinkBreed,
        ],
    }
}
