//! Where the chains of a turtle's links begin and end.
ghost use Rattle.std.specs.Prelude.{◌≡◌, ◌<◌};
ghost use Rattle.nl_store_records.specs.Packed.{IsSmall};
ghost use Rattle.nl_links.specs.Sides.{border_of, kind_of, with_first, with_last, no_links};

use nl_store_records::{Border, PackedBorder};

/// By which end of a link.
#[derive(Clone, Copy, PartialEq, Debug)]
pub enum Side {
    First,
    Second,
}

/// The borders of a turtle's two chains: of the links that have it as first end, and of those that have it as second end.
#[derive(Clone, Copy)]
pub struct Sides {
    pub first: PackedBorder,
    pub second: PackedBorder,
}

impl Side {
    /// The kind of the chains, as records count them.
    pub(crate) fn kind(self) -> u8
        ensures kind { result ≡ kind_of self }
        ensures below { result < 5 }
    {
        match self {
            Side::First => 3,
            Side::Second => 4,
        }
    }
}

impl Sides {
    /// Two empty chains.
    pub(crate) fn empty() -> Sides
        ensures { result ≡ no_links }
    {
        Sides {
            first: PackedBorder::none(),
            second: PackedBorder::none(),
        }
    }

    /// The border of one of the chains.
    pub(crate) fn border(&self, side: Side) -> Border
        ensures { result ≡ border_of side self.now }
    {
        match side {
            Side::First => self.first.border(),
            Side::Second => self.second.border(),
        }
    }

    pub(crate) fn set_first(&mut self, side: Side, to: Option<usize>)
        requires { IsSmall to }
        ensures { self.new ≡ with_first side to self.old }
    {
        match side {
            Side::First => self.first.set_first(to),
            Side::Second => self.second.set_first(to),
        }
    }

    pub(crate) fn set_last(&mut self, side: Side, to: Option<usize>)
        requires { IsSmall to }
        ensures { self.new ≡ with_last side to self.old }
    {
        match side {
            Side::First => self.first.set_last(to),
            Side::Second => self.second.set_last(to),
        }
    }
}
