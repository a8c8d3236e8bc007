//! The indices of one axis that a box takes.

/// A set of indices of an axis with `side` patches: those from `from` on and below `to`, and those from `again` on.
#[derive(Clone, Copy, Debug, PartialEq, Eq)]
pub struct Band {
    pub(crate) from: u32,
    pub(crate) to: u32,
    pub(crate) again: u32,
    pub(crate) side: u32,
}

impl Band {
    ghost use Rattle.std.specs.Prelude.{◌≡◌, ◌+◌, ◌*◌, nat_le, IfSome, IfNone, ◌<◌, ◌≤◌};
    ghost use Rattle.nl_grid.specs.Geometry.{apart, apart_round};
    ghost use Rattle.nl_grid.specs.inner.Bands.{in_band, IsBand, HasIndices, IsFirstIndex, NoIndexFrom, size_of};

    /// The indices at most so many steps from an index, on an axis with ends.
    pub(crate) fn along(index: u32, steps: u32, side: u32) -> Band
        requires index { index < side }
        requires side { side ≤ 1001 }
        requires steps { steps ≤ 1001 }
        ensures side { result.side ≡ side }
        ensures band { IsBand result }
        ensures few { size_of result ≤ 2 * steps + 1 }
        ensures indices { HasIndices result side (λ j. nat_le (apart index j) steps) }
    {
        let to = (index + steps + 1).min(side);
        Band {
            from: index.saturating_sub(steps),
            to,
            again: side,
            side,
        }
    }

    /// The indices at most so many steps from an index, on an axis that goes on at its beginning.
    pub(crate) fn around(index: u32, steps: u32, side: u32) -> Band
        requires index { index < side }
        requires side { side ≤ 1001 }
        requires steps { steps ≤ 1001 }
        ensures side { result.side ≡ side }
        ensures band { IsBand result }
        ensures few { size_of result ≤ 2 * steps + 1 }
        ensures indices { HasIndices result side (λ j. nat_le (apart_round side index j) steps) }
    {
        let end = index + steps + 1;
        if side <= 2 * steps {
            return Band {
                from: 0,
                to: side,
                again: side,
                side,
            };
        }
        if index < steps {
            return Band {
                from: 0,
                to: end,
                again: side + index - steps,
                side,
            };
        }
        if side < end {
            return Band {
                from: 0,
                to: end - side,
                again: index - steps,
                side,
            };
        }
        Band {
            from: index - steps,
            to: end,
            again: side,
            side,
        }
    }

    /// Is this index in the band?
    pub(crate) fn contains(self, index: u32) -> bool
        ensures { result ≡ in_band self index }
    {
        (self.from <= index && index < self.to) || (self.again <= index && index < self.side)
    }

    /// The first index of the band from this one on.
    pub(crate) fn from_index(self, index: u32) -> Option<u32>
        requires { IsBand self }
        ensures found { IfSome result (IsFirstIndex self index) }
        ensures none { IfNone result (NoIndexFrom self index) }
    {
        let near = index.max(self.from);
        if near < self.to {
            return Some(near);
        }
        let far = index.max(self.again);
        if far < self.side { Some(far) } else { None }
    }

    /// The first index of the band.
    pub(crate) fn first(self) -> Option<u32>
        requires { IsBand self }
        ensures found { IfSome result (IsFirstIndex self 0) }
        ensures none { IfNone result (NoIndexFrom self 0) }
    {
        self.from_index(0)
    }

    /// The first index of the band after this one.
    pub(crate) fn after(self, index: u32) -> Option<u32>
        requires { IsBand self }
        ensures found { IfSome result (IsFirstIndex self (index + 1)) }
        ensures none { IfNone result (NoIndexFrom self (index + 1)) }
    {
        if index < self.side {
            self.from_index(index + 1)
        } else {
            None
        }
    }
}
