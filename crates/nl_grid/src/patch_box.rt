//! The patches around a point.
ghost use Rattle.std.specs.Prelude.{◌≡◌, ◌↔◌, IsTrue, IfSome, IfNone, Contains, find, nat_lt, slice_get};
ghost use Rattle.nl_grid.specs.Geometry.{ComesAfter};
ghost use Rattle.nl_grid.specs.inner.Bands.{AreBands, IsFirstFrom, NoneFrom};

use crate::band::Band;
use std::marker::Model;

/// A box of patches, seen by contracts as the list of them, in order.
#[derive(Debug, Drop)]
pub struct PatchBox {
    pub(crate) columns: Band,
    pub(crate) rows: Band,
}

impl Model for PatchBox {
    ghost use Rattle.nl_grid.specs.Nouns.{Patches};
    ghost use Rattle.nl_grid.specs.inner.Bands.{AreBands, patches_in};

    ghost Value = { Patches };

    ghost view = { λ box. patches_in box.columns box.rows };

    ghost invariant = { λ box. AreBands box.columns box.rows };
}

/// The first patch in the bands from this one on.
fn first_from(columns: Band, rows: Band, patch: u32) -> Option<u32>
    requires { AreBands columns rows }
    ensures found { IfSome result (IsFirstFrom columns rows patch) }
    ensures none { IfNone result (NoneFrom columns rows patch) }
{
    let row = patch / columns.side;
    if rows.contains(row) {
        if let Some(column) = columns.from_index(patch % columns.side) {
            return Some(row * columns.side + column);
        }
    }
    let row = rows.after(row)?;
    let column = columns.first()?;
    Some(row * columns.side + column)
}

impl PatchBox {
    /// Is this a patch of the box?
    pub fn contains(&self, patch: u32) -> bool
        ensures { IsTrue result ↔ Contains self.now patch }
    {
        let width = self.columns.side;
        self.columns.contains(patch % width) && self.rows.contains(patch / width)
    }

    /// The first patch of the box.
    pub fn first(&self) -> Option<u32>
        ensures { result ≡ slice_get self.now 0 }
    {
        first_from(self.columns, self.rows, 0)
    }

    /// The first patch of the box after this one, which itself may be outside of it.
    pub fn next(&self, patch: u32) -> Option<u32>
        ensures after { result ≡ find (λ other. nat_lt patch other) self.now }
        ensures walk { ComesAfter self.now patch result }
    {
        let _ = &self.columns;
        let from = patch.checked_add(1)?;
        first_from(self.columns, self.rows, from)
    }
}
