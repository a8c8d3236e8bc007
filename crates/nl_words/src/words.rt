//! A table of words, and the look-ups in it.
ghost use Rattle.std.specs.Prelude.{◌≡◌, ◌<◌, ◌↔◌, Some, IfSome, IsSome, All, IsTrue, map};
ghost use Rattle.nl_words.specs.Row.{row_of, row_in, row_named, row_at, IsInPlace};
ghost use Rattle.nl_words.specs.Table.{ascends};

use crate::entry::Entry;
use std::marker::Model;

/// A table of `N` words, seen by contracts as the list of its rows.
#[derive(Drop)]
pub struct Words<const N: usize> {
    pub(crate) rows: &'static [Entry],
}

impl<const N: usize> Model for Words<N> {
    ghost use Rattle.std.specs.Prelude.{◌≡◌, List, map, length, IsTrue};
    ghost use Rattle.nl_words.specs.Row.{Row, row_of};
    ghost use Rattle.nl_words.specs.Table.{is_table};

    ghost Value = { List Row };

    ghost view = { λ words. map row_of words.rows.now };

    ghost invariant = { λ words. (length words.rows.now ≡ N) × IsTrue (is_table (map row_of words.rows.now)) };
}

impl<const N: usize> Words<N> {
    /// The row of the word that is written so, in lower case.
    pub fn find(&self, name: &[u8]) -> Option<&Entry>
        ensures row { row_in result ≡ row_named self.now name.now }
        ensures only { All (λ row. row.name ≡ name.now → row_in result ≡ Some row) self.now }
        ensures name { IfSome result (λ entry. entry.now.name.now ≡ name.now) }
        ensures place { IfSome result (λ entry. IsInPlace self.now entry.now) }
    {
        search(self.rows, name)
    }

    /// The row with this code.
    pub fn row(&self, code: u16) -> Option<&Entry>
        ensures row { row_in result ≡ row_at self.now code }
        ensures code { IfSome result (λ entry. entry.now.code ≡ code) }
        ensures below { IsSome result ↔ (code < N) }
    {
        self.rows.get(code as usize)
    }
}

// The row of this name among rows whose names ascend: a binary search.
fn search<'a>(rows: &'a [Entry], name: &[u8]) -> Option<&'a Entry>
    requires { IsTrue (ascends (map row_of rows.now)) }
    ensures { row_in result ≡ row_named (map row_of rows.now) name.now }
{
    match rows.binary_search_by(|row| row.name.as_bytes().cmp(name)) {
        Ok(at) => Some(&rows[at]),
        Err(_) => None,
    }
}
