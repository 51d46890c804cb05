//! Tables of names.
ghost use Rattle.std.specs.Prelude.{◌≡◌, ◌↔◌, ◌<◌, Some, map, length, slice_get, IsSome, Contains};
ghost use Rattle.lb_rows.specs.Names.{place_of};

use std::marker::Model;

/// A table of `N` names, in any order. It is seen as the list of its names, and is a handle of an array of texts that
/// stands once in the program.
#[derive(Drop)]
pub struct Rows<const N: usize> {
    names: &'static [&'static str],
}

impl<const N: usize> Model for Rows<N> {
    ghost use Rattle.std.specs.Prelude.{◌≡◌, List, ℕ, map, length};

    ghost Value = { List (List ℕ) };

    ghost view = { λ rows. map (λ name. name.now) rows.names.now };

    ghost invariant = { λ rows. length rows.names.now ≡ N };
}

impl<const N: usize> Rows<N> {
    /// The table of these names.
    pub fn new(names: &'static [&'static str]) -> Rows<N>
        requires { length names.now ≡ N }
        ensures { result ≡ map (λ name. name.now) names.now }
    {
        Rows { names }
    }

    /// The place of the first row with the name, counted from 0; none where no row has it. It looks at one row after
    /// another.
    pub fn find(&self, name: &[u8]) -> Option<usize>
        ensures first { result ≡ place_of self.now name.now }
        ensures found { IsSome result ↔ Contains self.now name.now }
    {
        for (place, row) in self.names.iter().enumerate() {
            if row.as_bytes() == name {
                return Some(place);
            }
        }
        None
    }

    /// The name of a row, by its place, counted from 0.
    pub fn name(&self, place: usize) -> &'static str
        requires { place < N }
        ensures { slice_get self.now place ≡ Some result.now }
    {
        let names = self.names;
        names[place]
    }
}
