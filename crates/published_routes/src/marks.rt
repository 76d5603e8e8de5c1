//! Marks of destinations, by which their dispatches are counted.
ghost use Rattle.std.specs.Prelude.{◌≡◌, [], map, option_map, position, IfOk};
ghost use Rattle.std.specs.Str.{bytes_eq};
ghost use Rattle.published_routes.specs.Marks.{noted};

use indexmap::IndexSet;
use std::alloc::{AllocError, Global};
use std::marker::Model;

/// How many destinations have a mark.
pub const MARKS: usize = 256;

/// The destinations that have a mark, which is their place here. No one loses it.
///
/// Contracts see their bytes, in the order of their marks.
#[derive(Drop)]
pub(crate) struct Marks {
    names: IndexSet<Vec<u8>>,
}

impl Model for Marks {
    ghost use Rattle.std.specs.Prelude.{◌≤◌, ◌+◌, ℕ, List, map};
    ghost use Rattle.indexmap.specs.IndexSet.{index_set_len, spare};

    ghost Value = { List (List ℕ) };

    ghost view = { λ m. map (λ k. k.items) m.names.keys };

    ghost invariant = { λ m. (index_set_len m.names ≤ 256) × (256 ≤ index_set_len m.names + spare m.names) };
}

impl Marks {
    /// No destination has a mark yet. All the places are there.
    pub(crate) fn new(alloc: Global) -> Result<Marks, AllocError>
        ensures { IfOk result (λ m. m ≡ []) }
    {
        Ok(Marks {
            names: IndexSet::with_capacity(alloc, MARKS)?,
        })
    }

    /// The mark of a destination. None if it has none.
    pub(crate) fn of(&self, dst: &[u8]) -> Option<u8>
        ensures { result ≡ position (bytes_eq dst.now) self.now }
    {
        match self.names.get_index_of(dst) {
            Some(place) => Some(place as u8),
            None => None,
        }
    }

    /// Gives a destination the next mark, unless it has one, or none is left.
    pub(crate) fn note(&mut self, dst: Option<Vec<u8>>)
        ensures { self.new ≡ noted self.old (option_map (λ d. d.items) dst) }
    {
        let Some(dst) = dst else {
            return;
        };
        if self.names.len() >= MARKS {
            return;
        }
        if self.names.contains(dst.as_slice()) {
            return;
        }
        let Ok(_) = self.names.insert(dst) else {
            unreachable!()
        };
    }

    /// The destinations, in the order of their marks. Out of memory is the one error.
    pub(crate) fn list(&self, alloc: Global) -> Result<Vec<Vec<u8>>, AllocError>
        ensures { IfOk result (λ v. map (λ d. d.items) v.items ≡ self.now) }
    {
        let names = self.names.as_slice();
        let mut list = Vec::new(alloc);
        for name in names {
            let name = Vec::from_slice(alloc, name.as_slice())?;
            list.push(name).map_err(AllocError::from)?;
        }
        Ok(list)
    }
}
