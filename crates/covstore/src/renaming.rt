//! A rename that a store is prepared to perform.

use std::alloc::{Allocator, Global};
use std::marker::Model;

/// A prepared rename: the number of sections of the old test, and the old test's name if the commit drops that test. The old test's
/// values are staged in the store, under the new name. Contracts see the number and the name.
#[derive(Drop)]
pub struct Renaming<A: Allocator = Global> {
    sections: u64,
    leaves: Option<Vec<u8, A>>,
}

impl<A: Allocator> Model for Renaming<A> {
    ghost use Rattle.std.specs.Prelude.{option_map};
    ghost use Rattle.covstore.specs.Renaming.{RenamingData};

    ghost Value = { RenamingData };

    ghost view = { λ r. record { sections = r.sections; leaves = option_map (λ name. name.items) r.leaves } };
}

impl<A: Allocator> Renaming<A> {
    ghost use Rattle.std.specs.Prelude.{◌≡◌, Some, None, option_map};

    /// Returns a rename that changes nothing, since both names are equal, or no file has points of the old test. `sections` is the
    /// number of sections of the old test.
    pub(crate) fn none(sections: u64) -> Renaming<A>
        ensures sections { result.sections ≡ sections }
        ensures leaves { result.leaves ≡ None }
    {
        Renaming {
            sections,
            leaves: None,
        }
    }

    /// Returns a rename whose commit drops the old test. `leaves` is the old test's name. The test's values must be staged under
    /// the new name.
    pub(crate) fn of(sections: u64, leaves: Vec<u8, A>) -> Renaming<A>
        ensures sections { result.sections ≡ sections }
        ensures leaves { result.leaves ≡ Some leaves.items }
    {
        Renaming {
            sections,
            leaves: Some(leaves),
        }
    }

    /// The number of sections of the old test. Never allocates.
    pub fn sections(&self) -> u64
        ensures { result ≡ self.now.sections }
    {
        self.sections
    }

    /// The name of the test that the commit drops, if it drops one.
    pub(crate) fn leaves(&self) -> Option<&[u8]>
        ensures { option_map (λ name. name.now) result ≡ self.now.leaves }
    {
        match &self.leaves {
            Some(name) => Some(name.as_slice()),
            None => None,
        }
    }
}
