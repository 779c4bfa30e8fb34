//! Names of files that only proofs see.

ghost use Rattle.std.specs.Prelude.{◌≡◌, ◌++◌, ◌∷◌, [], List, ℕ, map};
ghost use Rattle.std.specs.Borrow.{ftrue};
ghost use Rattle.std.specs.String.{string_bytes};
ghost use Rattle.covworld.specs.OutputFiles.{path_in};

use crate::named_file::{PlacedFile, PlacedFolder};
use std::marker::Model;

/// The names of placed files, in order. They exist only in proofs, and use neither memory nor time.
#[derive(Drop)]
pub struct PlacedNames {
    ghost all: { List (List ℕ) },
}

impl Model for PlacedNames {
    ghost also_owns = { λ _. ftrue };
}

/// A name.
#[derive(Clone, Copy)]
struct Name<'a> {
    bytes: &'a [u8],
}

impl PlacedNames {
    /// No names.
    pub(crate) fn none() -> PlacedNames
        ensures { result.all ≡ [] }
    {
        PlacedNames {}
    }

    /// Returns these names followed by that of `file`.
    pub(crate) fn and(&self, file: PlacedFile) -> PlacedNames
        ensures { result.all ≡ self.now.all ++ string_bytes file.name ∷ [] }
    {
        let name = file.name().as_bytes();
        PlacedNames::with(self, &Name { bytes: name })
    }

    /// Returns these names followed by those of the folder's files.
    pub(crate) fn and_folder(&self, folder: PlacedFolder) -> PlacedNames
        ensures { result.all ≡ self.now.all ++ map (path_in (string_bytes folder.name)) folder.files.all }
    {
        let name = folder.name().as_bytes();
        PlacedNames::with_files(self, &Name { bytes: name }, folder.files())
    }

    /// Returns these names followed by `name`.
    pub(crate) fn and_name(&self, name: &str) -> PlacedNames
        ensures { result.all ≡ self.now.all ++ name.now ∷ [] }
    {
        PlacedNames::with(
            self,
            &Name {
                bytes: name.as_bytes(),
            },
        )
    }

    /// Returns the names of `_before` followed by those of `_files`, which lie in the folder called `_name`.
    fn with_files(_before: &PlacedNames, _name: &Name<'_>, _files: &PlacedNames) -> PlacedNames
        ensures { result.all ≡ _before.now.all ++ map (path_in _name.now.bytes.now) _files.now.all }
    {
        PlacedNames {}
    }

    /// Returns the names of `_before` followed by `_name`.
    fn with(_before: &PlacedNames, _name: &Name<'_>) -> PlacedNames
        ensures { result.all ≡ _before.now.all ++ _name.now.bytes.now ∷ [] }
    {
        PlacedNames {}
    }
}
