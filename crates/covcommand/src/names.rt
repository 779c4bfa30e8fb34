//! A list of names on a command line.

use covdata::Memory;
use std::alloc::Global;
use std::marker::Model;

/// A list of arguments, such as paths and patterns, in order. Contracts see a list with the bytes of each argument.
#[derive(Drop)]
pub struct Names {
    words: Vec<String>,
}

impl Model for Names {
    ghost use Rattle.std.specs.Prelude.{List, ℕ, map};
    ghost use Rattle.std.specs.String.{string_bytes};

    ghost Value = { List (List ℕ) };

    ghost view = { λ n. map string_bytes n.words.items };
}

impl Names {
    ghost use Rattle.std.specs.Prelude.{◌≡◌, ◌++◌, [], ◌∷◌, OnOk, OnErr, map};
    ghost use Rattle.std.specs.String.{string_bytes};

    /// The empty list.
    pub fn new(alloc: Global) -> Names
        ensures { result ≡ [] }
    {
        Names {
            words: Vec::new(alloc),
        }
    }

    /// Appends a name. On `Memory`, drops the name and leaves the list unchanged.
    pub fn push(&mut self, name: String) -> Result<(), Memory>
        ensures ok { OnOk result (self.new ≡ self.old ++ string_bytes name ∷ []) }
        ensures err { OnErr result (self.new ≡ self.old) }
    {
        self.words.push(name)?;
        Ok(())
    }

    /// Appends a copy of each argument of `words`, in order.
    pub(crate) fn push_copies(&mut self, alloc: Global, words: &[&str]) -> Result<(), Memory>
        ensures { OnOk result (self.new ≡ self.old ++ map (λ w. w.now) words.now) }
    {
        for word in words {
            self.push(String::from_str(alloc, word)?)?;
        }
        Ok(())
    }

    /// The names in order.
    pub fn get(&self) -> &[String]
        ensures { map string_bytes result.now ≡ self.now }
    {
        self.words.as_slice()
    }
}
