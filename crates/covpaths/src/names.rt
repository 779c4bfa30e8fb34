//! New names for the sections of submissions.

use crate::rule::PathRule;
use covdata::{Bytes, Memory};
use std::alloc::Global;
use std::marker::Model;

/// New names for the sections of submissions: rules for the paths of source files, and the test that all counts get, if there is one.
/// Contracts see both.
#[derive(Drop)]
pub struct NewNames<'a> {
    rules: Vec<PathRule<'a>>,
    test: Option<&'a [u8]>,
}

impl<'a> Model for NewNames<'a> {
    ghost use Rattle.std.specs.Prelude.{option_map};
    ghost use Rattle.covpaths.specs.Names.{AreGoodNames, NamesData};

    ghost Value = { NamesData };

    ghost view = { λ n. record { rules = n.rules.items; test = option_map (λ test. test.now) n.test } };

    ghost invariant = { λ n. AreGoodNames (record { rules = n.rules.items; test = option_map (λ test. test.now) n.test }) };
}

/// The path that a rule gives, and the rule's place.
#[derive(Drop)]
pub(crate) struct Mapped {
    /// The place of the rule.
    pub(crate) rule: usize,
    /// The path.
    pub(crate) path: Bytes,
}

impl<'a> NewNames<'a> {
    ghost use Rattle.std.specs.Prelude.{◌≡◌, ◌++◌, [], ◌∷◌, option_map, IfOk, OnErr, OnOk};
    ghost use Rattle.covpaths.specs.Names.{AreGoodNames, IsGoodTestIfAny};
    ghost use Rattle.covpaths.specs.Paths.{IsGoodRule, first_mapped};
    ghost use Rattle.covpaths.specs.Steps.{mapped_data};

    /// No rules, and the test that all counts get, which fits into a line. With `None` each count keeps its test. Never allocates.
    pub fn of_test(alloc: Global, test: Option<&'a [u8]>) -> NewNames<'a>
        requires { IsGoodTestIfAny (option_map (λ name. name.now) test) }
        ensures rules { result.rules ≡ [] }
        ensures test { result.test ≡ option_map (λ name. name.now) test.entry }
    {
        NewNames {
            rules: Vec::new(alloc),
            test,
        }
    }

    /// Appends a rule. Leaves the rules unchanged on `Memory`.
    pub fn add(&mut self, rule: PathRule<'a>) -> Result<(), Memory>
        requires { IsGoodRule rule }
        ensures test { self.new.test ≡ self.old.test }
        ensures ok { OnOk result (self.new.rules ≡ self.old.rules ++ rule.entry ∷ []) }
        ensures err { OnErr result (self.new.rules ≡ self.old.rules) }
    {
        self.rules.push(rule)?;
        Ok(())
    }

    /// The rules in order.
    pub fn rules(&self) -> &[PathRule<'a>]
        ensures rules { result.now ≡ self.now.rules }
        ensures good { AreGoodNames self.now }
    {
        self.rules.as_slice()
    }

    /// The test that all counts get, or `None` if each keeps its own.
    pub fn test(&self) -> Option<&'a [u8]>
        ensures test { option_map (λ name. name.now) result ≡ self.now.test }
        ensures good { AreGoodNames self.now }
    {
        self.test
    }

    /// The path that the first rule that applies gives a source file, or `None` if no rule applies.
    pub(crate) fn map(&self, alloc: Global, path: &[u8]) -> Result<Option<Mapped>, Memory>
        ensures { IfOk result (λ mapped. option_map mapped_data mapped ≡ first_mapped self.now.rules path.now) }
    {
        for place in 0..self.rules.len() {
            if let Some(path) = self.rules[place].map(alloc, path)? {
                return Ok(Some(Mapped { rule: place, path }));
            }
        }
        Ok(None)
    }
}
