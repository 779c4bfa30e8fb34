//! The only test of a file.

ghost use Rattle.std.specs.Prelude.{◌≡◌, Some, None, ◌∷◌, [], IfErr, IfOk, OnErr, OnOk, option_copied, option_map};
ghost use Rattle.std.specs.BTreeMap.{is_at};
ghost use Rattle.std.specs.Borrow.{sem};
ghost use Rattle.std.specs.Cmp.Lexicographic.{slice_cmp};
ghost use Rattle.std.specs.List.Sorted.{IsStrictlySortedBy};
ghost use Rattle.std.specs.Map.{keys_of, lookup, remove_entry};
ghost use Rattle.std.specs.Option.{is_some};
ghost use Rattle.std.specs.Ordering.{nat_cmp};
ghost use Rattle.covstore.specs.TestsLends.{lends_only};

use crate::boxed::Boxed;
use crate::test::Test;
use std::alloc::Allocator;
use std::collections::BTreeMap;
use std::marker::Model;

/// The only test of a file, with its name. Contracts see a list of one test.
#[derive(Drop)]
pub(crate) struct OnlyTest<A: Allocator> {
    name: Vec<u8, A>,
    points: Boxed<Test<A>, A>,
}

impl<A: Allocator> Model for OnlyTest<A> {
    ghost use Rattle.std.specs.Prelude.{◌∷◌, []};
    ghost use Rattle.covstore.specs.FileParts.{FileTests};

    ghost Value = { FileTests A };

    ghost view = { λ only. record { entries = (only.name, only.points) ∷ [] } };
}

impl<A: Allocator> OnlyTest<A> {
    /// Makes the only test of a file from the test's name and points.
    pub(crate) fn of(name: Vec<u8, A>, points: Boxed<Test<A>, A>) -> OnlyTest<A>
        ensures { result.entries ≡ (name, points) ∷ [] }
    {
        OnlyTest { name, points }
    }

    /// The name and the test.
    pub(crate) fn named(&self) -> (&Vec<u8, A>, &Boxed<Test<A>, A>)
        ensures { self.now.entries ≡ (result.0.now, result.1.now) ∷ [] }
    {
        (&self.name, &self.points)
    }

    /// Whether the test has this name.
    pub(crate) fn is_named(&self, name: &[u8]) -> bool
        ensures { result ≡ is_some (lookup (is_at (λ other. slice_cmp nat_cmp name.now other.items)) self.now.entries) }
    {
        name.cmp(self.name.as_slice()).is_eq()
    }

    /// The test, if it has this name.
    pub(crate) fn get(&self, name: &[u8]) -> Option<&Boxed<Test<A>, A>>
        ensures value { option_copied result ≡ lookup (is_at (λ other. slice_cmp nat_cmp name.now other.items)) self.now.entries }
    {
        if self.is_named(name) {
            return Some(&self.points);
        }
        None
    }

    /// The test, mutable, if it has this name. By the clause `ordered`, the names ascend.
    pub(crate) fn get_mut(&mut self, name: &[u8]) -> Option<&mut Boxed<Test<A>, A>>
        ensures* writes_back { sem 𝓛 (lends_only A.row A.Allocator self.entry name.now result) }
        ensures value { option_map (λ points. points.now) result ≡ lookup (is_at (λ other. slice_cmp nat_cmp name.now other.items)) self.old.entries }
        ensures ordered { IsStrictlySortedBy (λ a b. slice_cmp nat_cmp a.items b.items) (keys_of self.old.entries) }
    {
        if self.is_named(name) {
            return Some(&mut self.points);
        }
        None
    }
}

impl<A: Allocator + Copy> OnlyTest<A> {
    /// Makes a map with this test alone. If an allocation fails, returns `self` as the error.
    pub(crate) fn into_map(
        self,
        alloc: A,
    ) -> Result<BTreeMap<Vec<u8, A>, Boxed<Test<A>, A>, A>, OnlyTest<A>>
        ensures ok { IfOk result (λ tests. tests.entries ≡ self.entries) }
        ensures err { IfErr result (λ back. back ≡ self) }
    {
        let OnlyTest { name, points } = self;
        let mut tests = BTreeMap::new(alloc);
        match tests.insert(name, points) {
            Ok(_) => Ok(tests),
            Err(refused) => {
                let (name, points) = refused.value;
                Err(OnlyTest { name, points })
            }
        }
    }

    /// Returns the test if it has this name, else `self` as the error.
    pub(crate) fn take(self, name: &[u8]) -> Result<Boxed<Test<A>, A>, OnlyTest<A>>
        ensures ok { IfOk result (λ points. lookup (is_at (λ other. slice_cmp nat_cmp name.now other.items)) self.entries ≡ Some points) }
        ensures nothing_left { OnOk result (remove_entry (is_at (λ other. slice_cmp nat_cmp name.now other.items)) self.entries ≡ []) }
        ensures err { IfErr result (λ back. back ≡ self) }
        ensures missing { OnErr result (lookup (is_at (λ other. slice_cmp nat_cmp name.now other.items)) self.entries ≡ None) }
        ensures stays { OnErr result (remove_entry (is_at (λ other. slice_cmp nat_cmp name.now other.items)) self.entries ≡ self.entries) }
    {
        if self.is_named(name) {
            let OnlyTest { points, .. } = self;
            return Ok(points);
        }
        Err(self)
    }
}
