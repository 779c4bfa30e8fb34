//! An iterator over the tests of a file.

use crate::boxed::Boxed;
use crate::only_test::OnlyTest;
use crate::test::Test;
use std::alloc::Allocator;
use std::collections::btree_map::Iter;
use std::marker::Model;

/// The tests that are left, in one of three forms.
#[derive(Drop)]
pub(crate) enum Left<'a, A: Allocator> {
    /// No test.
    None,
    /// One test.
    One(&'a OnlyTest<A>),
    /// The tests that are left in a map.
    Many(Iter<'a, Vec<u8, A>, Boxed<Test<A>, A>>),
}

/// An iterator over the tests of a file. Contracts see the tests that are left, with their names.
#[derive(Drop)]
pub(crate) struct NamedTests<'a, A: Allocator> {
    left: Left<'a, A>,
}

impl<'a, A: Allocator> Model for NamedTests<'a, A> {
    ghost use Rattle.std.specs.Prelude.{ℕ, List, Vec};
    ghost use Rattle.covstore.specs.TestsLeft.{tests_left};
    ghost use Rattle.covstore.specs.declared.test.Test.{Test};

    ghost Value = { List (Vec ℕ A × Test A) };

    ghost view = { λ tests. tests_left tests.left };
}

impl<'a, A: Allocator> NamedTests<'a, A> {
    ghost use Rattle.std.specs.Prelude.{◌≡◌};
    ghost use Rattle.covstore.specs.TestsLeft.{tests_left};

    /// Returns an iterator over the tests in `left`.
    pub(crate) fn of(left: Left<'a, A>) -> NamedTests<'a, A>
        ensures { result ≡ tests_left left.entry }
    {
        NamedTests { left }
    }
}

impl<'a, A: Allocator> Iterator for NamedTests<'a, A> {
    ghost use Rattle.std.specs.Iterator.{YieldsFirstBy, item_count};

    type Item = (&'a Vec<u8, A>, &'a Boxed<Test<A>, A>);

    ghost next_gives = { YieldsFirstBy (λ pair. (pair.0.now, pair.1.now)) (λ tests. tests) };

    ghost remaining = { item_count (λ tests. tests) };

    fn next(&mut self) -> Option<(&'a Vec<u8, A>, &'a Boxed<Test<A>, A>)> {
        match &mut self.left {
            Left::None => None,
            Left::One(only) => {
                let only = *only;
                self.left = Left::None;
                Some(only.named())
            }
            Left::Many(tests) => tests.next(),
        }
    }
}
