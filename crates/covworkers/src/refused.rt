//! Rejected inputs.

use covdata::{Memory, ReadFault};
use std::alloc::{Allocator, Global};
use std::marker::Model;

/// A rejected input: its index among the inputs, counted from 0, and why it was rejected.
#[derive(Clone, Copy, Debug, PartialEq, Eq)]
pub struct RefusedInput<F = ReadFault> {
    pub index: usize,
    pub fault: F,
}

/// A list of rejected inputs. Contracts see these inputs in order.
#[derive(Drop)]
pub struct Refused<A: Allocator = Global, F: Drop = ReadFault> {
    inputs: Vec<RefusedInput<F>, A>,
}

impl<A: Allocator, F: Drop> Model for Refused<A, F> {
    ghost use Rattle.std.specs.Prelude.{List};
    ghost use Rattle.covworkers.specs.declared.refused.RefusedInput.{RefusedInput};

    ghost Value = { List (RefusedInput F) };

    ghost view = { λ a. a.inputs.items };
}

impl<A: Allocator, F: Drop> Refused<A, F> {
    ghost use Rattle.std.specs.Prelude.{◌≡◌, ◌++◌, [], ◌∷◌, IsOk, OnOk, OnErr};
    ghost use Rattle.std.specs.List.Sorted.{IsPermutation, IsNonDecreasingBy};
    ghost use Rattle.covworkers.specs.declared.refused.RefusedInput.{RefusedInput};

    /// The empty list. Never allocates.
    pub fn new(alloc: A) -> Refused<A, F>
        ensures { result ≡ [] }
    {
        Refused {
            inputs: Vec::new(alloc),
        }
    }

    /// Appends an input. On `Memory`, drops the input and leaves the list unchanged.
    pub fn push(&mut self, input: RefusedInput<F>) -> Result<(), Memory>
        ensures ok { OnOk result (self.new ≡ self.old ++ input ∷ []) }
        ensures err { OnErr result (self.new ≡ self.old) }
    {
        self.inputs.push(input)?;
        Ok(())
    }

    /// The inputs in order.
    pub fn get(&self) -> &[RefusedInput<F>]
        ensures { result.now ≡ self.now }
    {
        self.inputs.as_slice()
    }

    /// Appends the inputs of `others`. On `Memory`, drops them and leaves the list unchanged. Never fails if there are none.
    pub(crate) fn append(&mut self, mut others: Refused<A, F>) -> Result<(), Memory>
        ensures ok { OnOk result (self.new ≡ self.old ++ others) }
        ensures err { OnErr result (self.new ≡ self.old) }
        ensures nothing { others ≡ [] → IsOk result }
    {
        self.inputs.append(&mut others.inputs)?;
        Ok(())
    }

    /// Sorts the inputs by their indices.
    pub(crate) fn sort(&mut self)
        ensures same { IsPermutation self.old self.new }
        ensures ascending { IsNonDecreasingBy (λ (r : RefusedInput F). r.index) self.new }
    {
        self.inputs.as_mut_slice().sort_unstable_by_key(
            |input| -> usize
                ensures { result ≡ input.now.index }
            { input.index },
        );
    }
}
