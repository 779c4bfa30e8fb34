//! Boxed values of a map.

ghost use Rattle.std.specs.Prelude.{◌≡◌, IfOk};
ghost use Rattle.std.specs.Borrow.{sem};

use std::alloc::{AllocError, Allocator};
use std::marker::Model;

/// A boxed value. A map node has capacity for fifteen values and is half full on average, so a map of boxes wastes less memory than
/// a map of values. Contracts see the value.
#[derive(Drop)]
pub(crate) struct Boxed<T, A: Allocator> {
    value: Box<T, A>,
}

impl<T, A: Allocator> Model for Boxed<T, A> {
    ghost Value = { T };

    ghost view = { λ boxed. boxed.value.value };
}

impl<T: Drop, A: Allocator> Boxed<T, A> {
    /// Puts a value into a box.
    pub(crate) fn new(alloc: A, value: T) -> Result<Boxed<T, A>, AllocError>
        ensures { IfOk result (λ boxed. boxed ≡ value) }
    {
        let value = Box::new(alloc, value)?;
        Ok(Boxed { value })
    }
}

impl<T, A: Allocator> Boxed<T, A> {
    ghost use Rattle.covstore.specs.BoxedLends.{lends_value};

    /// The value itself.
    pub(crate) fn get(&self) -> &T
        ensures { result.now ≡ self.now }
    {
        &*self.value
    }

    /// The value itself, mutable.
    pub(crate) fn get_mut(&mut self) -> &mut T
        ensures* writes_back { sem 𝓛 (lends_value T.row A.row A.Allocator self.entry result) }
        ensures value { result.now ≡ self.old }
    {
        &mut *self.value
    }
}
