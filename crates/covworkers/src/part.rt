//! Parts of inputs that are read when their turn comes.

use crate::given::Given;
use std::alloc::{Allocator, Global};

/// A part of an input, ready to be submitted, and the rest of the input.
#[derive(Drop)]
pub enum Part<T, A: Allocator = Global> {
    /// The last part.
    Last(Given<A>),
    /// A part, and the rest of the input.
    More(Given<A>, T),
}
