//! A buffer of bytes to be written.

use std::alloc::{AllocError, Global};
use std::marker::Model;

/// The capacity of a block, in bytes.
pub(crate) const BLOCK_BYTES: usize = 65_536;

/// A buffer of up to 65,536 bytes to be written. `new` reserves its whole capacity. Contracts see the bytes.
#[derive(Drop)]
pub(crate) struct Block {
    bytes: Vec<u8>,
}

impl Model for Block {
    ghost use Rattle.std.specs.Prelude.{◌≤◌, ℕ, List, length, vec_capacity};

    ghost Value = { List ℕ };

    ghost view = { λ b. b.bytes.items };

    ghost invariant = { λ b. (length b.bytes.items ≤ 65536) × (65536 ≤ vec_capacity b.bytes) };
}

impl Block {
    ghost use Rattle.std.specs.Prelude.{◌≡◌, ◌+◌, ◌≤◌, ◌++◌, [], length, IfOk};

    /// An empty block.
    pub(crate) fn new(alloc: Global) -> Result<Block, AllocError>
        ensures { IfOk result (λ block. block ≡ []) }
    {
        let bytes = Vec::with_capacity(alloc, BLOCK_BYTES)?;
        Ok(Block { bytes })
    }

    /// The buffered bytes.
    pub(crate) fn get(&self) -> &[u8]
        ensures { result.now ≡ self.now }
    {
        self.bytes.as_slice()
    }

    /// How many more bytes fit.
    #[inline]
    pub(crate) fn room(&self) -> usize
        ensures { length self.now + result ≡ 65536 }
    {
        BLOCK_BYTES - self.bytes.len()
    }

    /// Appends the bytes, which must fit.
    #[inline]
    pub(crate) fn append(&mut self, bytes: &[u8])
        requires { length self.old + length bytes.now ≤ 65536 }
        ensures { self.new ≡ self.old ++ bytes.now }
    {
        match self.bytes.extend_from_slice(bytes) {
            Ok(()) => {}
            Err(_) => unreachable!(),
        }
    }

    /// Removes all bytes and keeps the capacity.
    pub(crate) fn clear(&mut self)
        ensures { self.new ≡ [] }
    {
        self.bytes.clear();
    }
}
