ghost use Rattle.std.specs.Prelude.{◌≡◌, ◌↔◌, IfOk, OnOk, OnErr, IsOk, IsTrue, ◌++◌, [], decimal, length, take};

use crate::memory::Memory;
use itoa::Buffer;
use std::alloc::{Allocator, Global};
use std::marker::Model;

/// An owned byte string: a name, a path, a checksum or a whole text. Contracts see the list of bytes.
#[derive(Drop)]
pub struct Bytes<A: Allocator = Global> {
    text: Vec<u8, A>,
}

impl<A: Allocator> Model for Bytes<A> {
    ghost use Rattle.std.specs.Prelude.{List, ℕ};

    ghost Value = { List ℕ };

    ghost view = { λ b. b.text.items };
}

impl<A: Allocator> Bytes<A> {
    /// The empty text.
    pub fn new(alloc: A) -> Bytes<A>
        ensures { result ≡ [] }
    {
        Bytes {
            text: Vec::new(alloc),
        }
    }

    /// The empty text, with capacity for `bytes` bytes. Appending within the capacity never allocates. Never fails if `bytes` is 0.
    pub fn with_room(alloc: A, bytes: usize) -> Result<Bytes<A>, Memory>
        ensures empty { IfOk result (λ b. b ≡ []) }
        ensures nothing { bytes ≡ 0 → IsOk result }
    {
        Ok(Bytes {
            text: Vec::with_capacity(alloc, bytes)?,
        })
    }

    /// A copy of the slice.
    pub fn of(alloc: A, text: &[u8]) -> Result<Bytes<A>, Memory>
        ensures { IfOk result (λ b. b ≡ text.now) }
    {
        Ok(Bytes {
            text: Vec::from_slice(alloc, text)?,
        })
    }

    /// The bytes.
    pub fn get(&self) -> &[u8]
        ensures { result.now ≡ self.now }
    {
        self.text.as_slice()
    }

    /// The number of bytes.
    pub fn len(&self) -> usize
        ensures { result ≡ length self.now }
    {
        self.text.len()
    }

    /// Appends the bytes of `more`. Leaves the text unchanged on `Memory`. Never fails if `more` is empty.
    pub fn append(&mut self, more: &[u8]) -> Result<(), Memory>
        ensures ok { OnOk result (self.new ≡ self.old ++ more.now) }
        ensures err { OnErr result (self.new ≡ self.old) }
        ensures nothing { more.now ≡ [] → IsOk result }
    {
        self.text.extend_from_slice(more)?;
        Ok(())
    }

    /// Appends a number in decimal. Leaves the text unchanged on `Memory`.
    pub fn append_number(&mut self, number: u64) -> Result<(), Memory>
        ensures ok { OnOk result (self.new ≡ self.old ++ decimal number) }
        ensures err { OnErr result (self.new ≡ self.old) }
    {
        append_number(&mut self.text, number)
    }

    /// Shortens the text to at most `len` bytes.
    pub fn truncate(&mut self, len: usize)
        ensures { self.new ≡ take len self.old }
    {
        self.text.truncate(len);
    }

    /// Whether the other text has the same bytes. Never allocates.
    pub fn is_same(&self, other: &Bytes<A>) -> bool
        ensures { IsTrue result ↔ (self.now ≡ other.now) }
    {
        self.get() == other.get()
    }

    /// Copies the text.
    pub fn copy(&self, alloc: A) -> Result<Bytes<A>, Memory>
        ensures { IfOk result (λ b. b ≡ self.now) }
    {
        Bytes::of(alloc, self.get())
    }
}

/// Appends a number in decimal. Leaves the text unchanged on `Memory`.
pub fn append_number<A: Allocator>(text: &mut Vec<u8, A>, number: u64) -> Result<(), Memory>
    ensures ok { OnOk result (text.new.items ≡ text.old.items ++ decimal number) }
    ensures err { OnErr result (text.new.items ≡ text.old.items) }
{
    text.extend_from_slice(Buffer::new().format(number).as_bytes())?;
    Ok(())
}
