//! A printer that collects a text in memory.

ghost use Rattle.std.specs.Prelude.{◌≡◌, ◌≢◌, ◌++◌, [], true, false};

use crate::noted::Noted;
use crate::printer::Printer;
use covdata::{Bytes, Memory};
use std::alloc::Allocator;

/// A text that grows as it is printed, until an allocation fails.
#[derive(Drop)]
pub(super) struct Grown<A: Allocator> {
    text: Bytes<A>,
    is_whole: bool,
    put: Noted,
    ghost whole: { is_whole ≡ true → text ≡ put.bytes },
    ghost cut: { is_whole ≡ false → put.bytes ≢ [] },
}

impl<A: Allocator> Grown<A> {
    ghost use Rattle.std.specs.Prelude.{◌≡◌, ◌≢◌, [], true, false, IfOk, OnOk, OnErr};

    /// The empty text. Never allocates.
    pub(super) fn new(alloc: A) -> Grown<A>
        ensures empty { result.put.bytes ≡ [] }
        ensures whole { result.is_whole ≡ true }
    {
        Grown {
            text: Bytes::new(alloc),
            is_whole: true,
            put: Noted::none(),
        }
    }

    /// Returns the whole text, or `Memory` if an allocation failed.
    pub(super) fn into_text(self) -> Result<Bytes<A>, Memory>
        ensures ok { IfOk result (λ t. t ≡ self.put.bytes) }
        ensures whole { OnOk result (self.is_whole ≡ true) }
        ensures refused { OnErr result (self.put.bytes ≢ []) }
        ensures cause { OnErr result (self.is_whole ≡ false) }
    {
        if self.is_whole {
            Ok(self.text)
        } else {
            Err(Memory)
        }
    }
}

impl<A: Allocator> Printer for Grown<A> {
    ghost text = { λ g. g.put.bytes };

    ghost is_open = { λ g. g.is_whole };

    #[inline]
    fn put(&mut self, piece: &[u8]) {
        self.is_whole = grow(&mut self.text, self.is_whole, piece);
        self.put = self.put.and(piece);
    }

    fn is_open(&self) -> bool {
        self.is_whole
    }
}

/// Appends the piece, unless an earlier allocation failed (`is_whole` is `false`). Returns whether the text is still whole.
#[inline]
fn grow<A: Allocator>(text: &mut Bytes<A>, is_whole: bool, piece: &[u8]) -> bool
    ensures whole { result ≡ true → text.new ≡ text.old ++ piece.now }
    ensures was { result ≡ true → is_whole ≡ true }
    ensures refused { result ≡ false → is_whole ≡ true → piece.now ≢ [] }
{
    is_whole && text.append(piece).is_ok()
}
