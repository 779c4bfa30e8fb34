//! Bytes that only proofs see.

ghost use Rattle.std.specs.Prelude.{◌≡◌, ◌++◌, [], List, ℕ};
ghost use Rattle.std.specs.Borrow.{ftrue};

use std::marker::Model;

/// Bytes that exist only in proofs, and use neither memory nor time. A printer can note all its pieces as such bytes.
#[derive(Drop)]
pub struct Noted {
    pub ghost bytes: { List ℕ },
}

impl Model for Noted {
    ghost also_owns = { λ _. ftrue };
}

/// A piece of a text.
#[derive(Clone, Copy)]
struct Piece<'a> {
    bytes: &'a [u8],
}

impl Noted {
    /// No bytes.
    pub fn none() -> Noted
        ensures { result.bytes ≡ [] }
    {
        Noted {}
    }

    /// Returns these bytes followed by `piece`.
    #[inline]
    pub fn and(&self, piece: &[u8]) -> Noted
        ensures { result.bytes ≡ self.now.bytes ++ piece.now }
    {
        Noted::with(self, &Piece { bytes: piece })
    }

    /// Returns the bytes of `_before` followed by those of `_piece`.
    #[inline]
    fn with(_before: &Noted, _piece: &Piece<'_>) -> Noted
        ensures { result.bytes ≡ _before.now.bytes ++ _piece.now.bytes.now }
    {
        Noted {}
    }
}
