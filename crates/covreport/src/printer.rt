//! The trait that texts are printed to.

/// Takes a printed text, piece by piece. After a printer couldn't take a piece, its `is_open` returns `false`.
pub trait Printer {
    ghost use Rattle.std.specs.Prelude.{◌≡◌, ◌++◌, ℕ, Bool, List};

    // The bytes of all pieces so far, in order.
    ghost text: { Self → List ℕ };

    // Whether the printer wants more pieces.
    ghost is_open: { Self → Bool };

    /// Appends a piece. A printer that can't take a piece notes this, and `is_open` returns `false` from then on.
    fn put(&mut self, piece: &[u8])
        ensures { text self.new ≡ text self.old ++ piece.now };

    /// Whether the printer wants more pieces. Returns `false` after a piece that the printer couldn't take.
    fn is_open(&self) -> bool
        ensures { result ≡ is_open self.now };
}
