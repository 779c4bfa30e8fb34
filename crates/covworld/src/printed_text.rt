//! The trait of texts that are printed piece by piece.

use covreport::{Printer, Printing, Table};
use std::alloc::Global;

/// A text that is printed piece by piece. Printing it never allocates.
pub trait PrintedText: Drop {
    ghost use Rattle.std.specs.Prelude.{◌≡◌, ◌++◌, ℕ, List, true};

    // The whole text.
    ghost text: { Self → List ℕ };

    /// Prints the text. May stop if the printer wants no more pieces.
    fn print_to<P: Printer>(self, printer: &mut P)
        ensures begun { (rest : List ℕ) × (P.text printer.new ++ rest ≡ P.text printer.old ++ text self) }
        ensures whole { P.is_open printer.new ≡ true → P.text printer.new ≡ P.text printer.old ++ text self };
}

impl<'s, T: Table<Global>> PrintedText for Printing<'s, Global, T> {
    ghost text = { λ t. t };

    fn print_to<P: Printer>(self, printer: &mut P) {
        self.print(printer);
    }
}
