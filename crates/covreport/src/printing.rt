//! Texts that are ready to be printed.

use crate::choice::Choice;
use crate::printer::Printer;
use crate::table::Table;
use crate::tracefile::Tracefile;
use covdata::{Bytes, Memory};
use std::alloc::Allocator;
use std::marker::Model;

/// What a text is printed from.
#[derive(Drop)]
enum PrintedFrom<'s, A: Allocator, T: Table<A>> {
    /// The chosen sections of a store.
    Sections(Tracefile<'s, A, T>),
    /// A text in memory.
    Text(Bytes<A>),
}

/// A text that is ready to be printed: all memory for printing is reserved. Contracts see the text. The text of a tracefile is made
/// piece by piece during printing.
#[derive(Drop)]
pub struct Printing<'s, A: Allocator, T: Table<A>> {
    from: PrintedFrom<'s, A, T>,
}

impl<'s, A: Allocator, T: Table<A>> Model for Printing<'s, A, T> {
    ghost use Rattle.std.specs.Prelude.{List, ℕ};
    ghost use Rattle.covreport.specs.PrintingView.{text_from};

    ghost Value = { List ℕ };

    ghost view = { λ p. text_from p.from };
}

impl<'s, A: Allocator, T: Table<A>> Printing<'s, A, T> {
    ghost use Rattle.std.specs.Prelude.{◌≡◌, ◌<◌, ◌++◌, ℕ, List, true, IfOk, OnErr};
    ghost use Rattle.covreport.specs.ChoiceView.{choice_data};
    ghost use Rattle.covreport.specs.Report.{report_text};
    ghost use Rattle.covreport.specs.Room.{most_functions};

    /// The tracefile of all chosen files, in order. If a chosen section has functions, reserves memory for the functions of one
    /// section, and otherwise never fails.
    pub fn of_store(alloc: A, store: &'s T, choice: Choice<A>) -> Result<Printing<'s, A, T>, Memory>
        ensures text { IfOk result (λ p. p ≡ report_text (choice_data choice) (T.shown store.now).sections) }
        ensures refused { OnErr result (0 < most_functions (choice_data choice) (T.shown store.now).sections) }
    {
        let tracefile = Tracefile::of(alloc, store, choice)?;
        Ok(Printing {
            from: PrintedFrom::Sections(tracefile),
        })
    }

    /// Makes a text in memory ready to be printed. Never allocates.
    pub fn of_text(text: Bytes<A>) -> Printing<'s, A, T>
        ensures { result ≡ text }
    {
        Printing {
            from: PrintedFrom::Text(text),
        }
    }

    /// Prints the text. Stops between two sections if the printer wants no more pieces. Never allocates.
    pub fn print<P: Printer>(self, printer: &mut P)
        ensures begun { (rest : List ℕ) × (P.text printer.new ++ rest ≡ P.text printer.old ++ self.entry) }
        ensures whole { P.is_open printer.new ≡ true → P.text printer.new ≡ P.text printer.old ++ self.entry }
    {
        match self.from {
            PrintedFrom::Sections(tracefile) => tracefile.print(printer),
            PrintedFrom::Text(text) => printer.put(text.get()),
        }
    }
}
