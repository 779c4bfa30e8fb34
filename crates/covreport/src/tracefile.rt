//! The merged tracefile as text (geninfo(1), section FILES). Each test with a row in a file has a section for this file.

ghost use Rattle.std.specs.Prelude.{◌≡◌, ◌≢◌, ◌<◌, ◌≤◌, ◌++◌, ℕ, List, true, false, [], ◌∷◌, length, IfOk, OnErr, vec_capacity};
ghost use Rattle.covreport.specs.ChoiceView.{choice_data};
ghost use Rattle.covreport.specs.Report.{section_text, report_text};
ghost use Rattle.covreport.specs.Put.{HasPut};
ghost use Rattle.covreport.specs.Room.{most_functions};

mod branches;
mod functions;
mod grown;
mod lines;
mod record;
mod room;
mod totals;

use self::branches::put_branches;
pub use self::functions::PrintedFunction;
use self::functions::put_functions;
use self::grown::Grown;
use self::lines::put_lines;
use self::record::{put_end, put_path, put_test};
pub use self::room::most_functions_in;
use self::room::room_for_functions;
use crate::choice::Choice;
use crate::printer::Printer;
use crate::table::Table;
use covdata::{Bytes, Memory};
use covtable::{TableSection, TableSections};
use std::alloc::Allocator;
use std::marker::Model;

/// Returns the tracefile of all chosen files, in order. Allocates the text, and memory for the functions of one section. Allocates
/// nothing if no section is chosen.
pub fn trace_text<A: Allocator + Copy, T: Table<A>>(
    alloc: A,
    store: &T,
    choice: &Choice<A>,
) -> Result<Bytes<A>, Memory>
    ensures text { IfOk result (λ t. t ≡ report_text (choice_data choice.now) (T.shown store.now).sections) }
    ensures refused { OnErr result (report_text (choice_data choice.now) (T.shown store.now).sections ≢ []) }
{
    let functions = room_for_functions(alloc, store, choice)?;
    let mut text = Grown::new(alloc);
    put_chosen(store, choice, functions, &mut text);
    text.into_text()
}

/// A tracefile that is ready to be printed, with reserved capacity for the functions of any one section. Contracts see the text.
#[derive(Drop)]
pub(crate) struct Tracefile<'s, A: Allocator, T: Table<A>> {
    store: &'s T,
    choice: Choice<A>,
    functions: Vec<PrintedFunction<'s>, A>,
}

impl<'s, A: Allocator, T: Table<A>> Model for Tracefile<'s, A, T> {
    ghost use Rattle.std.specs.Prelude.{List, ℕ, ◌≤◌, vec_capacity};
    ghost use Rattle.covreport.specs.ChoiceView.{choice_data};
    ghost use Rattle.covreport.specs.Report.{report_text};
    ghost use Rattle.covreport.specs.Room.{most_functions};

    ghost Value = { List ℕ };

    ghost view = { λ t. report_text (choice_data t.choice) (T.shown t.store.now).sections };

    ghost invariant = { λ t. most_functions (choice_data t.choice) (T.shown t.store.now).sections ≤ vec_capacity t.functions };
}

impl<'s, A: Allocator, T: Table<A>> Tracefile<'s, A, T> {
    /// Reserves capacity to print the tracefile of all chosen files, in order. Allocates nothing if these files have no functions.
    pub(crate) fn of(
        alloc: A,
        store: &'s T,
        choice: Choice<A>,
    ) -> Result<Tracefile<'s, A, T>, Memory>
        ensures text { IfOk result (λ t. t ≡ report_text (choice_data choice) (T.shown store.now).sections) }
        ensures refused { OnErr result (0 < most_functions (choice_data choice) (T.shown store.now).sections) }
    {
        let functions = room_for_functions(alloc, store, &choice)?;
        Ok(Tracefile {
            store,
            choice,
            functions,
        })
    }

    /// Prints the text. Stops between two sections if the printer wants no more pieces. Never allocates.
    pub(crate) fn print<P: Printer>(self, out: &mut P)
        ensures begun { (rest : List ℕ) × (P.text out.new ++ rest ≡ P.text out.old ++ self.entry) }
        ensures whole { P.is_open out.new ≡ true → P.text out.new ≡ P.text out.old ++ self.entry }
        ensures stops { P.is_open out.old ≡ false → P.text out.new ≡ P.text out.old }
    {
        let Tracefile {
            store,
            choice,
            functions,
        } = self;
        put_chosen(store, &choice, functions, out);
    }
}

/// Prints the sections of all chosen files, until the printer wants no more pieces. `functions` is a buffer, which must have
/// capacity for the functions of any one section.
fn put_chosen<'s, A: Allocator, T: Table<A>, P: Printer>(
    store: &'s T,
    choice: &Choice<A>,
    mut functions: Vec<PrintedFunction<'s>, A>,
    out: &mut P,
)
    requires { most_functions (choice_data choice.now) (T.shown store.now).sections ≤ vec_capacity functions }
    ensures begun { (rest : List ℕ) × (P.text out.new ++ rest ≡ P.text out.old ++ report_text (choice_data choice.now) (T.shown store.now).sections) }
    ensures whole { P.is_open out.new ≡ true → P.text out.new ≡ P.text out.old ++ report_text (choice_data choice.now) (T.shown store.now).sections }
    ensures stops { P.is_open out.old ≡ false → P.text out.new ≡ P.text out.old }
{
    store.put_sections(choice, &mut functions, out);
}

/// Prints those of the sections whose file is chosen, until the printer wants no more pieces. `functions` is a buffer, which must
/// have capacity for the functions of any one section. Never allocates.
pub fn put_sections<'s, A: Allocator, I: TableSections<'s>, P: Printer>(
    mut sections: I,
    choice: &Choice<A>,
    functions: &mut Vec<PrintedFunction<'s>, A>,
    out: &mut P,
)
    requires { most_functions (choice_data choice.now) (I.left sections) ≤ vec_capacity functions.old }
    ensures { HasPut P.text P.is_open out.old out.new (report_text (choice_data choice.now) (I.left sections)) }
{
    while let Some(section) = sections.next_section() {
        if !put_if_wanted(&section, choice, functions, out) {
            return;
        }
    }
}

/// Prints a section, if the printer wants more pieces and the section's file is chosen. Returns whether the printer wanted more.
fn put_if_wanted<'s, A: Allocator, C: TableSection<'s>, P: Printer>(
    section: &C,
    choice: &Choice<A>,
    functions: &mut Vec<PrintedFunction<'s>, A>,
    out: &mut P,
) -> bool
    requires { most_functions (choice_data choice.now) (C.shown section.now ∷ []) ≤ vec_capacity functions.old }
    ensures text { result ≡ true → P.text out.new ≡ P.text out.old ++ report_text (choice_data choice.now) (C.shown section.now ∷ []) }
    ensures same { result ≡ false → P.text out.new ≡ P.text out.old }
    ensures closed { result ≡ false → P.is_open out.new ≡ false }
    ensures stops { P.is_open out.old ≡ false → result ≡ false }
    ensures room { vec_capacity functions.new ≡ vec_capacity functions.old }
{
    if !out.is_open() {
        return false;
    }
    put_if_chosen(section, choice, functions, out);
    true
}

/// Prints a section, if its file is chosen.
fn put_if_chosen<'s, A: Allocator, C: TableSection<'s>, P: Printer>(
    section: &C,
    choice: &Choice<A>,
    functions: &mut Vec<PrintedFunction<'s>, A>,
    out: &mut P,
)
    requires { most_functions (choice_data choice.now) (C.shown section.now ∷ []) ≤ vec_capacity functions.old }
    ensures text { P.text out.new ≡ P.text out.old ++ report_text (choice_data choice.now) (C.shown section.now ∷ []) }
    ensures room { vec_capacity functions.new ≡ vec_capacity functions.old }
{
    if !choice.takes(section.file()) {
        return;
    }
    put_section(section, functions, out);
}

/// Prints a section.
fn put_section<'s, A: Allocator, C: TableSection<'s>, P: Printer>(
    section: &C,
    functions: &mut Vec<PrintedFunction<'s>, A>,
    out: &mut P,
)
    requires { length (C.shown section.now).functions ≤ vec_capacity functions.old }
    ensures text { P.text out.new ≡ P.text out.old ++ section_text (C.shown section.now) }
    ensures room { vec_capacity functions.new ≡ vec_capacity functions.old }
{
    put_test(section.test(), out);
    put_path(section.file(), out);
    put_functions(section, functions, out);
    put_branches(section, out);
    put_lines(section, out);
    put_end(out);
}
