//! Reserves memory for printing.

ghost use Rattle.std.specs.Prelude.{◌≡◌, ◌<◌, ◌≤◌, ◌∷◌, [], length, IfOk, OnErr, vec_capacity};
ghost use Rattle.covreport.specs.ChoiceView.{choice_data};
ghost use Rattle.covreport.specs.Room.{most_functions as most_functions_of};

use super::functions::PrintedFunction;
use crate::choice::Choice;
use crate::table::Table;
use covdata::Memory;
use covtable::{TableSection, TableSections};
use std::alloc::Allocator;

/// Reserves memory for the functions of any one section of the chosen files. Allocates nothing if these files have no functions.
pub(super) fn room_for_functions<'s, A: Allocator, T: Table<A>>(
    alloc: A,
    store: &'s T,
    choice: &Choice<A>,
) -> Result<Vec<PrintedFunction<'s>, A>, Memory>
    ensures room { IfOk result (λ v. most_functions_of (choice_data choice.now) (T.shown store.now).sections ≤ vec_capacity v) }
    ensures refused { OnErr result (0 < most_functions_of (choice_data choice.now) (T.shown store.now).sections) }
{
    Ok(Vec::with_capacity(alloc, store.most_functions(choice))?)
}

/// The maximum number of functions in one of the sections, if its file is chosen. Never allocates.
pub fn most_functions_in<'s, A: Allocator, I: TableSections<'s>>(
    mut sections: I,
    choice: &Choice<A>,
) -> usize
    ensures { result ≡ most_functions_of (choice_data choice.now) (I.left sections) }
{
    let mut most = 0;
    while let Some(section) = sections.next_section() {
        most = functions_to_print(&section, choice).max(most);
    }
    most
}

/// How many functions of a section are printed: all if the section's file is chosen, otherwise none.
fn functions_to_print<'s, A: Allocator, C: TableSection<'s>>(
    section: &C,
    choice: &Choice<A>,
) -> usize
    ensures { result ≡ most_functions_of (choice_data choice.now) (C.shown section.now ∷ []) }
{
    if choice.takes(section.file()) {
        count_functions(section)
    } else {
        0
    }
}

/// How many functions a section has.
fn count_functions<'s, C: TableSection<'s>>(section: &C) -> usize
    ensures { result ≡ length (C.shown section.now).functions }
{
    let mut count = 0;
    for _function in section.functions() {
        count += 1;
    }
    count
}
