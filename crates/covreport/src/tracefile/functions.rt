//! The functions of a section.

ghost use Rattle.std.specs.Prelude.{◌≡◌, ◌<◌, ◌≤◌, ◌^◌, ◌++◌, [], length, map, vec_capacity, vec_len};
ghost use Rattle.std.specs.List.{flat_map};
ghost use Rattle.covdata.specs.Printed.{printed};
ghost use Rattle.covreport.specs.FunctionView.{printed_function};
ghost use Rattle.covreport.specs.Report.{by_start, start_record, call_record, function_records, functions_hit};
ghost use Rattle.covtable.specs.ValuesView.{function_data};

use super::record::{put_call, put_start};
use super::totals::put_totals_if_any;
use crate::printer::Printer;
use covdata::{Tally, TotalKind};
use covtable::{FunctionValue, TableSection};
use std::alloc::Allocator;

/// A function as it is printed. The derived order is the order of printing: by start line, then by the bytes of the name. The names
/// in a section differ, so counts don't affect the order.
#[derive(Clone, Copy, PartialEq, Eq, PartialOrd, Ord)]
pub struct PrintedFunction<'a> {
    pub(super) line: u64,
    pub(super) name: &'a [u8],
    pub(super) count: u128,
}

impl<'a> PrintedFunction<'a> {
    /// A function of the store, as it is printed.
    fn of(function: FunctionValue<'a>) -> PrintedFunction<'a>
        ensures { printed_function result ≡ function_data function.entry }
    {
        PrintedFunction {
            line: function.line,
            name: function.name,
            count: function.count,
        }
    }
}

/// Prints the functions of a section and their totals. The buffer `functions` must have capacity for them.
pub(super) fn put_functions<'a, A: Allocator, C: TableSection<'a>, P: Printer>(
    section: &C,
    functions: &mut Vec<PrintedFunction<'a>, A>,
    out: &mut P,
)
    requires { length (C.shown section.now).functions ≤ vec_capacity functions.old }
    ensures text { P.text out.new ≡ P.text out.old ++ flat_map printed (function_records (C.shown section.now).functions) }
    ensures room { vec_capacity functions.new ≡ vec_capacity functions.old }
{
    sort_by_start_line(section, functions);
    let sorted = functions.as_slice();
    put_starts(sorted, out);
    let tally = put_calls(sorted, out);
    put_totals_if_any(TotalKind::FuncFound, TotalKind::FuncHit, tally, out);
}

/// Replaces the content of `functions` by the section's functions, in the order of printing. The list must have capacity for them.
fn sort_by_start_line<'a, A: Allocator, C: TableSection<'a>>(
    section: &C,
    functions: &mut Vec<PrintedFunction<'a>, A>,
)
    requires { length (C.shown section.now).functions ≤ vec_capacity functions.old }
    ensures all { map printed_function functions.new.items ≡ by_start (C.shown section.now).functions }
    ensures few { length functions.new.items < 2 ^ 64 }
    ensures room { vec_capacity functions.new ≡ vec_capacity functions.old }
{
    functions.clear();
    collect(section, functions);
    functions.sort_unstable();
}

/// Appends the functions of a section to the empty list `functions`, which must have capacity for them.
fn collect<'a, A: Allocator, C: TableSection<'a>>(
    section: &C,
    functions: &mut Vec<PrintedFunction<'a>, A>,
)
    requires empty { functions.old.items ≡ [] }
    requires none { vec_len functions.old ≡ 0 }
    requires room { length (C.shown section.now).functions ≤ vec_capacity functions.old }
    ensures all { map printed_function functions.new.items ≡ (C.shown section.now).functions }
    ensures few { length (C.shown section.now).functions < 2 ^ 64 }
    ensures room { vec_capacity functions.new ≡ vec_capacity functions.old }
{
    for function in section.functions() {
        functions.push_reserved(PrintedFunction::of(function));
    }
}

/// Prints the `FN` record of each function.
fn put_starts<P: Printer>(functions: &[PrintedFunction<'_>], out: &mut P)
    ensures { P.text out.new ≡ P.text out.old ++ flat_map (λ f. printed (start_record f)) (map printed_function functions.now) }
{
    for function in functions {
        put_start(function, out);
    }
}

/// Prints the `FNDA` record of each function. Returns how many functions there are, and how many have a count above 0.
fn put_calls<P: Printer>(functions: &[PrintedFunction<'_>], out: &mut P) -> Tally
    requires { length functions.now < 2 ^ 64 }
    ensures text { P.text out.new ≡ P.text out.old ++ flat_map (λ f. printed (call_record f)) (map printed_function functions.now) }
    ensures found { result.found ≡ length functions.now }
    ensures hit { result.hit ≡ functions_hit (map printed_function functions.now) }
{
    let mut tally = Tally::NONE;
    for function in functions {
        put_call(function, out);
        tally = tally.and(function.count > 0);
    }
    tally
}
