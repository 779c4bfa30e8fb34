//! What a table of counts is: its content, its totals, the values of its points, and the iterators over a store.
//!
//! A table is the list of all accepted submissions, each as a list of rows. A row is an item with its source file and its test. A
//! store, such as covstore's `Store`, represents a table and keeps only what the rows add up to. covreport's trait `Table` has the
//! calls of a store. The definitions of this crate say what the rows add up to. They speak of rows alone, so they hold for every
//! store:
//!
//! - `Value` and `Content`: the value of each point, and a section for each file and test (lcov(1), --add-tracefile);
//! - `Totals`, `TotalsSteps`, `Counted` and `Files`: how many points are found and how many are hit, in all files or in each file;
//! - `Clash` and `Refuse`: which submissions are rejected, and with which of their checksums;
//! - `Without` and `Renamed`: a table after a test is dropped or renamed;
//! - `Shown`: which tables a store represents.
//!
//! [`laws`] has theorems about these definitions. For example, the content doesn't depend on the order of the submissions.
//!
//! Callers of a store get its values in the types of this crate: [`LineValue`], [`FunctionValue`] and [`BranchValue`] for points,
//! [`Totals`] and [`FileTotals`] for sums, and [`Refuse`] for a rejected submission.
#![tactic(auto)]

pub mod laws;
mod refuse;
mod sections;
mod totals;
mod values;

pub use refuse::Refuse;
pub use sections::{TableFiles, TableSection, TableSections};
pub use totals::{FileTotals, Totals};
pub use values::{BranchValue, FunctionValue, LineValue};
