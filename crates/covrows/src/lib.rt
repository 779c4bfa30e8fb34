//! A table of counts as a plain list of rows, for tests.
//!
//! [`Rows`] implements covreport's trait `Table`. It keeps each row of each accepted submission, so it is nearly the definition of a
//! table itself. Whatever is asked of it is read off the rows anew, in time that grows with the square of their number. A test of a
//! crate over `Table` can use it in place of a true store.
#![tactic(auto)]

mod as_table;
mod clash;
mod content;
mod copies;
mod counts;
mod files;
mod key;
mod next;
mod row;
mod rows;
mod said;
mod selection;
mod values;

pub use rows::{Plan, Renaming, Rows};
