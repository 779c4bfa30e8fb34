//! New names for submissions: paths of source files by rules, and one test for all counts.
//!
//! A [`PathRule`] is made of a word `OLD=NEW`. [`NewNames`] has rules in order, and a test if there is one. [`rename`] changes the
//! names of a packed submission, and keeps its items as they are. It marks in [`UsedRules`] which rules it applied.
//!
//! A sketch, which no test runs: counts under `/build` are counted under `/src`, as those of the test `all`.
//!
//! ```text
//! let mut names = NewNames::of_test(alloc, Some(b"all"));
//! names.add(PathRule::of("/build=/src")?)?;
//! let mut used = UsedRules::none(alloc, names.rules().len())?;
//! let submission = rename(alloc, &names, submission, &mut used)?;
//! ```
#![tactic(auto)]

pub mod laws;
mod names;
mod renaming;
mod rule;
mod used;

pub use laws::{
    files_apart_stay_apart, files_that_meet_add_up, rows_get_new_names, the_first_rule_applies,
};
pub use names::NewNames;
pub use renaming::rename;
pub use rule::{PathRule, RuleFault, rest_under};
pub use used::UsedRules;
