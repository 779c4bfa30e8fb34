//! Thresholds for rates of points hit, and lines about totals below their thresholds.
//!
//! A rate is a percentage in decimal. Totals are compared with a rate without rounding: 3999 of 5000 lines are below 79.980001
//! percent, but not below 79.98 percent.
//!
//! An example: the line about too few lines hit, which is empty if enough lines are hit. `LimitFault` is the caller's own type.
//!
//! ```text
//! pub fn missed_lines(alloc: Global, word: Bytes, totals: &Totals) -> Result<Bytes, LimitFault> {
//!     let Some(rate) = Rate::of(word) else {
//!         return Err(LimitFault::NoRate);
//!     };
//!     let limits = Limits {
//!         lines: Some(rate),
//!         functions: None,
//!         branches: None,
//!     };
//!     Ok(shortfall_lines(alloc, &limits, totals)?)
//! }
//! ```
#![tactic(auto)]

mod digits;
mod limits;
mod rate;
mod shortfalls;

pub use limits::{Limits, shortfall_lines};
pub use rate::Rate;
