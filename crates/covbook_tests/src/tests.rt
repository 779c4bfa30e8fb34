//! Tests of the book. The expected values were worked out by hand from the formats.

mod gather;
mod history;
mod keeping;
mod same;
mod steps;
mod words;
mod wrappers;
