//! Expected values were worked out by hand.

mod adapters;
mod blocks;
