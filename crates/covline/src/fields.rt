//! Parsers of a line's fields, exported for readers of similar formats.

pub use crate::reader::{
    Number, after_feed, front_taken, read_any, read_count, read_field, read_number, read_taken,
    read_whole, small_field, small_number, split_comma,
};
