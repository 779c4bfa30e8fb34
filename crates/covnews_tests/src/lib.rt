//! Tests of covnews: what readers see of a book's published totals. They are a crate of their own, since the book has a store, which
//! covnews doesn't name.
#![tactic(auto)]

#[cfg(test)]
mod tests;
