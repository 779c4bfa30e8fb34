//! Tests of the book that threads share, and of workers that collect inputs. They are a crate of their own, so that covworkers and
//! covjobs are proved once, and so that their mutants can be tried while the tests are proved.
#![tactic(auto)]

#[cfg(test)]
mod tests;
