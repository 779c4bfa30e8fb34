//! Versions of tracefiles.

/// The versions of tracefiles that are read.
#[derive(Clone, Copy)]
pub enum LcovVersion {
    /// Only tracefiles of LCOV 1.x.
    One,
    /// Also tracefiles of LCOV 2.x.
    Two,
}
