//! Why a subcommand is rejected although the command line was parsed.

/// Why a subcommand is rejected although the command line was parsed.
#[derive(Clone, Copy, Debug, PartialEq, Eq)]
pub enum ArgumentFault {
    /// There are more than 64 patterns.
    TooMany,
    /// One of the first 64 patterns has more than 1,024 bytes.
    TooLong,
    /// A tracefile can't hold the test's name.
    BadTest,
    /// A threshold isn't a rate: a decimal number of percent from 0 to 100, with at most six digits after the point.
    BadRate,
    /// A rule for where source files lie has no `=`.
    BadSource,
    /// The number of jobs is 0 or more than 64, which the command line never admits.
    BadJobs,
}
