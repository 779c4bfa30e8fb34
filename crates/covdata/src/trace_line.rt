//! One line of a tracefile (geninfo(1) of LCOV 1.x, section FILES).

ghost use Rattle.std.specs.Prelude.{◌≡◌, ◌≤◌, length};
ghost use Rattle.covdata.specs.Records.{fault_name, fault_number, key_of};

use thiserror::Error;

/// The totals that a line can state about a section.
#[derive(Clone, Copy, Debug, PartialEq, Eq)]
pub enum TotalKind {
    /// `FNF:`, the number of functions with a start line.
    FuncFound,
    /// `FNH:`, the number of functions with a start line and an execution count above 0.
    FuncHit,
    /// `BRF:`, the number of branches.
    BranchFound,
    /// `BRH:`, the number of branches that were taken.
    BranchHit,
    /// `LF:`, the number of instrumented lines.
    LineFound,
    /// `LH:`, the number of instrumented lines with an execution count above 0.
    LineHit,
}

impl TotalKind {
    /// The key of the total's record.
    pub(crate) fn key(self) -> &'static [u8]
        ensures value { result.now ≡ key_of self }
        ensures size { length result.now ≤ 4 }
    {
        match self {
            TotalKind::FuncFound => b"FNF:",
            TotalKind::FuncHit => b"FNH:",
            TotalKind::BranchFound => b"BRF:",
            TotalKind::BranchHit => b"BRH:",
            TotalKind::LineFound => b"LF:",
            TotalKind::LineHit => b"LH:",
        }
    }
}

/// The meaning of one line (a record). Names, paths and checksums are slices of the line.
#[derive(Clone, Copy)]
pub enum TraceLine<'a> {
    /// `TN:<name>`, the test name, possibly empty, of the sections that follow.
    Test(&'a [u8]),
    /// `SF:<path>`, the beginning of a source file's section.
    Path(&'a [u8]),
    /// `FN:<line>,<name>`, the line that a function starts at. The name isn't empty.
    FuncStart {
        line: u64,
        name: &'a [u8],
    },
    /// `FNDA:<count>,<name>`, the execution count of a function. The name isn't empty.
    FuncCount {
        count: u128,
        name: &'a [u8],
    },
    /// `BRDA:<line>,<block>,<branch>,<taken>`, how often a branch was taken. `taken` is `None` for `-`: the branch's block was
    /// never executed.
    Branch {
        line: u64,
        block: u64,
        branch: u64,
        taken: Option<u128>,
    },
    /// `DA:<line>,<count>` or `DA:<line>,<count>,<checksum>`, the execution count of an instrumented line, and the
    /// checksum of its text.
    Line {
        line: u64,
        count: u128,
        checksum: Option<&'a [u8]>,
    },
    /// `FNF:`, `FNH:`, `BRF:`, `BRH:`, `LF:` or `LH:` and a number.
    Total {
        kind: TotalKind,
        value: u64,
    },
    /// `end_of_record`, the end of a section.
    End,
    /// Any other line, which stays unparsed.
    Skip,
}

/// Why a line can't be parsed.
#[derive(Clone, Copy, Debug, PartialEq, Eq, Error)]
#[error("{name}", name = self.name())]
pub enum LineFault {
    /// The line begins with a known key, but the fields after the key are malformed.
    BadLine = 1,
    /// The fields are well formed, but a number is too large: a count of 2^128 or more, or another number of 2^64 or more.
    NumberTooLarge = 2,
    /// `SF:` with nothing after it.
    EmptyPath = 3,
}

impl LineFault {
    /// The number of the error, 1 to 3.
    pub fn number(self) -> u32
        ensures { result ≡ fault_number self }
    {
        self as u32
    }

    /// The name of the error, as it is printed.
    pub fn name(self) -> &'static str
        ensures { result.now ≡ fault_name self }
    {
        match self {
            LineFault::BadLine => "BadLine",
            LineFault::NumberTooLarge => "NumberTooLarge",
            LineFault::EmptyPath => "EmptyPath",
        }
    }
}
