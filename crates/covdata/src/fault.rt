//! The errors of inputs.

ghost use Rattle.std.specs.Prelude.{◌≡◌};
ghost use Rattle.covdata.specs.declared.fault.ReadFault.TheVariants.{Memory as NoMemory};

use crate::memory::Memory;
use crate::trace_line::LineFault;
use std::alloc::AllocFailed;
use thiserror::Error;

/// The size limit of an input: 64 MiB.
pub const MAX_BYTES: usize = 67_108_864;

/// The first error of an input. `at` is the number of the invalid line, counted from 1.
#[derive(Clone, Copy, Debug, PartialEq, Eq, Error)]
pub enum ReadFault {
    /// Fault 1: the input has more than 67,108,864 bytes. The size is checked first.
    #[error("TooLong")]
    TooLong,
    /// Fault 2: a line is invalid by itself. In gcov's output, this means that a number is 2^64 or more.
    #[error("{fault} at {at}")]
    Line { at: u64, fault: LineFault },
    /// Fault 3: a start line, a count, a total or `end_of_record` outside of sections.
    #[error("Outside at {at}")]
    Outside { at: u64 },
    /// Fault 4: a test name or a path inside a section.
    #[error("Inside at {at}")]
    Inside { at: u64 },
    /// Fault 5: the input ends inside a section.
    #[error("OpenEnd")]
    OpenEnd,
    /// Fault 6: the mark of a source line, or the count of a branch, has no known form.
    #[error("BadMark at {at}")]
    BadMark { at: u64 },
    /// Fault 7: a source line comes before any `Source:` line, or a `Source:` line has no path.
    #[error("NoSource at {at}")]
    NoSource { at: u64 },
    /// Fault 8: a branch has a percentage instead of a count.
    #[error("Percent at {at}")]
    Percent { at: u64 },
    /// Fault 9: a line begins with `-----`, so the counts of template instances follow.
    #[error("Instances at {at}")]
    Instances { at: u64 },
    /// Fault 10: in gcov's output, a branch has no source line above it in its source file. In LCOV 2, an `FNA:` line has no `FNL:`
    /// line of its index above it in its section.
    #[error("Misplaced at {at}")]
    Misplaced { at: u64 },
    /// Fault 11: no source line follows a function before the next source file or the end of the input.
    #[error("LostFunction")]
    LostFunction,
    /// Fault 12: a tracefile can't hold the test's name. The name is checked right after the size.
    #[error("BadTest")]
    BadTest,
    /// Fault 13: an allocation failed.
    #[error("out of memory")]
    Memory,
}

impl ReadFault {
    ghost use Rattle.std.specs.Prelude.{◌≡◌};
    ghost use Rattle.covdata.specs.Fault.{fault_number, is_memory};

    /// The number of the error.
    pub fn number(self) -> u32
        ensures { result ≡ fault_number self }
    {
        match self {
            ReadFault::TooLong => 1,
            ReadFault::Line { .. } => 2,
            ReadFault::Outside { .. } => 3,
            ReadFault::Inside { .. } => 4,
            ReadFault::OpenEnd => 5,
            ReadFault::BadMark { .. } => 6,
            ReadFault::NoSource { .. } => 7,
            ReadFault::Percent { .. } => 8,
            ReadFault::Instances { .. } => 9,
            ReadFault::Misplaced { .. } => 10,
            ReadFault::LostFunction => 11,
            ReadFault::BadTest => 12,
            ReadFault::Memory => 13,
        }
    }

    /// Whether memory ran out, which is no error of the input.
    pub fn is_memory(self) -> bool
        ensures { result ≡ is_memory self }
    {
        match self {
            ReadFault::TooLong
            | ReadFault::Line { .. }
            | ReadFault::Outside { .. }
            | ReadFault::Inside { .. }
            | ReadFault::OpenEnd
            | ReadFault::BadMark { .. }
            | ReadFault::NoSource { .. }
            | ReadFault::Percent { .. }
            | ReadFault::Instances { .. }
            | ReadFault::Misplaced { .. }
            | ReadFault::LostFunction
            | ReadFault::BadTest => false,
            ReadFault::Memory => true,
        }
    }
}

impl From<Memory> for ReadFault {
    ghost from_gives = { λ _ e. e ≡ NoMemory };

    fn from(_refused: Memory) -> ReadFault {
        ReadFault::Memory
    }
}

impl<T: Drop> From<AllocFailed<T>> for ReadFault {
    ghost from_gives = { λ _ e. e ≡ NoMemory };

    fn from(_refused: AllocFailed<T>) -> ReadFault {
        ReadFault::Memory
    }
}
