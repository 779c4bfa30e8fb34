//! Why inputs couldn't be collected.

use covbook::{BookFault, GatherFault};
use covdata::Memory;
use covlock::OpenFault;
use thiserror::Error;

/// Why inputs couldn't be collected. A job submits nothing more after its first `Full` or `Memory`, but the other jobs go on. When
/// all have ended, the error of the lowest-numbered failed job is returned. `Memory` if the list of workers couldn't be allocated,
/// and in place of `Full` if a worker couldn't be started.
#[derive(Clone, Copy, Debug, PartialEq, Eq, Error)]
pub enum CollectFault {
    /// Fault 1: the number of jobs is 0 or more than 64. This is checked first.
    #[error("BadJobs")]
    BadJobs,
    /// Fault 2: the history is full. It has 1,048,576 entries.
    #[error("book full")]
    Full,
    /// Fault 3: an allocation failed, or a worker couldn't be started.
    #[error("out of memory")]
    Memory,
    /// Fault 4: the history isn't a merge of the jobs' logs, or a log has a wrong reading.
    #[error("gather: {0}")]
    Gather(GatherFault),
    /// Fault 5: the last operation's entry isn't the last one. This is checked last, and never happens.
    #[error("NotLast")]
    NotLast,
}

impl CollectFault {
    ghost use Rattle.std.specs.Prelude.{◌≡◌};
    ghost use Rattle.covworkers.specs.CollectFault.{collect_number};

    /// The number of the error, from 1.
    pub fn number(self) -> u32
        ensures { result ≡ collect_number self }
    {
        match self {
            CollectFault::BadJobs => 1,
            CollectFault::Full => 2,
            CollectFault::Memory => 3,
            CollectFault::Gather(_) => 4,
            CollectFault::NotLast => 5,
        }
    }
}

impl From<Memory> for CollectFault {
    ghost use Rattle.std.specs.Prelude.{◌≡◌};
    ghost use Rattle.covworkers.specs.declared.collect_fault.CollectFault.TheVariants as faults;

    ghost from_gives = { λ _ e. e ≡ faults.Memory };

    fn from(_refused: Memory) -> CollectFault {
        CollectFault::Memory
    }
}

impl From<OpenFault> for CollectFault {
    ghost use Rattle.std.specs.Prelude.{◌≡◌};
    ghost use Rattle.covworkers.specs.CollectFault.{of_open};

    ghost from_gives = { λ fault e. e ≡ of_open fault };

    fn from(fault: OpenFault) -> CollectFault {
        match fault {
            OpenFault::BadJobs => CollectFault::BadJobs,
            OpenFault::Memory => CollectFault::Memory,
        }
    }
}

impl From<BookFault> for CollectFault {
    ghost use Rattle.std.specs.Prelude.{◌≡◌};
    ghost use Rattle.covworkers.specs.CollectFault.{of_book};

    ghost from_gives = { λ fault e. e ≡ of_book fault };

    fn from(fault: BookFault) -> CollectFault {
        match fault {
            BookFault::Full => CollectFault::Full,
            BookFault::Memory => CollectFault::Memory,
        }
    }
}
