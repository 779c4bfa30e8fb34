//! Why inputs couldn't be collected in a book.

use crate::collect_fault::CollectFault;
use crate::stop::{Refusal, Stop};
use covbook::{BookFault, GatherFault, MAX_ENTRIES};
use covdata::Memory;
use covlock::OpenFault;
use thiserror::Error;

/// Why inputs couldn't be collected in a book. Returned after all jobs have ended. After a failed call, or a failed allocation of
/// one of its lists, a job submits nothing more but still reads its other inputs. So in most cases the first unreadable input is
/// known, and `Unread` takes precedence over `Full` and `Memory`. That input isn't known if memory runs out while an earlier input
/// is read, or if a job can't be started.
#[derive(Clone, Copy, Debug, PartialEq, Eq, Error)]
pub enum IntoBookFault {
    /// Faults 1 to 5: the errors of covjobs' `collect`. `Full` or `Memory` comes from the lowest-numbered job that got one of the
    /// two. `Memory` takes the place of `Full` if memory ran out while a job read an input, or if a job couldn't be started.
    #[error("{0}")]
    Collect(CollectFault),
    /// Fault 6: the input with this index, counted from 0, can't be read. All inputs before it were read.
    #[error("input {index} can't be read")]
    Unread { index: usize },
}

impl IntoBookFault {
    ghost use Rattle.std.specs.Prelude.{◌≡◌};
    ghost use Rattle.covworkers.specs.Late.{into_book_number};

    /// The number of the error, from 1.
    pub fn number(self) -> u32
        ensures { result ≡ into_book_number self }
    {
        match self {
            IntoBookFault::Collect(fault) => fault.number(),
            IntoBookFault::Unread { index: _ } => 6,
        }
    }
}

impl From<Memory> for IntoBookFault {
    ghost use Rattle.std.specs.Prelude.{◌≡◌};
    ghost use Rattle.covworkers.specs.declared.book_fault.IntoBookFault.TheVariants as faults;
    ghost use Rattle.covworkers.specs.declared.collect_fault.CollectFault.TheVariants as collects;

    ghost from_gives = { λ _ e. e ≡ faults.Collect collects.Memory };

    fn from(_refused: Memory) -> IntoBookFault {
        IntoBookFault::Collect(CollectFault::Memory)
    }
}

impl From<OpenFault> for IntoBookFault {
    ghost use Rattle.std.specs.Prelude.{◌≡◌};
    ghost use Rattle.covworkers.specs.declared.book_fault.IntoBookFault.TheVariants as faults;
    ghost use Rattle.covworkers.specs.CollectFault.{of_open};

    ghost from_gives = { λ fault e. e ≡ faults.Collect (of_open fault) };

    fn from(fault: OpenFault) -> IntoBookFault {
        IntoBookFault::Collect(fault.into())
    }
}

impl From<BookFault> for IntoBookFault {
    ghost use Rattle.std.specs.Prelude.{◌≡◌};
    ghost use Rattle.covworkers.specs.declared.book_fault.IntoBookFault.TheVariants as faults;
    ghost use Rattle.covworkers.specs.CollectFault.{of_book};

    ghost from_gives = { λ fault e. e ≡ faults.Collect (of_book fault) };

    fn from(fault: BookFault) -> IntoBookFault {
        IntoBookFault::Collect(fault.into())
    }
}

impl From<GatherFault> for IntoBookFault {
    ghost use Rattle.std.specs.Prelude.{◌≡◌};
    ghost use Rattle.covworkers.specs.declared.book_fault.IntoBookFault.TheVariants as faults;
    ghost use Rattle.covworkers.specs.declared.collect_fault.CollectFault.TheVariants as collects;

    ghost from_gives = { λ fault e. e ≡ faults.Collect (collects.Gather fault) };

    fn from(fault: GatherFault) -> IntoBookFault {
        IntoBookFault::Collect(CollectFault::Gather(fault))
    }
}

ghost use Rattle.std.specs.Prelude.{◌≡◌};
ghost use Rattle.covworkers.specs.Stops.{has_filled, of_refused, of_stop};

/// Turns a job's stop into the error to return.
pub(crate) fn fault_of(stop: Stop) -> IntoBookFault
    ensures { result ≡ of_stop stop }
{
    match stop {
        Stop::Unread(index) => IntoBookFault::Unread { index },
        Stop::Refused(refusal) => IntoBookFault::Collect(refused_by(refusal)),
    }
}

/// Turns a refusal into an error of collecting. `Full` becomes `Memory` unless the jobs read all inputs, and enough submissions to fill
/// the history: else no history gets full, or memory ran out as well.
fn refused_by(refusal: Refusal) -> CollectFault
    ensures { result ≡ of_refused (has_filled refusal.upto refusal.parts) refusal.fault }
{
    match refusal.fault {
        BookFault::Full => if refusal.upto == usize::MAX && MAX_ENTRIES <= refusal.parts {
            CollectFault::Full
        } else {
            CollectFault::Memory
        },
        BookFault::Memory => CollectFault::Memory,
    }
}
