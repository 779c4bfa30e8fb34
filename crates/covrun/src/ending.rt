//! How a run of a subcommand ends.

ghost use Rattle.std.specs.Prelude.{◌≡◌};
ghost use Rattle.covworkers.specs.Late.{MayComeAtAll};
ghost use Rattle.covrun.specs.Ending.{of_collect};
ghost use Rattle.covrun.specs.View.{failure_data};
ghost use Rattle.covrun.specs.WorkFault.{of_work};

use crate::argument_fault::ArgumentFault;
use crate::work::WorkFault;
use covdata::Bytes;
use covreport::Table;
use covsession::SessionFault;
use covworkers::CollectFault;
use covworld::ReadyText;
use std::alloc::Global;

/// An answer that is ready to be printed.
#[derive(Drop)]
pub(crate) struct ReadyAnswer<'a, T: Table<Global>> {
    /// The text to print.
    pub(crate) text: ReadyText<'a, T>,
    /// The lines about rates below their thresholds; empty if there are no such rates.
    pub(crate) shortfalls: Bytes,
}

/// Why a run has no answer, which decides the exit status and what is written to the error stream.
#[derive(Drop)]
pub(crate) enum Failure {
    /// The patterns, the thresholds, the test's name or the number of jobs are invalid.
    Words(ArgumentFault),
    /// The file can't be read that messages call by this name.
    Unreadable(Bytes),
    /// Memory ran out, or the history was full.
    Stopped(SessionFault),
    /// Files are invalid, or checksums clash, as these lines report.
    Refused(Bytes),
    /// A strict run found files that aren't clean, or patterns that match no file, as these lines report.
    Unclean(Bytes),
}

/// Turns an error of collecting into a book into the failure of the run.
pub(crate) fn failure_of_collect(fault: CollectFault) -> Failure
    requires { MayComeAtAll fault }
    ensures { failure_data result ≡ of_collect fault }
{
    match fault {
        CollectFault::BadJobs => Failure::Words(ArgumentFault::BadJobs),
        CollectFault::Full => Failure::Stopped(SessionFault::Full),
        CollectFault::Memory => Failure::Stopped(SessionFault::Memory),
        // `collect` alone returns these.
        CollectFault::Gather(_) | CollectFault::NotLast => unreachable!(),
    }
}

/// Turns an error that is found before the work begins into the failure of the run.
pub(crate) fn failure_of_work(fault: WorkFault) -> Failure
    ensures { failure_data result ≡ of_work fault }
{
    match fault {
        WorkFault::Words(fault) => Failure::Words(fault),
        WorkFault::Memory => Failure::Stopped(SessionFault::Memory),
    }
}

impl From<SessionFault> for Failure {
    ghost use Rattle.std.specs.Prelude.{◌≡◌};
    ghost use Rattle.covrun.specs.Ending.{Stopped};
    ghost use Rattle.covrun.specs.View.{failure_data};

    ghost from_gives = { λ fault f. failure_data f ≡ Stopped fault };

    fn from(fault: SessionFault) -> Failure {
        Failure::Stopped(fault)
    }
}
