//! The errors of `gather`.

use thiserror::Error;

/// Why a history doesn't match the logs. Logs (`log`), their receipts or readings (`index`) and entries (`place`) are counted from
/// 0. `gather` checks the jobs of the logs first, then each log in turn: the log's receipts, then the log's readings. `gather`
/// looks for missing entries last.
#[derive(Clone, Copy, Debug, PartialEq, Eq, Error)]
pub enum GatherFault {
    /// Fault 1: the receipt's `place` has no entry, or an entry of another job.
    #[error("stranger")]
    Stranger { log: usize, index: usize },
    /// Fault 2: the entry at the receipt's `place` has another operation or answer.
    #[error("differs")]
    Differs { log: usize, index: usize },
    /// Fault 3: the previous receipt in the log has an equal or higher `place`.
    #[error("backwards")]
    Backwards { log: usize, index: usize },
    /// Fault 4: the entry at `place` is the first without a receipt in any log.
    #[error("missing")]
    Missing { place: u64 },
    /// Fault 5: the history has fewer entries than the reading's `upto`, or other totals after that many entries.
    #[error("bad reading")]
    BadReading { log: usize, index: usize },
    /// Fault 6: an earlier log has the same job. `gather` checks this first.
    #[error("same job")]
    SameJob { log: usize },
}

impl GatherFault {
    ghost use Rattle.std.specs.Prelude.{◌≡◌};
    ghost use Rattle.covbook.specs.GatherFault.{gather_fault_number};

    /// The number of the error, from 1.
    pub fn number(self) -> u32
        ensures { result ≡ gather_fault_number self }
    {
        match self {
            GatherFault::Stranger { .. } => 1,
            GatherFault::Differs { .. } => 2,
            GatherFault::Backwards { .. } => 3,
            GatherFault::Missing { .. } => 4,
            GatherFault::BadReading { .. } => 5,
            GatherFault::SameJob { .. } => 6,
        }
    }
}
