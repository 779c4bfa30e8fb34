//! Why and where a worker stops early.

use covbook::BookFault;
use covdata::Memory;

/// Why a worker has no result.
#[derive(Clone, Copy)]
pub(crate) enum Stop {
    /// The input with this index can't be read. The job has read all its inputs before this one.
    Unread(usize),
    /// A call of the book or an allocation failed.
    Refused(Refusal),
}

/// A job's first failed call or allocation, and how far the job read its inputs.
#[derive(Clone, Copy)]
pub(crate) struct Refusal {
    pub(crate) fault: BookFault,
    /// The job has read its inputs before this index: none of them if this is 0, all of them if it is `usize::MAX`.
    pub(crate) upto: usize,
    /// How many submissions the job has read, if it has read all its inputs. Saturates at 2^64 - 1.
    pub(crate) parts: u64,
}

impl From<Memory> for Stop {
    ghost use Rattle.std.specs.Prelude.{◌≡◌};
    ghost use Rattle.covworkers.specs.Stops.{no_memory};

    ghost from_gives = { λ _ stop. stop ≡ no_memory };

    /// Returns the stop for a failed allocation. No input counts as read.
    fn from(_refused: Memory) -> Stop {
        Stop::Refused(Refusal {
            fault: BookFault::Memory,
            upto: 0,
            parts: 0,
        })
    }
}

ghost use Rattle.std.specs.Prelude.{◌≡◌};
ghost use Rattle.covworkers.specs.Stops.{both_of, lesser_of, more_parts, worst_of};

/// Returns the lesser of `least` and `index`, or `index` if `least` is `None`.
pub(crate) fn lesser(least: Option<usize>, index: usize) -> usize
    ensures { result ≡ lesser_of least index }
{
    match least {
        Some(least) => least.min(index),
        None => index,
    }
}

/// Combines two refusals into one with the error of `first`, the lesser index, and the submissions of both. Returns `next` if `first`
/// is `None`.
pub(crate) fn both(first: Option<Refusal>, next: Refusal) -> Refusal
    ensures { result ≡ both_of first next }
{
    match first {
        Some(first) => Refusal {
            fault: first.fault,
            upto: first.upto.min(next.upto),
            parts: first.parts.saturating_add(next.parts),
        },
        None => next,
    }
}

/// Chooses the stop to report: the unreadable input `least` if `refused` is `None` or has a greater index, and otherwise `refused`.
/// Returns `None` if both are `None`.
pub(crate) fn worst(least: Option<usize>, refused: Option<Refusal>) -> Option<Stop>
    ensures { result ≡ worst_of least refused }
{
    match (least, refused) {
        (None, None) => None,
        (Some(index), None) => Some(Stop::Unread(index)),
        (None, Some(refusal)) => Some(Stop::Refused(refusal)),
        (Some(index), Some(refusal)) => if index < refusal.upto {
            Some(Stop::Unread(index))
        } else {
            Some(Stop::Refused(refusal))
        },
    }
}

/// Adds the submissions of the jobs that ended well to a refusal.
pub(crate) fn with_parts(parts: u64, stop: Stop) -> Stop
    ensures { result ≡ more_parts parts stop }
{
    match stop {
        Stop::Unread(index) => Stop::Unread(index),
        Stop::Refused(refusal) => Stop::Refused(Refusal {
            fault: refusal.fault,
            upto: refusal.upto,
            parts: refusal.parts.saturating_add(parts),
        }),
    }
}
