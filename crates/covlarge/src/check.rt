//! Checks a whole tracefile.

ghost use Rattle.std.specs.Prelude.{◌≡◌, Some, IsSome};
ghost use Rattle.covlarge.specs.State.{IsChecked};

use crate::fault::PieceFault;
use crate::held::Held;
use crate::large_tracefile::{LargeTracefile, NextPiece};
use covdata::LcovVersion;
use covstream::Source;
use std::alloc::Global;

/// Reads the rest of the source as a tracefile, one chunk at a time, and returns the tracefile's summary.
pub fn check_large<S: Source + Drop>(
    alloc: Global,
    version: LcovVersion,
    source: S,
) -> Result<Held, PieceFault>
    requires reads { S.reads source ≡ 0 }
    requires failed_reads { S.failed_reads source ≡ 0 }
    ensures { IsChecked S.left S.failed_reads version source result }
{
    let mut left = LargeTracefile::summed(alloc, version, source);
    loop {
        match left.next_piece(alloc)? {
            NextPiece::More(_, rest) => left = rest,
            NextPiece::Last(_, held) => return Ok(told(held)),
        }
    }
}

/// Unwraps the summary, which `requires` guarantees.
fn told(held: Option<Held>) -> Held
    requires { IsSome held }
    ensures { Some result ≡ held }
{
    match held {
        Some(held) => held,
        None => unreachable!(),
    }
}
