//! A use of covmap.

ghost use Rattle.std.specs.Prelude.{◌≡◌, OnOk, OnErr};
ghost use Rattle.covuses.specs.Added.{added, more as more_of};

use covmap::{Addend, StagedMap};
use std::alloc::{AllocError, Global};

/// A count to add to the earlier count. The sum saturates at 2^64 - 1.
#[derive(Clone, Copy)]
struct More {
    count: u64,
}

impl Addend<u64> for More {
    ghost fits = { λ more before. Unit {0} };

    ghost sum = { λ more before. more_of more.count before };

    fn plus(self, before: &Option<u64>) -> u64 {
        before.unwrap_or(0).saturating_add(self.count)
    }
}

/// Adds each count to the count of its line. If an allocation fails, adds none of the counts.
pub fn add_counts(
    alloc: Global,
    lines: &mut StagedMap<u64, u64, Global>,
    counts: &[(u64, u64)],
) -> Result<(), AllocError>
    ensures ok { OnOk result (lines.new.committed ≡ added counts.now lines.old.staged) }
    ensures err { OnErr result (lines.new.committed ≡ lines.old.committed) }
{
    for (line, count) in counts {
        let guess = lines.cursor();
        if let Err(refused) = lines.stage_sum(alloc, *line, More { count: *count }, guess) {
            lines.rollback();
            return Err(refused);
        }
    }
    lines.commit();
    Ok(())
}
