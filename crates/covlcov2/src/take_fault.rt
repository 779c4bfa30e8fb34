//! The reasons to reject a line of a tracefile of LCOV 2.

ghost use Rattle.std.specs.Prelude.{◌≡◌};
ghost use Rattle.covlcov2.specs.declared.take_fault.TakeFault.TheVariants.{Memory as NoMemory};
ghost use Rattle.covlcov2.specs.Steps.{lcov2_fault_at, placed};

use covdata::{Memory, ReadFault};
use covread::PlacementFault;
use std::alloc::AllocFailed;

/// The reason why the reader rejects a line: the line is misplaced, or an allocation failed.
#[derive(Clone, Copy)]
pub enum TakeFault {
    /// The line must be in a section, but no section is open.
    Outside,
    /// The line must be outside of sections, but a section is open.
    Inside,
    /// An `FNA:` line is outside of sections, or has no `FNL:` line of its index above it in its section.
    Misplaced,
    /// An allocation failed.
    Memory,
}

impl TakeFault {
    /// Turns this reason into an error of the input. `at` is the number of the rejected line.
    pub fn at(self, at: u64) -> ReadFault
        ensures { result ≡ lcov2_fault_at self at }
    {
        match self {
            TakeFault::Outside => ReadFault::Outside { at },
            TakeFault::Inside => ReadFault::Inside { at },
            TakeFault::Misplaced => ReadFault::Misplaced { at },
            TakeFault::Memory => ReadFault::Memory,
        }
    }
}

/// Turns a placement error of the version 1 reader into a `TakeFault`.
pub fn placed(why: PlacementFault) -> TakeFault
    ensures { result ≡ placed why }
{
    match why {
        PlacementFault::Outside => TakeFault::Outside,
        PlacementFault::Inside => TakeFault::Inside,
        PlacementFault::Memory => TakeFault::Memory,
    }
}
