//! The reasons to reject a line of a tracefile.

ghost use Rattle.std.specs.Prelude.{◌≡◌};
ghost use Rattle.covread.specs.declared.trace.placement_fault.PlacementFault.TheVariants.{Memory as NoMemory};

use covdata::Memory;

/// The reason why a reader rejects a line: the line is misplaced, or an allocation failed.
#[derive(Clone, Copy)]
pub enum PlacementFault {
    /// The line must be in a section, but no section is open.
    Outside,
    /// The line must be outside of sections, but a section is open.
    Inside,
    /// An allocation failed.
    Memory,
}

impl From<Memory> for PlacementFault {
    ghost from_gives = { λ _ e. e ≡ NoMemory };

    fn from(_refused: Memory) -> PlacementFault {
        PlacementFault::Memory
    }
}
