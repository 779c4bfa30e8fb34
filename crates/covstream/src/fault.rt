//! Why reading of blocks stopped.

use covdata::Memory;
use std::alloc::AllocError;

/// Why reading of blocks stopped.
#[derive(Clone, Copy, Debug, PartialEq, Eq)]
pub enum BlockFault {
    /// A read of the source failed.
    Unreadable,
    /// An allocation failed.
    Memory,
}

impl From<AllocError> for BlockFault {
    ghost use Rattle.std.specs.Prelude.{◌≡◌};
    ghost use Rattle.covstream.specs.declared.fault.BlockFault.TheVariants as faults;

    ghost from_gives = { λ _ f. f ≡ faults.Memory };

    fn from(_refused: AllocError) -> BlockFault {
        BlockFault::Memory
    }
}

impl From<Memory> for BlockFault {
    ghost use Rattle.std.specs.Prelude.{◌≡◌};
    ghost use Rattle.covstream.specs.declared.fault.BlockFault.TheVariants as faults;

    ghost from_gives = { λ _ f. f ≡ faults.Memory };

    fn from(_refused: Memory) -> BlockFault {
        BlockFault::Memory
    }
}
