//! Why reading of a tracefile stopped.

use covdata::{Memory, ReadFault};
use covstream::BlockFault;
use std::alloc::AllocError;

/// Why reading of a tracefile stopped.
#[derive(Clone, Copy)]
pub enum PieceFault {
    /// The tracefile is invalid. The line number in the error counts from the start of the whole tracefile.
    Refused(ReadFault),
    /// A read of the source failed.
    Unreadable,
    /// An allocation failed.
    Memory,
}

impl From<Memory> for PieceFault {
    ghost use Rattle.std.specs.Prelude.{◌≡◌};
    ghost use Rattle.covlarge.specs.declared.fault.PieceFault.TheVariants as faults;

    ghost from_gives = { λ _ f. f ≡ faults.Memory };

    fn from(_refused: Memory) -> PieceFault {
        PieceFault::Memory
    }
}

impl From<AllocError> for PieceFault {
    ghost use Rattle.std.specs.Prelude.{◌≡◌};
    ghost use Rattle.covlarge.specs.declared.fault.PieceFault.TheVariants as faults;

    ghost from_gives = { λ _ f. f ≡ faults.Memory };

    fn from(_refused: AllocError) -> PieceFault {
        PieceFault::Memory
    }
}

impl From<BlockFault> for PieceFault {
    ghost use Rattle.std.specs.Prelude.{◌≡◌};
    ghost use Rattle.covlarge.specs.Piece.{of_block};

    ghost from_gives = { λ fault f. f ≡ of_block fault };

    fn from(fault: BlockFault) -> PieceFault {
        match fault {
            BlockFault::Unreadable => PieceFault::Unreadable,
            BlockFault::Memory => PieceFault::Memory,
        }
    }
}
