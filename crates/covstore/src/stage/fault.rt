//! Why the items of a section can't be staged.

use covdata::{Bytes, Memory};
use std::alloc::{AllocError, Allocator};

/// Why the items of a section can't be staged.
#[derive(Drop)]
pub(crate) enum StageFault<A: Allocator> {
    /// For `line`, an item has a checksum `given` that differs from the checksum `held` of the store or of an earlier item.
    Clash {
        line: u64,
        held: Bytes<A>,
        given: Bytes<A>,
    },
    /// An allocation failed.
    Memory,
}

impl<A: Allocator> From<Memory> for StageFault<A> {
    ghost use Rattle.std.specs.Prelude.{◌≡◌};
    ghost use Rattle.covstore.specs.declared.stage.fault.StageFault.TheVariants as stops;

    ghost from_gives = { λ _ e. e ≡ stops.Memory };

    fn from(_refused: Memory) -> StageFault<A> {
        StageFault::Memory
    }
}

impl<A: Allocator> From<AllocError> for StageFault<A> {
    ghost use Rattle.std.specs.Prelude.{◌≡◌};
    ghost use Rattle.covstore.specs.declared.stage.fault.StageFault.TheVariants as stops;

    ghost from_gives = { λ _ e. e ≡ stops.Memory };

    fn from(_refused: AllocError) -> StageFault<A> {
        StageFault::Memory
    }
}
