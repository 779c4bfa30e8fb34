//! Why a store rejects a submission.

use covdata::{Bytes, Memory};
use std::alloc::{AllocError, AllocFailed, Allocator, Global};

/// Why a store rejects a submission.
#[derive(Drop)]
pub enum Refuse<A: Allocator = Global> {
    /// Refusal 1: for `line` of `file`, the submission has a checksum `given` that differs from the checksum `held` of the store or
    /// of an earlier record. So the two checksums come from two versions of the source file.
    Clash {
        file: Bytes<A>,
        line: u64,
        held: Bytes<A>,
        given: Bytes<A>,
    },
    /// Refusal 2: an allocation failed.
    Memory,
}

impl<A: Allocator> Refuse<A> {
    ghost use Rattle.std.specs.Prelude.{◌≡◌};
    ghost use Rattle.covtable.specs.RefuseView.{refuse_number};

    /// The number of the refusal, from 1.
    pub fn number(&self) -> u32
        ensures { result ≡ refuse_number self.now }
    {
        match self {
            Refuse::Clash { .. } => 1,
            Refuse::Memory => 2,
        }
    }
}

impl<A: Allocator> From<Memory> for Refuse<A> {
    ghost use Rattle.std.specs.Prelude.{◌≡◌};
    ghost use Rattle.covtable.specs.declared.refuse.Refuse.TheVariants as refusals;

    ghost from_gives = { λ _ e. e ≡ refusals.Memory };

    fn from(_refused: Memory) -> Refuse<A> {
        Refuse::Memory
    }
}

impl<A: Allocator> From<AllocError> for Refuse<A> {
    ghost use Rattle.std.specs.Prelude.{◌≡◌};
    ghost use Rattle.covtable.specs.declared.refuse.Refuse.TheVariants as refusals;

    ghost from_gives = { λ _ e. e ≡ refusals.Memory };

    fn from(_refused: AllocError) -> Refuse<A> {
        Refuse::Memory
    }
}

impl<T: Drop, A: Allocator> From<AllocFailed<T>> for Refuse<A> {
    ghost use Rattle.std.specs.Prelude.{◌≡◌};
    ghost use Rattle.covtable.specs.declared.refuse.Refuse.TheVariants as refusals;

    ghost from_gives = { λ _ e. e ≡ refusals.Memory };

    fn from(_refused: AllocFailed<T>) -> Refuse<A> {
        Refuse::Memory
    }
}
