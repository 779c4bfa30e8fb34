//! The values that a shared book is made of.

use covnews::HistorySeed;
use std::alloc::{Allocator, Global};
use std::marker::{Model, PhantomData};
use std::sync::ledger::Blank;
use thiserror::Error;

/// The greatest number of jobs of one book.
pub const MAX_JOBS: u32 = 64;

/// Why no book could be opened.
#[derive(Clone, Copy, Debug, PartialEq, Eq, Error)]
pub enum OpenFault {
    /// The number of jobs is 0 or more than 64. This is checked first.
    #[error("BadJobs")]
    BadJobs = 1,
    /// An allocation failed.
    #[error("out of memory")]
    Memory = 2,
}

impl OpenFault {
    ghost use Rattle.std.specs.Prelude.{◌≡◌};
    ghost use Rattle.covlock.specs.OpenFault.{open_number};

    /// The number of the error, from 1.
    pub fn number(self) -> u32
        ensures { result ≡ open_number self }
    {
        self as u32
    }
}

/// The values that a shared book is made of: the count of its calls, and the seed of its published history. Contracts see the name
/// of the count, the number of jobs, and the name of the book.
#[derive(Drop)]
pub struct Start<A: Allocator = Global> {
    jobs: u32,
    count: Blank,
    seed: HistorySeed,
    allocator: PhantomData<A>,
}

impl<A: Allocator> Model for Start<A> {
    ghost use Rattle.covlock.specs.Start.{StartData, IsStart};

    ghost Value = { StartData };

    ghost view = { λ a. record { name = a.count.name; jobs = a.jobs; book = a.seed.book } };

    ghost invariant = { λ a. IsStart a.jobs a.count.parts };
}

impl<A: Allocator + Copy> Start<A> {
    ghost use Rattle.std.specs.Prelude.{◌≡◌, ◌↔◌, [], IfOk, IfErr, Err};
    ghost use Rattle.covlock.specs.declared.start.OpenFault.TheVariants as faults;
    ghost use Rattle.covlock.specs.Start.{AreJobs};

    /// Makes the start of a book for `jobs` jobs. `_alloc` only sets the type of the book's allocator. Returns `BadJobs` if `jobs`
    /// isn't from 1 to 64. Never allocates, so it doesn't return `Memory`.
    pub fn new(_alloc: A, jobs: u32) -> Result<Start<A>, OpenFault>
        ensures jobs { IfOk result (λ s. s.jobs ≡ jobs) }
        ensures bad { (result ≡ Err faults.BadJobs) ↔ (AreJobs jobs → ⊥) }
        ensures fault { IfErr result (λ f. f ≡ faults.BadJobs) }
    {
        if jobs == 0 || jobs > MAX_JOBS {
            return Err(OpenFault::BadJobs);
        }
        Ok(Start {
            jobs,
            count: Blank::new(u64::from(jobs)),
            seed: HistorySeed::new(),
            allocator: PhantomData,
        })
    }
}

impl<A: Allocator> Start<A> {
    ghost use Rattle.std.specs.Prelude.{◌≡◌};
    ghost use Rattle.covlock.specs.Start.{AreJobs};

    /// Splits the start into the number of jobs, the empty count of calls, and the seed of the book's published history.
    pub(crate) fn into_parts(self) -> (u32, Blank, HistorySeed)
        ensures jobs { result.0 ≡ self.jobs }
        ensures bounds { AreJobs self.jobs }
        ensures name { result.1.name ≡ self.name }
        ensures parts { result.1.parts ≡ self.jobs }
        ensures book { result.2.book ≡ self.book }
    {
        (self.jobs, self.count, self.seed)
    }
}
