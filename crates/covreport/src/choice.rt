//! The choice of the files that a printed text includes.

use crate::patterns::Patterns;
use covdata::Memory;
use std::alloc::{Allocator, Global};

/// Which source files are chosen (lcov(1), `--extract` and `--remove`).
#[derive(Drop)]
pub enum Choice<A: Allocator = Global> {
    /// Every file.
    All,
    /// The files that match at least one of the patterns; no file if there are no patterns.
    Extract(Patterns<A>),
    /// The files that match none of the patterns; every file if there are no patterns.
    Remove(Patterns<A>),
    /// The files that match at least one of the includes and none of the excludes (lcov(1) of LCOV 2.x, `--include` and
    /// `--exclude`). Without includes, only the excludes count.
    Filter {
        includes: Patterns<A>,
        excludes: Patterns<A>,
    },
}

impl<A: Allocator> Choice<A> {
    ghost use Rattle.std.specs.Prelude.{◌≡◌};
    ghost use Rattle.covreport.specs.Choice.{is_chosen};
    ghost use Rattle.covreport.specs.ChoiceView.{choice_data};

    /// Whether the file is chosen. Never allocates.
    pub fn takes(&self, file: &[u8]) -> bool
        ensures { result ≡ is_chosen (choice_data self.now) file.now }
    {
        match self {
            Choice::All => true,
            Choice::Extract(patterns) => patterns.any_matches(file),
            Choice::Remove(patterns) => !patterns.any_matches(file),
            Choice::Filter { includes, excludes } => {
                (includes.get().is_empty() || includes.any_matches(file))
                    && !excludes.any_matches(file)
            }
        }
    }
}

impl<A: Allocator + Copy> Choice<A> {
    ghost use Rattle.std.specs.Prelude.{◌≡◌, IfOk};
    ghost use Rattle.covreport.specs.ChoiceView.{choice_data};

    /// Copies the choice.
    pub fn copy(&self, alloc: A) -> Result<Choice<A>, Memory>
        ensures { IfOk result (λ copy. choice_data copy ≡ choice_data self.now) }
    {
        match self {
            Choice::All => Ok(Choice::All),
            Choice::Extract(patterns) => Ok(Choice::Extract(patterns.copy(alloc)?)),
            Choice::Remove(patterns) => Ok(Choice::Remove(patterns.copy(alloc)?)),
            Choice::Filter { includes, excludes } => Ok(Choice::Filter {
                includes: includes.copy(alloc)?,
                excludes: excludes.copy(alloc)?,
            }),
        }
    }
}
