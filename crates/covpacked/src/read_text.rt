//! The trait of submissions, packed or not.

use crate::packed_submission::PackedSubmission;
use covdata::Submission;
use std::alloc::Allocator;

/// A submission that was read from an input, packed or not. Contracts see the submission.
pub trait ReadText {
    ghost use Rattle.std.specs.Prelude.{◌≡◌, [], MatchOption, length};
    ghost use Rattle.covdata.specs.Row.{SubmissionData, items_in};
    ghost use Rattle.covpacked.specs.ReadTexts.{IsLastTest};

    // The submission, as contracts see it.
    ghost says: { Self → SubmissionData };

    /// The number of sections in the submission.
    fn count_sections(&self) -> u64
        ensures { result ≡ length (says self.now).sects };

    /// The number of items in all sections.
    fn count_items(&self) -> u64
        ensures { result ≡ items_in (says self.now).sects };

    /// The number of inconsistent lines in the input.
    fn count_odd(&self) -> u64
        ensures { result ≡ (says self.now).odd };

    /// The test name of the last section. Returns `None` if there is no section.
    fn last_test(&self) -> Option<&[u8]>
        ensures { MatchOption result ((says self.now).sects ≡ []) (λ test. IsLastTest (says self.now).sects test.now) };
}

impl<A: Allocator> ReadText for Submission<A> {
    ghost says = { λ submission. submission };

    fn count_sections(&self) -> u64 {
        self.sects().len() as u64
    }

    fn count_items(&self) -> u64 {
        self.items()
    }

    fn count_odd(&self) -> u64 {
        self.odd()
    }

    fn last_test(&self) -> Option<&[u8]> {
        match self.sects().last() {
            Some(sect) => Some(sect.test.get()),
            None => None,
        }
    }
}

impl<A: Allocator> ReadText for PackedSubmission<A> {
    ghost says = { λ submission. submission };

    fn count_sections(&self) -> u64 {
        self.sections()
    }

    fn count_items(&self) -> u64 {
        self.items()
    }

    fn count_odd(&self) -> u64 {
        self.odd()
    }

    fn last_test(&self) -> Option<&[u8]> {
        self.last_test()
    }
}
