//! Packed submissions.

use crate::packed_sects::PackedSects;
use crate::same::{same_sects, same_sects_as};
use crate::sect_iter::PackedSectsIter;
use covdata::Submission;
use std::alloc::{Allocator, Global};
use std::marker::Model;

/// The packed content of one input: its sections, and its number of inconsistent lines (`odd`), like covdata's `Submission`. The
/// sections have lawful names and checksums, and together at most 67,108,864 items. Contracts see the sections and `odd`.
#[derive(Drop)]
pub struct PackedSubmission<A: Allocator = Global> {
    sects: PackedSects<A>,
    odd: u64,
}

impl<A: Allocator> Model for PackedSubmission<A> {
    ghost use Rattle.covdata.specs.Row.{SubmissionData};
    ghost use Rattle.covdata.specs.Lawful.{IsLawful};

    ghost Value = { SubmissionData };

    ghost view = { λ a. record { sects = a.sects.sects; odd = a.odd } };

    ghost invariant = { λ a. IsLawful (record { sects = a.sects.sects; odd = a.odd }) };
}

impl<A: Allocator> PackedSubmission<A> {
    ghost use Rattle.std.specs.Prelude.{◌≡◌, ◌↔◌, [], IsTrue, MatchOption, length};
    ghost use Rattle.covdata.specs.Row.{items_in};
    ghost use Rattle.covpacked.specs.ReadTexts.{IsLastTest};
    ghost use Rattle.covdata.specs.Lawful.{IsLawful};

    /// Makes a submission of the closed sections, which must be lawful. `odd` is the number of inconsistent lines in their input.
    /// Drops the items of the open section.
    pub fn of_lawful(sects: PackedSects<A>, odd: u64) -> PackedSubmission<A>
        requires lawful { IsLawful (record { sects = sects.sects; odd = odd }) }
        ensures { result ≡ record { sects = sects.sects; odd = odd } }
    {
        PackedSubmission { sects, odd }
    }

    /// Returns the sections, which `of_lawful` takes again.
    pub fn into_sects(self) -> PackedSects<A>
        ensures sects { result.sects ≡ self.sects }
        ensures lawful { IsLawful self }
    {
        self.sects
    }

    /// Whether the submissions are equal. Never allocates.
    pub fn is_same(&self, other: &PackedSubmission<A>) -> bool
        ensures { IsTrue result ↔ (self.now ≡ other.now) }
    {
        self.odd == other.odd && same_sects(self.sects(), other.sects())
    }

    /// Whether `self` equals the unpacked submission `other`. Never allocates.
    pub fn is_same_as(&self, other: &Submission<A>) -> bool
        ensures { IsTrue result ↔ (self.now ≡ other.now) }
    {
        self.odd == other.odd() && same_sects_as(self.sects(), other.sects())
    }

    /// The sections, in the order of the input.
    pub fn sects(&self) -> PackedSectsIter<'_>
        ensures sects { result ≡ self.now.sects }
        ensures lawful { IsLawful self.now }
    {
        self.sects.sects()
    }

    /// The number of sections.
    pub fn sections(&self) -> u64
        ensures { result ≡ length self.now.sects }
    {
        self.sects.closed_sects() as u64
    }

    /// The test name of the last section. Returns `None` if there is no section.
    pub fn last_test(&self) -> Option<&[u8]>
        ensures { MatchOption result (self.now.sects ≡ []) (λ test. IsLastTest self.now.sects test.now) }
    {
        self.sects.last_test()
    }

    /// How many items the sections have: at most 67,108,864.
    pub fn items(&self) -> u64
        ensures count { result ≡ items_in self.now.sects }
        ensures lawful { IsLawful self.now }
    {
        self.sects.closed_len() as u64
    }

    /// The number of inconsistent lines in the input. An inconsistent line counts a function without a start line, or states a
    /// total that differs from its section's.
    pub fn odd(&self) -> u64
        ensures { result ≡ self.now.odd }
    {
        self.odd
    }
}
