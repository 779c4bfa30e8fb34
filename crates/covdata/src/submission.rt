//! Submissions: the content of one input.

use crate::checks::{count_items, first_unlawful};
use crate::memory::Memory;
use crate::sect::{Sect, Sects};
use std::alloc::{Allocator, Global};
use std::marker::Model;
use thiserror::Error;

/// Why sections don't make a submission.
#[derive(Clone, Copy, Debug, PartialEq, Eq, Error)]
pub enum BadSubmission {
    /// Error 1: the sections have more than 67,108,864 items.
    #[error("TooMany")]
    TooMany,
    /// Error 2: the section at index `sect` is the first with an unlawful name or checksum.
    #[error("BadText")]
    BadText { sect: usize },
}

impl BadSubmission {
    ghost use Rattle.std.specs.Prelude.{◌≡◌};
    ghost use Rattle.covdata.specs.Lawful.{refusal_number};

    /// The number of the error, 1 or 2.
    pub fn number(self) -> u32
        ensures { result ≡ refusal_number self }
    {
        match self {
            BadSubmission::TooMany => 1,
            BadSubmission::BadText { .. } => 2,
        }
    }
}

/// The content of one input: its sections, and its number of inconsistent lines (`odd`), which contradict their section. The
/// sections have lawful names and checksums, and together at most 67,108,864 items. Contracts see the sections and `odd`.
#[derive(Drop)]
pub struct Submission<A: Allocator = Global> {
    sects: Sects<A>,
    items: u64,
    odd: u64,
}

impl<A: Allocator> Model for Submission<A> {
    ghost use Rattle.std.specs.Prelude.{◌≡◌};
    ghost use Rattle.covdata.specs.Row.{SubmissionData, items_in};
    ghost use Rattle.covdata.specs.Lawful.{IsLawful};

    ghost Value = { SubmissionData };

    ghost view = { λ a. record { sects = a.sects; odd = a.odd } };

    ghost invariant = { λ a. IsLawful (record { sects = a.sects; odd = a.odd }) × (a.items ≡ items_in a.sects) };
}

impl<A: Allocator + Copy> Submission<A> {
    ghost use Rattle.std.specs.Prelude.{◌≡◌, IfOk};

    /// Copies the submission.
    pub fn copy(&self, alloc: A) -> Result<Submission<A>, Memory>
        ensures { IfOk result (λ s. s ≡ self.now) }
    {
        Ok(Submission {
            sects: self.sects.copy(alloc)?,
            items: self.items,
            odd: self.odd,
        })
    }
}

impl<A: Allocator> Submission<A> {
    ghost use Rattle.std.specs.Prelude.{◌≡◌, ◌↔◌, IfOk, IfErr, IsOk, IsTrue, map};
    ghost use Rattle.covdata.specs.Row.{items_in};
    ghost use Rattle.covdata.specs.SectView.{sect_data};
    ghost use Rattle.covdata.specs.Lawful.{IsLawful, IsRefusedAs};

    /// Makes a submission of the sections. `odd` is the number of inconsistent lines in their input. Returns the sections with the
    /// error if there are too many items, or an unlawful name or checksum.
    pub fn of(sects: Sects<A>, odd: u64) -> Result<Submission<A>, (Sects<A>, BadSubmission)>
        ensures ok { IfOk result (λ s. s ≡ record { sects = sects; odd = odd }) }
        ensures lawful { IsOk result ↔ IsLawful (record { sects = sects; odd = odd }) }
        ensures refused { IfErr result (λ e. (e.0 ≡ sects) × IsRefusedAs sects e.1) }
    {
        let all = sects.get();
        let Some(items) = count_items(all) else {
            return Err((sects, BadSubmission::TooMany));
        };
        if let Some(sect) = first_unlawful(all) {
            return Err((sects, BadSubmission::BadText { sect }));
        }
        Ok(Submission { sects, items, odd })
    }

    /// Makes a submission of sections that must be lawful, and doesn't check names and checksums again. `odd` is the number of
    /// inconsistent lines in their input.
    pub fn of_lawful(sects: Sects<A>, odd: u64) -> Submission<A>
        requires { IsLawful (record { sects = sects; odd = odd }) }
        ensures { result ≡ record { sects = sects; odd = odd } }
    {
        let items = count_items(sects.get()).unwrap_or(0);
        Submission { sects, items, odd }
    }

    /// Whether the submissions are equal. Never allocates.
    pub fn is_same(&self, other: &Submission<A>) -> bool
        ensures { IsTrue result ↔ (self.now ≡ other.now) }
    {
        self.odd == other.odd && self.sects.is_same(&other.sects)
    }

    /// The sections, in the order of the input.
    pub fn sects(&self) -> &[Sect<A>]
        ensures sects { map sect_data result.now ≡ self.now.sects }
        ensures lawful { IsLawful self.now }
    {
        self.sects.get()
    }

    /// How many items the sections have: at most 67,108,864.
    pub fn items(&self) -> u64
        ensures count { result ≡ items_in self.now.sects }
        ensures lawful { IsLawful self.now }
    {
        self.items
    }

    /// The number of inconsistent lines in the input. An inconsistent line counts a function without a start line, or states a
    /// total that differs from its section's.
    pub fn odd(&self) -> u64
        ensures { result ≡ self.now.odd }
    {
        self.odd
    }
}
