//! Submissions and texts that several owners share.

use covdata::{Bytes, Memory, Submission};
use covpacked::PackedSubmission;
use std::alloc::{Allocator, Global};
use std::marker::Model;
use std::sync::Arc;

/// A value that several owners share. Contracts see the value.
#[derive(Drop)]
struct SharedValue<T: Drop, A: Allocator> {
    value: Arc<T, A>,
}

impl<T: Drop, A: Allocator> Model for SharedValue<T, A> {
    ghost Value = { T };

    ghost view = { λ a. a.value.value };
}

impl<T: Drop, A: Allocator> SharedValue<T, A> {
    ghost use Rattle.std.specs.Prelude.{◌≡◌, IfOk};

    /// Makes the value shareable. On `Memory`, drops the value.
    fn of(alloc: A, value: T) -> Result<SharedValue<T, A>, Memory>
        ensures { IfOk result (λ s. s ≡ value) }
    {
        Ok(SharedValue {
            value: Arc::new(alloc, value)?,
        })
    }

    /// The shared value.
    fn get(&self) -> &T
        ensures { result.now ≡ self.now }
    {
        &self.value
    }

    /// Returns one more owner of the same value.
    fn copy(&self) -> Result<SharedValue<T, A>, Memory>
        ensures { IfOk result (λ s. s ≡ self.now) }
    {
        Ok(SharedValue {
            value: self.value.clone()?,
        })
    }
}

/// A submission that operations, entries and receipts share.
#[derive(Drop)]
pub struct SubRef<A: Allocator = Global> {
    shared: SharedValue<Submission<A>, A>,
}

impl<A: Allocator> Model for SubRef<A> {
    ghost use Rattle.covdata.specs.Row.{SubmissionData};

    ghost Value = { SubmissionData };

    ghost view = { λ a. a.shared };
}

impl<A: Allocator> SubRef<A> {
    ghost use Rattle.std.specs.Prelude.{◌≡◌, ◌↔◌, IfOk, IsTrue};

    /// Makes the submission shareable. On `Memory`, drops the submission.
    pub fn of(alloc: A, submission: Submission<A>) -> Result<SubRef<A>, Memory>
        ensures { IfOk result (λ s. s ≡ submission) }
    {
        Ok(SubRef {
            shared: SharedValue::of(alloc, submission)?,
        })
    }

    /// The shared submission.
    pub fn get(&self) -> &Submission<A>
        ensures { result.now ≡ self.now }
    {
        self.shared.get()
    }

    /// Whether the submissions are equal, even if they don't share memory. Never allocates.
    pub fn is_same(&self, other: &SubRef<A>) -> bool
        ensures { IsTrue result ↔ (self.now ≡ other.now) }
    {
        self.get().is_same(other.get())
    }

    /// Returns one more owner of the same submission.
    pub fn copy(&self) -> Result<SubRef<A>, Memory>
        ensures { IfOk result (λ s. s ≡ self.now) }
    {
        Ok(SubRef {
            shared: self.shared.copy()?,
        })
    }
}

/// A packed submission that operations, entries and receipts share.
#[derive(Drop)]
pub struct PackedRef<A: Allocator = Global> {
    shared: SharedValue<PackedSubmission<A>, A>,
}

impl<A: Allocator> Model for PackedRef<A> {
    ghost use Rattle.covdata.specs.Row.{SubmissionData};

    ghost Value = { SubmissionData };

    ghost view = { λ a. a.shared };
}

impl<A: Allocator> PackedRef<A> {
    ghost use Rattle.std.specs.Prelude.{◌≡◌, ◌↔◌, IfOk, IsTrue};

    /// Makes the submission shareable. On `Memory`, drops the submission.
    pub fn of(alloc: A, submission: PackedSubmission<A>) -> Result<PackedRef<A>, Memory>
        ensures { IfOk result (λ s. s ≡ submission) }
    {
        Ok(PackedRef {
            shared: SharedValue::of(alloc, submission)?,
        })
    }

    /// The shared submission.
    pub fn get(&self) -> &PackedSubmission<A>
        ensures { result.now ≡ self.now }
    {
        self.shared.get()
    }

    /// Whether the submissions are equal, even if they don't share memory. Never allocates.
    pub fn is_same(&self, other: &PackedRef<A>) -> bool
        ensures { IsTrue result ↔ (self.now ≡ other.now) }
    {
        self.get().is_same(other.get())
    }

    /// Whether this submission equals `other`, which isn't packed. Never allocates.
    pub fn is_same_as(&self, other: &SubRef<A>) -> bool
        ensures { IsTrue result ↔ (self.now ≡ other.now) }
    {
        self.get().is_same_as(other.get())
    }

    /// Returns one more owner of the same submission.
    pub fn copy(&self) -> Result<PackedRef<A>, Memory>
        ensures { IfOk result (λ s. s ≡ self.now) }
    {
        Ok(PackedRef {
            shared: self.shared.copy()?,
        })
    }
}

/// A text that entries and receipts share.
#[derive(Drop)]
pub struct TextRef<A: Allocator = Global> {
    shared: SharedValue<Bytes<A>, A>,
}

impl<A: Allocator> Model for TextRef<A> {
    ghost use Rattle.std.specs.Prelude.{List, ℕ};

    ghost Value = { List ℕ };

    ghost view = { λ a. a.shared };
}

impl<A: Allocator> TextRef<A> {
    ghost use Rattle.std.specs.Prelude.{◌≡◌, ◌↔◌, IfOk, IsTrue};

    /// Makes the text shareable. On `Memory`, drops the text.
    pub fn of(alloc: A, text: Bytes<A>) -> Result<TextRef<A>, Memory>
        ensures { IfOk result (λ t. t ≡ text) }
    {
        Ok(TextRef {
            shared: SharedValue::of(alloc, text)?,
        })
    }

    /// The shared text.
    pub fn get(&self) -> &Bytes<A>
        ensures { result.now ≡ self.now }
    {
        self.shared.get()
    }

    /// Whether the texts are equal, even if they don't share memory. Never allocates.
    pub fn is_same(&self, other: &TextRef<A>) -> bool
        ensures { IsTrue result ↔ (self.now ≡ other.now) }
    {
        self.get().is_same(other.get())
    }

    /// Returns one more owner of the same text.
    pub fn copy(&self) -> Result<TextRef<A>, Memory>
        ensures { IfOk result (λ t. t ≡ self.now) }
    {
        Ok(TextRef {
            shared: self.shared.copy()?,
        })
    }
}
