//! The operations of a book, and their answers.

use crate::shared::{PackedRef, SubRef, TextRef};
use covdata::{Bytes, Memory};
use covreport::Patterns;
use std::alloc::{Allocator, Global};

/// An operation on a book.
#[derive(Drop)]
pub enum Op<A: Allocator = Global> {
    /// Add the counts of a submission.
    Submit(SubRef<A>),
    /// Add the counts of a packed submission. Equals `Submit` of the same submission.
    SubmitPacked(PackedRef<A>),
    /// Remove the counts of a test, in all files.
    DropTest(Bytes<A>),
    /// Rename the test `old` to `new` in all files. If a test named `new` exists, the counts of both are added, for each coverage
    /// point. Any new name is accepted, but a printed tracefile can be read back only if the name fits into one line
    /// (`covdata::good_test`).
    Rename { old: Bytes<A>, new: Bytes<A> },
    /// Print the merged tracefile.
    Report,
    /// Print the sections of the files that match at least one of the patterns (lcov(1), `--extract`).
    Extract(Patterns<A>),
    /// Print the sections of the files that match none of the patterns (lcov(1), `--remove`).
    Remove(Patterns<A>),
    /// Print how many lines, functions and branches are hit (lcov(1), `--summary`).
    Summary,
}

impl<A: Allocator + Copy> Op<A> {
    ghost use Rattle.std.specs.Prelude.{◌≡◌, IfOk, OnErr};
    ghost use Rattle.covbook.specs.MayFail.{CopyMayFail};
    ghost use Rattle.covbook.specs.View.{op_data};

    /// Copies the operation with its test names and patterns. A submission is shared, not copied. Never fails for `Report` and
    /// `Summary`.
    pub fn copy(&self, alloc: A) -> Result<Op<A>, Memory>
        ensures copied { IfOk result (λ o. op_data o ≡ op_data self.now) }
        ensures refused { OnErr result (CopyMayFail (op_data self.now)) }
    {
        match self {
            Op::Submit(submission) => Ok(Op::Submit(submission.copy()?)),
            Op::SubmitPacked(submission) => Ok(Op::SubmitPacked(submission.copy()?)),
            Op::DropTest(test) => Ok(Op::DropTest(test.copy(alloc)?)),
            Op::Rename { old, new } => Ok(Op::Rename {
                old: old.copy(alloc)?,
                new: new.copy(alloc)?,
            }),
            Op::Report => Ok(Op::Report),
            Op::Extract(patterns) => Ok(Op::Extract(patterns.copy(alloc)?)),
            Op::Remove(patterns) => Ok(Op::Remove(patterns.copy(alloc)?)),
            Op::Summary => Ok(Op::Summary),
        }
    }
}

impl<A: Allocator> Op<A> {
    ghost use Rattle.std.specs.Prelude.{◌≡◌, ◌↔◌, IsTrue};
    ghost use Rattle.covbook.specs.Op.{SubmitOp, DropTestOp, RenameOp, ExtractOp, RemoveOp};
    ghost use Rattle.covbook.specs.View.{op_data};

    /// Whether the operations are equal, even if they don't share memory. Never allocates.
    pub fn is_same(&self, other: &Op<A>) -> bool
        ensures { IsTrue result ↔ (op_data self.now ≡ op_data other.now) }
    {
        match self {
            Op::Submit(submission) => other.is_submit(submission),
            Op::SubmitPacked(submission) => other.is_packed_submit(submission),
            Op::DropTest(test) => other.is_drop_test(test),
            Op::Rename { old, new } => other.is_rename(old, new),
            Op::Report => matches!(other, Op::Report),
            Op::Extract(patterns) => other.is_extract(patterns),
            Op::Remove(patterns) => other.is_remove(patterns),
            Op::Summary => matches!(other, Op::Summary),
        }
    }

    /// Whether this operation adds a submission equal to `submission`.
    fn is_submit(&self, submission: &SubRef<A>) -> bool
        ensures { IsTrue result ↔ (SubmitOp submission.now ≡ op_data self.now) }
    {
        match self {
            Op::Submit(own) => submission.is_same(own),
            Op::SubmitPacked(own) => own.is_same_as(submission),
            _ => false,
        }
    }

    /// Whether this operation adds a submission equal to the packed `submission`.
    fn is_packed_submit(&self, submission: &PackedRef<A>) -> bool
        ensures { IsTrue result ↔ (SubmitOp submission.now ≡ op_data self.now) }
    {
        match self {
            Op::Submit(own) => submission.is_same_as(own),
            Op::SubmitPacked(own) => submission.is_same(own),
            _ => false,
        }
    }

    /// Whether this operation drops `test`.
    fn is_drop_test(&self, test: &Bytes<A>) -> bool
        ensures { IsTrue result ↔ (DropTestOp test.now ≡ op_data self.now) }
    {
        match self {
            Op::DropTest(own) => test.is_same(own),
            _ => false,
        }
    }

    /// Whether this operation renames the test `old` to `new`.
    fn is_rename(&self, old: &Bytes<A>, new: &Bytes<A>) -> bool
        ensures { IsTrue result ↔ (RenameOp old.now new.now ≡ op_data self.now) }
    {
        match self {
            Op::Rename {
                old: own_old,
                new: own_new,
            } => old.is_same(own_old) && new.is_same(own_new),
            _ => false,
        }
    }

    /// Whether this operation is an `Extract` with patterns equal to `patterns`.
    fn is_extract(&self, patterns: &Patterns<A>) -> bool
        ensures { IsTrue result ↔ (ExtractOp patterns.now ≡ op_data self.now) }
    {
        match self {
            Op::Extract(own) => patterns.is_same(own),
            _ => false,
        }
    }

    /// Whether this operation is a `Remove` with patterns equal to `patterns`.
    fn is_remove(&self, patterns: &Patterns<A>) -> bool
        ensures { IsTrue result ↔ (RemoveOp patterns.now ≡ op_data self.now) }
    {
        match self {
            Op::Remove(own) => patterns.is_same(own),
            _ => false,
        }
    }
}

/// The answer to an operation.
#[derive(Drop)]
pub enum Answer<A: Allocator = Global> {
    /// The submission is accepted under this `number`, counted from 1. The submission has `items` items and `odd` inconsistent
    /// lines.
    Accepted {
        number: u64,
        items: u64,
        odd: u64,
    },
    /// The submission's checksum `given` for this line of this file differs from an earlier one, `held`, so the source has two
    /// versions. No count of the submission is added.
    Clash {
        file: Bytes<A>,
        line: u64,
        held: Bytes<A>,
        given: Bytes<A>,
    },
    /// The test's counts were removed from this number of sections, one for each file with counts of the test.
    Dropped {
        sections: u64,
    },
    /// The test's counts got the new name in this number of sections, one for each file with counts of the test.
    Renamed {
        sections: u64,
    },
    /// The table has no count of this test.
    NoSuchTest,
    /// The printed text.
    Text(TextRef<A>),
}

impl<A: Allocator + Copy> Answer<A> {
    ghost use Rattle.std.specs.Prelude.{◌≡◌, IfOk, OnErr};
    ghost use Rattle.covbook.specs.MayFail.{AnswerCopyMayFail};
    ghost use Rattle.covbook.specs.View.{answer_data};

    /// Copies the answer with a clash's file name and checksums. A text is shared, not copied. Only a `Clash` or a `Text` can fail.
    pub fn copy(&self, alloc: A) -> Result<Answer<A>, Memory>
        ensures copied { IfOk result (λ a. answer_data a ≡ answer_data self.now) }
        ensures refused { OnErr result (AnswerCopyMayFail (answer_data self.now)) }
    {
        match self {
            Answer::Accepted { number, items, odd } => Ok(Answer::Accepted {
                number: *number,
                items: *items,
                odd: *odd,
            }),
            Answer::Clash {
                file,
                line,
                held,
                given,
            } => Ok(Answer::Clash {
                file: file.copy(alloc)?,
                line: *line,
                held: held.copy(alloc)?,
                given: given.copy(alloc)?,
            }),
            Answer::Dropped { sections } => Ok(Answer::Dropped {
                sections: *sections,
            }),
            Answer::Renamed { sections } => Ok(Answer::Renamed {
                sections: *sections,
            }),
            Answer::NoSuchTest => Ok(Answer::NoSuchTest),
            Answer::Text(text) => Ok(Answer::Text(text.copy()?)),
        }
    }
}

impl<A: Allocator> Answer<A> {
    ghost use Rattle.std.specs.Prelude.{◌≡◌, ◌↔◌, IsTrue};
    ghost use Rattle.covbook.specs.Op.{AcceptedAnswer, ClashAnswer, DroppedAnswer, RenamedAnswer, TextAnswer};
    ghost use Rattle.covbook.specs.View.{answer_data};

    /// Whether the answers are equal, even if they don't share memory. Never allocates.
    pub fn is_same(&self, other: &Answer<A>) -> bool
        ensures { IsTrue result ↔ (answer_data self.now ≡ answer_data other.now) }
    {
        match self {
            Answer::Accepted { number, items, odd } => other.is_accepted(*number, *items, *odd),
            Answer::Clash {
                file,
                line,
                held,
                given,
            } => other.is_clash(file, *line, held, given),
            Answer::Dropped { sections } => other.is_dropped(*sections),
            Answer::Renamed { sections } => other.is_renamed(*sections),
            Answer::NoSuchTest => matches!(other, Answer::NoSuchTest),
            Answer::Text(text) => other.is_text(text),
        }
    }

    /// Whether this answer is `Accepted` with these numbers.
    fn is_accepted(&self, number: u64, items: u64, odd: u64) -> bool
        ensures { IsTrue result ↔ (AcceptedAnswer number items odd ≡ answer_data self.now) }
    {
        match *self {
            Answer::Accepted {
                number: own_number,
                items: own_items,
                odd: own_odd,
            } => number == own_number && items == own_items && odd == own_odd,
            _ => false,
        }
    }

    /// Whether this answer is a `Clash` at `line` of `file`, with the checksums `held` and `given`.
    fn is_clash(&self, file: &Bytes<A>, line: u64, held: &Bytes<A>, given: &Bytes<A>) -> bool
        ensures { IsTrue result ↔ (ClashAnswer (record { file = file.now; line = line; held = held.now; given = given.now }) ≡ answer_data self.now) }
    {
        match self {
            Answer::Clash {
                file: own_file,
                line: own_line,
                held: own_held,
                given: own_given,
            } => {
                line == *own_line
                    && file.is_same(own_file)
                    && held.is_same(own_held)
                    && given.is_same(own_given)
            },
            _ => false,
        }
    }

    /// Whether this answer is `Dropped` with this number of sections.
    fn is_dropped(&self, sections: u64) -> bool
        ensures { IsTrue result ↔ (DroppedAnswer sections ≡ answer_data self.now) }
    {
        match *self {
            Answer::Dropped { sections: own } => sections == own,
            _ => false,
        }
    }

    /// Whether this answer is `Renamed` with this number of sections.
    fn is_renamed(&self, sections: u64) -> bool
        ensures { IsTrue result ↔ (RenamedAnswer sections ≡ answer_data self.now) }
    {
        match *self {
            Answer::Renamed { sections: own } => sections == own,
            _ => false,
        }
    }

    /// Whether this answer is a `Text` equal to `text`.
    fn is_text(&self, text: &TextRef<A>) -> bool
        ensures { IsTrue result ↔ (TextAnswer text.now ≡ answer_data self.now) }
    {
        match self {
            Answer::Text(own) => text.is_same(own),
            _ => false,
        }
    }
}
