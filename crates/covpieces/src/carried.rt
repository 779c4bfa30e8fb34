//! The state that is carried over from one chunk of a tracefile to the next.

use crate::cut::{count_lines, grouped_after};
use covdata::{Bytes, Memory, ReadFault};
use covpacked::ReadText;
use std::alloc::{Allocator, Global};
use std::marker::Model;

/// The state that is carried over from the chunks of a tracefile so far: the current test's name, the number of lines of these
/// chunks, and in LCOV 2 whether an `FNL:` line came since the last path. Contracts see all three.
#[derive(Drop)]
pub struct Carried<A: Allocator = Global> {
    test: Bytes<A>,
    is_grouped: bool,
    lines: u64,
}

impl<A: Allocator> Model for Carried<A> {
    ghost use Rattle.covpieces.specs.Pieces.{CarriedData};

    ghost Value = { CarriedData };

    ghost view = { λ c. record { test = c.test; is_grouped = c.is_grouped; lines = c.lines } };
}

impl<A: Allocator> Carried<A> {
    ghost use Rattle.std.specs.Prelude.{◌≡◌, ◌+◌, ◌-◌, ◌<◌, ◌^◌, min, length, IfOk, OnOk, OnErr};
    ghost use Rattle.covpieces.specs.Sections.{EndsSection};
    ghost use Rattle.covpieces.specs.Pieces.{carried_after, front_lines, front_text, lcov2_carried_after, moved_number, nothing_carried, last_test, told};

    /// The state before the first chunk.
    pub fn new(alloc: A) -> Carried<A>
        ensures { result ≡ nothing_carried }
    {
        Carried {
            test: Bytes::new(alloc),
            is_grouped: false,
            lines: 0,
        }
    }

    /// The number of lines of the chunks so far.
    pub fn lines(&self) -> u64
        ensures { result ≡ self.now.lines }
    {
        self.lines
    }

    /// Returns the prefix of the next chunk: the lines to put before the chunk. After its prefix, the chunk is read as in the whole
    /// tracefile. An empty test name has no line in the prefix.
    pub fn front(&self, alloc: A) -> Result<Bytes<A>, Memory>
        ensures { IfOk result (λ text. text ≡ front_text self.now) }
    {
        let mut text = Bytes::new(alloc);
        let name = self.test.get();
        if !name.is_empty() {
            text.append(b"TN:")?;
            text.append(name)?;
            text.append(b"\n")?;
        }
        if self.is_grouped {
            text.append(b"FNL:0,0\n")?;
        }
        Ok(text)
    }

    /// Turns an error of the chunk, read after its prefix, into the error of the whole tracefile. Line numbers saturate at
    /// 2^64 - 1. An error that only gcov's output has stays as it is.
    pub fn moved(&self, fault: ReadFault) -> ReadFault
        ensures { result ≡ told self.now fault }
    {
        match fault {
            ReadFault::Line { at, fault } => ReadFault::Line {
                at: self.moved_number(at),
                fault,
            },
            ReadFault::Outside { at } => ReadFault::Outside {
                at: self.moved_number(at),
            },
            ReadFault::Inside { at } => ReadFault::Inside {
                at: self.moved_number(at),
            },
            ReadFault::Misplaced { at } => ReadFault::Misplaced {
                at: self.moved_number(at),
            },
            ReadFault::TooLong
            | ReadFault::OpenEnd
            | ReadFault::BadMark { .. }
            | ReadFault::NoSource { .. }
            | ReadFault::Percent { .. }
            | ReadFault::Instances { .. }
            | ReadFault::LostFunction
            | ReadFault::BadTest
            | ReadFault::Memory => fault,
        }
    }

    /// Turns a line number in the chunk with its prefix into the line number in the whole tracefile.
    fn moved_number(&self, at: u64) -> u64
        ensures { result ≡ min (moved_number self.now at) (2 ^ 64 - 1) }
    {
        self.lines
            .saturating_add(at.saturating_sub(self.front_lines()))
    }

    /// How many lines the prefix has.
    fn front_lines(&self) -> u64
        ensures { result ≡ length (front_lines self.now) }
    {
        let names = if self.test.get().is_empty() { 0 } else { 1 };
        let groups = if self.is_grouped { 1 } else { 0 };
        names + groups
    }

    /// Goes on to the next chunk of a tracefile of version 1. `piece` is the chunk that was read, without its prefix, and must end
    /// with a section. `submission` is what prefix and chunk were read as.
    pub fn pass<S: ReadText>(
        &mut self,
        alloc: A,
        piece: &[u8],
        submission: &S,
    ) -> Result<(), Memory>
        requires ends { EndsSection piece.now }
        requires few { self.old.lines + length piece.now < 2 ^ 64 }
        ensures ok { OnOk result (self.new ≡ carried_after self.old piece.now (S.says submission.now).sects) }
        ensures err { OnErr result (self.new ≡ self.old) }
    {
        let lines = self.lines + count_lines(piece);
        self.take_test(alloc, submission)?;
        self.is_grouped = false;
        self.lines = lines;
        Ok(())
    }

    /// Like `pass`, for a tracefile of LCOV 2.
    pub fn pass_lcov2<S: ReadText>(
        &mut self,
        alloc: A,
        piece: &[u8],
        submission: &S,
    ) -> Result<(), Memory>
        requires ends { EndsSection piece.now }
        requires few { self.old.lines + length piece.now < 2 ^ 64 }
        ensures ok { OnOk result (self.new ≡ lcov2_carried_after self.old piece.now (S.says submission.now).sects) }
        ensures err { OnErr result (self.new ≡ self.old) }
    {
        let lines = self.lines + count_lines(piece);
        let is_grouped = grouped_after(self.is_grouped, piece);
        self.take_test(alloc, submission)?;
        self.is_grouped = is_grouped;
        self.lines = lines;
        Ok(())
    }

    /// Stores the test name of the submission's last section. Changes nothing if the submission has no section.
    fn take_test<S: ReadText>(&mut self, alloc: A, submission: &S) -> Result<(), Memory>
        ensures ok { OnOk result (self.new ≡ record { test = last_test self.old.test (S.says submission.now).sects; is_grouped = self.old.is_grouped; lines = self.old.lines }) }
        ensures err { OnErr result (self.new ≡ self.old) }
    {
        if let Some(test) = submission.last_test() {
            self.test = Bytes::of(alloc, test)?;
        }
        Ok(())
    }
}
