//! Collects a text or a command line, part by part.

ghost use Rattle.std.specs.Prelude.{◌≡◌, ◌↔◌, ℕ, List, [], ◌∷◌, ◌++◌, take, IsTrue, IfErr, OnOk};
ghost use Rattle.covdata.specs.Delimiters.{line_feed};
ghost use Rattle.covread.specs.Outcome.{max_bytes};
ghost use Rattle.covsession.specs.Text.{line_after, line_with, HasCollected, IsTextOf};
ghost use Rattle.covsession.specs.declared.session.fault.SessionFault.TheVariants as session_faults;

use crate::session::fault::SessionFault;
use std::alloc::Allocator;

/// How a line ended.
#[derive(Clone, Copy)]
pub enum LineEnd {
    /// With a line feed.
    Feed,
    /// With the end of the input.
    Input,
}

/// What an unfinished line has so far. This decides whether the line can end a text.
#[derive(Clone, Copy)]
pub enum LineSoFar {
    /// The line has no byte yet.
    Nothing,
    /// A dot, followed by any number of carriage returns. A line that ends here ends the text.
    Dot,
    /// Anything else: the line doesn't end the text.
    Other,
}

/// Returns the state of the line `so_far` after one more byte.
pub fn with_byte(so_far: LineSoFar, byte: u8) -> LineSoFar
    ensures { result ≡ line_with so_far byte }
{
    match so_far {
        LineSoFar::Nothing => {
            if byte == b'.' {
                LineSoFar::Dot
            } else {
                LineSoFar::Other
            }
        }
        LineSoFar::Dot => {
            if byte == b'\r' {
                LineSoFar::Dot
            } else {
                LineSoFar::Other
            }
        }
        LineSoFar::Other => LineSoFar::Other,
    }
}

/// Returns the state of the line `so_far` after some more bytes.
pub fn with_bytes(so_far: LineSoFar, bytes: &[u8]) -> LineSoFar
    ensures { result ≡ line_after so_far bytes.now }
{
    let mut line = so_far;
    for byte in bytes {
        if let LineSoFar::Other = line {
            return LineSoFar::Other;
        }
        line = with_byte(line, *byte);
    }
    line
}

/// The result of collecting a text.
#[derive(Drop)]
pub enum CollectedText<A: Allocator> {
    /// The whole text: all bytes before the line `.` that ends it.
    Whole(Vec<u8, A>),
    /// The text exceeds the size limit, and isn't stored.
    TooLong,
    /// The input ended before a line `.`.
    Unfinished,
}

/// The collected bytes of a text or a command line. Only the first `limit` bytes are stored.
#[derive(Drop)]
pub struct Text<A: Allocator> {
    /// The stored bytes: the first ones, at most `limit`.
    pub kept: Vec<u8, A>,
    /// The greatest number of bytes that are stored.
    pub limit: usize,
    /// How many bytes were collected, stored or not.
    pub total: u64,
    /// How many collected bytes come before the current line.
    pub begins: u64,
    /// The state of the current line.
    pub line: LineSoFar,
}

impl<A: Allocator> Text<A> {
    /// A text without bytes yet.
    pub fn new(alloc: A, limit: usize) -> Text<A>
        ensures empty { HasCollected result [] [] }
        ensures limit { result.limit ≡ limit }
    {
        Text::in_room(Vec::new(alloc), limit)
    }

    /// A text without bytes yet, which reuses the buffer `room`. Drops the buffer's content.
    pub fn in_room(room: Vec<u8, A>, limit: usize) -> Text<A>
        ensures empty { HasCollected result [] [] }
        ensures limit { result.limit ≡ limit }
    {
        let mut kept = room;
        kept.clear();
        Text {
            kept,
            limit,
            total: 0,
            begins: 0,
            line: LineSoFar::Nothing,
        }
    }

    // Appends `part` to the stored bytes, as far as `limit` allows.
    fn keep(&mut self, part: &[u8]) -> Result<(), SessionFault>
        ensures kept { OnOk result ((all : List ℕ) → self.old.kept.items ≡ take self.old.limit all
            → self.new.kept.items ≡ take self.old.limit (all ++ part.now)) }
        ensures limit { OnOk result (self.new.limit ≡ self.old.limit) }
        ensures begins { OnOk result (self.new.begins ≡ self.old.begins) }
        ensures line { OnOk result (self.new.line ≡ self.old.line) }
        ensures total { OnOk result (self.new.total ≡ self.old.total) }
        ensures fault { IfErr result (λ f. f ≡ session_faults.Memory) }
    {
        let room = self.limit.saturating_sub(self.kept.len());
        let count = part.len().min(room);
        self.kept.extend_from_slice(&part[..count])?;
        Ok(())
    }

    /// Appends `part` to the current line.
    pub fn add(&mut self, part: &[u8]) -> Result<(), SessionFault>
        ensures collected { OnOk result ((before : List ℕ) → (now : List ℕ)
            → HasCollected self.old before now
            → HasCollected self.new before (now ++ part.now)) }
        ensures limit { OnOk result (self.new.limit ≡ self.old.limit) }
        ensures fault { IfErr result (λ f. f ≡ session_faults.Memory) }
    {
        self.keep(part)?;
        self.total = self.total.saturating_add(part.len() as u64);
        self.line = with_bytes(self.line, part);
        Ok(())
    }

    /// Appends a line feed, which ends the current line and begins the next one.
    pub fn next_line(&mut self) -> Result<(), SessionFault>
        ensures collected { OnOk result ((before : List ℕ) → (now : List ℕ)
            → HasCollected self.old before now
            → HasCollected self.new (before ++ (now ++ line_feed ∷ [])) []) }
        ensures limit { OnOk result (self.new.limit ≡ self.old.limit) }
        ensures fault { IfErr result (λ f. f ≡ session_faults.Memory) }
    {
        self.keep(b"\n")?;
        self.total = self.total.saturating_add(1);
        self.begins = self.total;
        self.line = LineSoFar::Nothing;
        Ok(())
    }

    /// Appends whole lines. The current line must still be empty.
    pub fn add_lines(&mut self, lines: &[u8]) -> Result<(), SessionFault>
        ensures collected { OnOk result ((before : List ℕ) → HasCollected self.old before [] → HasCollected self.new (before ++ lines.now) []) }
        ensures limit { OnOk result (self.new.limit ≡ self.old.limit) }
        ensures fault { IfErr result (λ f. f ≡ session_faults.Memory) }
    {
        self.keep(lines)?;
        self.total = self.total.saturating_add(lines.len() as u64);
        self.begins = self.total;
        Ok(())
    }

    /// Returns all collected bytes, if `limit` is `usize::MAX`.
    pub fn whole(&self) -> &[u8]
        ensures { (before : List ℕ) → (now : List ℕ) → self.now.limit ≡ usize.MAX → HasCollected self.now before now
            → result.now ≡ before ++ now }
    {
        self.kept.as_slice()
    }

    /// Whether the current line ends the text, if no further byte follows in this line.
    pub fn is_last(&self) -> bool
        ensures { IsTrue result ↔ self.now.line ≡ LineSoFar.Dot }
    {
        match self.line {
            LineSoFar::Dot => true,
            LineSoFar::Nothing | LineSoFar::Other => false,
        }
    }

    /// Returns the text, which is all bytes before the current line, or `TooLong` if these exceed the size limit.
    pub fn body(self) -> CollectedText<A>
        requires { self.limit ≡ max_bytes }
        ensures { (before : List ℕ) → (now : List ℕ) → HasCollected self before now → IsTextOf before result }
    {
        let Text {
            kept,
            limit,
            begins,
            ..
        } = self;
        if begins > limit as u64 {
            return CollectedText::TooLong;
        }
        let mut text = kept;
        text.truncate(begins as usize);
        CollectedText::Whole(text)
    }
}
