//! Reads chunks, one after another.

ghost use Rattle.std.specs.Prelude.{◌≡◌, ◌<◌, ◌≤◌, ◌+◌, ◌^◌, ◌++◌, length, take, IfOk, IsSome, OnErr, OnOk};
ghost use Rattle.covlarge.specs.Piece.{AnswersOf, IsFaultOf, IsLastPiece, IsPieceRead, IsReadAs};
ghost use Rattle.covlarge.specs.Summary.{HoldsOnIfTold};
ghost use Rattle.covlarge.specs.Version.{IsSkippedOf, carried_over};
ghost use Rattle.covpieces.specs.Sections.{EndsSection};
ghost use Rattle.covread.specs.Outcome.{max_bytes};

use crate::fault::PieceFault;
use crate::held::Held;
use crate::piece_text::PieceText;
use covdata::{LcovVersion, Memory, ReadFault};
use covlcov2::read_lcov2_packed;
use covpacked::PackedSubmission;
use covpieces::Carried;
use covread::read_trace_packed;
use std::alloc::Global;

/// The state between two chunks: the tracefile's version, the state carried over to the next chunk, and the summary of the chunks
/// so far, if one is collected.
#[derive(Drop)]
pub(crate) struct SoFar {
    pub(crate) version: LcovVersion,
    pub(crate) carried: Carried,
    pub(crate) held: Option<Held>,
}

impl SoFar {
    /// Reads the last chunk: all of `text` after the prefix. Returns the chunk's submission, and the summary of all chunks if one
    /// is collected.
    pub(crate) fn last_piece(
        self,
        alloc: Global,
        text: &PieceText,
    ) -> Result<(PackedSubmission, Option<Held>), PieceFault>
        requires { length text.now.front + length text.now.bytes ≤ max_bytes }
        ensures { IsLastPiece self.version self.carried self.held text.now.front text.now.bytes result }
    {
        let SoFar {
            version,
            carried,
            mut held,
        } = self;
        let submission = read_piece(alloc, version, &carried, text.get())?;
        hold(
            &mut held,
            alloc,
            version,
            carried.lines(),
            text.bytes(),
            &submission,
        )?;
        Ok((submission, held))
    }

    /// Reads the first `len` bytes after the prefix as a chunk, and goes on to the next chunk.
    pub(crate) fn next_piece(
        &mut self,
        alloc: Global,
        text: &PieceText,
        len: usize,
    ) -> Result<PackedSubmission, PieceFault>
        requires within { len ≤ length text.now.bytes }
        requires few { length text.now.front + len ≤ max_bytes }
        requires ends { EndsSection (take len text.now.bytes) }
        requires lines { self.old.carried.lines < 2 ^ 60 }
        ensures read { IsPieceRead self.old.version self.old.carried self.old.held text.now.front (take len text.now.bytes) self.new.held result }
        ensures version { self.new.version ≡ self.old.version }
        ensures carried { IfOk result (λ submission. self.new.carried ≡ carried_over self.old.version self.old.carried (take len text.now.bytes) submission.sects) }
    {
        let submission = read_piece(alloc, self.version, &self.carried, text.with_front(len))?;
        let piece = &text.bytes()[..len];
        hold(
            &mut self.held,
            alloc,
            self.version,
            self.carried.lines(),
            piece,
            &submission,
        )?;
        pass(&mut self.carried, alloc, self.version, piece, &submission)?;
        Ok(submission)
    }
}

/// Reads `text`, a chunk with its prefix. The line number in an error counts from the start of the whole tracefile.
fn read_piece(
    alloc: Global,
    version: LcovVersion,
    carried: &Carried,
    text: &[u8],
) -> Result<PackedSubmission, PieceFault>
    requires { length text.now ≤ max_bytes }
    ensures { IsReadAs version carried.now text.now result }
{
    match read_text(alloc, version, text) {
        Ok(submission) => Ok(submission),
        Err(fault) => Err(piece_fault(carried, fault)),
    }
}

/// Reads the text with the reader of this version.
fn read_text(
    alloc: Global,
    version: LcovVersion,
    text: &[u8],
) -> Result<PackedSubmission, ReadFault>
    ensures { AnswersOf version text.now result }
{
    match version {
        LcovVersion::One => read_trace_packed(alloc, text),
        LcovVersion::Two => read_lcov2_packed(alloc, text),
    }
}

/// Turns a chunk's error into the error of the whole tracefile.
fn piece_fault(carried: &Carried, fault: ReadFault) -> PieceFault
    ensures { IsFaultOf carried.now fault result }
{
    match fault {
        ReadFault::Memory => PieceFault::Memory,
        _ => PieceFault::Refused(carried.moved(fault)),
    }
}

/// Adds the next chunk to the summary, if a summary is collected. Never fails otherwise.
fn hold(
    held: &mut Option<Held>,
    alloc: Global,
    version: LcovVersion,
    lines: u64,
    piece: &[u8],
    submission: &PackedSubmission,
) -> Result<(), Memory>
    ensures holds { OnOk result (HoldsOnIfTold (IsSkippedOf version) lines held.old piece.now submission.now held.new) }
    ensures cause { OnErr result (IsSome held.old) }
{
    if let Some(held) = held {
        held.add(alloc, version, lines, piece, submission)?;
        return Ok(());
    }
    Ok(())
}

/// Updates the state that is carried over to the next chunk.
fn pass(
    carried: &mut Carried,
    alloc: Global,
    version: LcovVersion,
    piece: &[u8],
    submission: &PackedSubmission,
) -> Result<(), Memory>
    requires ends { EndsSection piece.now }
    requires few { carried.old.lines + length piece.now < 2 ^ 64 }
    ensures { OnOk result (carried.new ≡ carried_over version carried.old piece.now submission.now.sects) }
{
    match version {
        LcovVersion::One => carried.pass(alloc, piece, submission),
        LcovVersion::Two => carried.pass_lcov2(alloc, piece, submission),
    }
}
