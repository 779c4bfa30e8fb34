//! A tracefile that is read in chunks.

ghost use Rattle.std.specs.Prelude.{◌≡◌, ◌≤◌, ◌^◌, ℕ, List, [], ◌∷◌, ◌++◌, None, Some, Option, option_map, Result, Ok as Fine, IfOk, IsSome};
ghost use Rattle.covlarge.specs.Large.{MayBeReadAs, max_pieces};
ghost use Rattle.covlarge.specs.State.{IsNextPiece, MayGive, begun_after, begun_state};
ghost use Rattle.covlarge.specs.Summary.{SummaryData, nothing_held};
ghost use Rattle.covdata.specs.Row.{SubmissionData};
ghost use Rattle.covpieces.specs.Pieces.{front_text};
ghost use Rattle.covdata.specs.declared.fault.ReadFault.{ReadFault as Fault};

use crate::fault::PieceFault;
use crate::held::Held;
use crate::piece_text::{Found, PieceText};
use crate::so_far::SoFar;
use covdata::{Bytes, LcovVersion, Memory, ReadFault};
use covpacked::PackedSubmission;
use covpieces::{Carried, pieces_are_read_one_by_one};
use covstream::{BLOCK_BYTES, Source};
use std::alloc::Global;
use std::marker::Model;

/// The greatest number of chunks of a tracefile. Two successive chunks have together more than 4 MiB, unless a test's name is nearly
/// as long as the size limit. So a tracefile of less than 2 TiB has fewer chunks.
pub const MAX_PIECES: u64 = 1_048_575;

/// A tracefile that is read from a source in chunks. Contracts see its version, the state carried over to the next chunk, the
/// summary of the chunks so far, how many chunks may follow, and the bytes to come.
#[derive(Drop)]
pub struct LargeTracefile<S: Source> {
    so_far: SoFar,
    left: u64,
    rest: Bytes,
    source: S,
}

impl<S: Source> Model for LargeTracefile<S> {
    ghost use Rattle.covlarge.specs.StateData.{StateData, IsWithin};

    ghost Value = { StateData S };

    ghost view = { λ a. record {
      version = a.so_far.version;
      carried = a.so_far.carried;
      held = a.so_far.held;
      left = a.left;
      rest = a.rest;
      source = a.source;
    } };

    ghost invariant = { λ a. IsWithin a.left a.so_far.carried.lines (S.reads a.source) (S.failed_reads a.source) };
}

/// The result of reading the next chunk.
#[derive(Drop)]
pub enum NextPiece<S: Source> {
    /// The last chunk, and the summary of the whole tracefile if one was collected.
    Last(PackedSubmission, Option<Held>),
    /// A chunk, and the rest of the tracefile.
    More(PackedSubmission, LargeTracefile<S>),
}

impl<S: Source + Drop> LargeTracefile<S> {
    /// Opens the rest of the source as a tracefile. Reading all chunks gives the same as reading the tracefile as a whole.
    pub fn new(alloc: Global, version: LcovVersion, source: S) -> LargeTracefile<S>
        requires reads { S.reads source ≡ 0 }
        requires failed_reads { S.failed_reads source ≡ 0 }
        ensures whole { (read : List SubmissionData) (end : Result (Option SummaryData) Fault) → MayGive S.left result read end → MayBeReadAs version (S.left source) read end }
        ensures source { result.source ≡ source }
        ensures left { result.left ≡ max_pieces }
        ensures held { result.held ≡ None }
    {
        pieces_are_read_one_by_one();
        LargeTracefile::begun(alloc, version, None, source)
    }

    /// Like `new`, but a summary of the whole tracefile comes with the last chunk.
    pub fn summed(alloc: Global, version: LcovVersion, source: S) -> LargeTracefile<S>
        requires reads { S.reads source ≡ 0 }
        requires failed_reads { S.failed_reads source ≡ 0 }
        ensures whole { (read : List SubmissionData) (end : Result (Option SummaryData) Fault) → MayGive S.left result read end → MayBeReadAs version (S.left source) read end }
        ensures told { (read : List SubmissionData) (told : Option SummaryData) → MayGive S.left result read (Fine told) → IsSome told }
        ensures source { result.source ≡ source }
        ensures left { result.left ≡ max_pieces }
        ensures held { result.held ≡ Some nothing_held }
    {
        pieces_are_read_one_by_one();
        LargeTracefile::begun(alloc, version, Some(Held::new()), source)
    }

    /// Like `new`, if the caller has read `first`, the first bytes of the tracefile, from the source.
    pub fn new_after(
        alloc: Global,
        version: LcovVersion,
        first: Bytes,
        source: S,
    ) -> LargeTracefile<S>
        requires reads { S.reads source ≤ 2 ^ 28 }
        requires failed_reads { S.failed_reads source ≡ 0 }
        ensures whole { (read : List SubmissionData) (end : Result (Option SummaryData) Fault) → MayGive S.left result read end
            → MayBeReadAs version (option_map (λ more. first ++ more) (S.left source)) read end }
        ensures untold { (read : List SubmissionData) (told : Option SummaryData) → MayGive S.left result read (Fine told) → told ≡ None }
        ensures source { result.source ≡ source }
        ensures left { result.left ≡ max_pieces }
        ensures held { result.held ≡ None }
    {
        pieces_are_read_one_by_one();
        LargeTracefile::begun_after(alloc, version, None, first, source)
    }

    /// Like `summed`, if the caller has read `first`, the first bytes of the tracefile, from the source.
    pub fn summed_after(
        alloc: Global,
        version: LcovVersion,
        first: Bytes,
        source: S,
    ) -> LargeTracefile<S>
        requires reads { S.reads source ≤ 2 ^ 28 }
        requires failed_reads { S.failed_reads source ≡ 0 }
        ensures whole { (read : List SubmissionData) (end : Result (Option SummaryData) Fault) → MayGive S.left result read end
            → MayBeReadAs version (option_map (λ more. first ++ more) (S.left source)) read end }
        ensures told { (read : List SubmissionData) (told : Option SummaryData) → MayGive S.left result read (Fine told) → IsSome told }
        ensures source { result.source ≡ source }
        ensures left { result.left ≡ max_pieces }
        ensures held { result.held ≡ Some nothing_held }
    {
        pieces_are_read_one_by_one();
        LargeTracefile::begun_after(alloc, version, Some(Held::new()), first, source)
    }

    /// The tracefile before its first chunk.
    fn begun(
        alloc: Global,
        version: LcovVersion,
        held: Option<Held>,
        source: S,
    ) -> LargeTracefile<S>
        requires reads { S.reads source ≡ 0 }
        requires failed_reads { S.failed_reads source ≡ 0 }
        ensures { result ≡ begun_state version held source }
    {
        LargeTracefile::begun_after(alloc, version, held, Bytes::new(alloc), source)
    }

    /// The tracefile before its first chunk, if `first` was read from the source before.
    fn begun_after(
        alloc: Global,
        version: LcovVersion,
        held: Option<Held>,
        first: Bytes,
        source: S,
    ) -> LargeTracefile<S>
        requires reads { S.reads source ≤ 2 ^ 28 }
        requires failed_reads { S.failed_reads source ≡ 0 }
        ensures { result ≡ begun_after version held first source }
    {
        LargeTracefile {
            so_far: SoFar {
                version,
                carried: Carried::new(alloc),
                held,
            },
            left: MAX_PIECES,
            rest: first,
            source,
        }
    }

    /// How many more chunks may be read.
    pub fn most_pieces(&self) -> u64
        ensures { result ≡ self.now.left }
    {
        self.left
    }

    /// Reads the next chunk: whole sections, or the rest of the tracefile. The submissions of this tracefile are the returned one
    /// and then the submissions of the returned rest.
    ///
    /// # Errors
    ///
    /// `Refused` with the first error of the whole tracefile and the line number there, which saturates at 2^64 - 1. `Refused` with
    /// `TooLong` if no section ends in the next 67,108,864 bytes, including the chunk's prefix, or after 1,048,575 chunks.
    /// `Unreadable` only if a read failed. `Memory` at any time.
    pub fn next_piece(self, alloc: Global) -> Result<NextPiece<S>, PieceFault>
        ensures { IsNextPiece S.left S.failed_reads self result }
    {
        if self.left == 0 {
            return Err(PieceFault::Refused(ReadFault::TooLong));
        }
        let LargeTracefile {
            mut so_far,
            left,
            rest,
            mut source,
        } = self;
        let begun = begun_text(alloc, &so_far.carried, rest)?;
        let mut block = vec![in alloc; 0; BLOCK_BYTES]?;
        let (text, found) = begun.read_on(&mut source, block.as_mut_slice())?;
        match found {
            Found::Last => {
                let (submission, held) = so_far.last_piece(alloc, &text)?;
                Ok(NextPiece::Last(submission, held))
            }
            Found::Sections(len) => {
                let submission = so_far.next_piece(alloc, &text, len)?;
                let rest = Bytes::of(alloc, &text.bytes()[len..])?;
                let next = LargeTracefile {
                    so_far,
                    left: left - 1,
                    rest,
                    source,
                };
                Ok(NextPiece::More(submission, next))
            }
            Found::TooLong => Err(PieceFault::Refused(ReadFault::TooLong)),
        }
    }
}

/// The prefix of the next chunk, followed by `rest`, the bytes that no chunk contains yet.
fn begun_text(alloc: Global, carried: &Carried, rest: Bytes) -> Result<PieceText, Memory>
    ensures front { IfOk result (λ t. t.front ≡ front_text carried.now) }
    ensures bytes { IfOk result (λ t. t.bytes ≡ rest) }
{
    PieceText::begun(alloc, carried, rest.get())
}
