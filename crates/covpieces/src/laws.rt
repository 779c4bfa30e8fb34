//! Laws of tracefiles that are read in chunks. Each law is the contract of a function that does nothing.

ghost use Rattle.std.specs.Prelude.{◌≡◌, ◌⊎◌, ◌++◌, ◌<◌, ◌≤◌, ℕ, List, length, Result, Ok, Err};
ghost use Rattle.covdata.specs.Row.{SubmissionData};
ghost use Rattle.covdata.specs.declared.fault.ReadFault.{ReadFault as Fault};
ghost use Rattle.covdata.specs.declared.fault.ReadFault.TheVariants.{TooLong as TooMuch};
ghost use Rattle.covread.specs.Outcome.{IsOutcome, max_bytes};
ghost use Rattle.covlcov2.specs.Outcome.{IsOutcome as IsLcov2Outcome};
ghost use Rattle.covpieces.specs.Whole.{IsWholeOutcome, IsWholeLcov2Outcome};
ghost use Rattle.covpieces.specs.Sections.{AreWholeSections, EndsSection};
ghost use Rattle.covpieces.specs.Pieces.{CarriedData, IsCut, OneByOne, ReadsInPieces, carried_after, lcov2_carried_after, front_text, nothing_carried, with_first};

use covlcov2::{
    each_lcov2_line_has_one_meaning, each_lcov2_text_has_one_outcome,
    what_is_read_as_lcov2_is_lawful,
};
use covline::each_line_has_one_meaning;
use covread::{each_text_has_one_outcome, what_is_read_is_lawful};

/// A tracefile that is cut after a section can be read in two parts, the second part after its prefix. If the first part has no
/// error, the whole has the sections and inconsistent lines of both parts, or the second part's error with its line number in the
/// whole. Only the first part must be within the size limit.
pub fn two_parts_are_read_as_one()
    ensures trace { (first rest : List ℕ) (s : SubmissionData) (r : Result SubmissionData Fault) → EndsSection first → IsOutcome first (Ok s)
        → IsWholeOutcome (front_text (carried_after nothing_carried first s.sects) ++ rest) r
        → IsWholeOutcome (first ++ rest) (with_first s (carried_after nothing_carried first s.sects) r) }
    ensures lcov2 { (first rest : List ℕ) (s : SubmissionData) (r : Result SubmissionData Fault) → EndsSection first → IsLcov2Outcome first (Ok s)
        → IsWholeLcov2Outcome (front_text (lcov2_carried_after nothing_carried first s.sects) ++ rest) r
        → IsWholeLcov2Outcome (first ++ rest) (with_first s (lcov2_carried_after nothing_carried first s.sects) r) }
{
    each_line_has_one_meaning();
    each_lcov2_line_has_one_meaning();
    what_is_read_is_lawful();
    what_is_read_as_lcov2_is_lawful();
}

/// The result of a tracefile's chunks is the result of the whole: the chunks' sections in order with the sum of inconsistent lines,
/// or the first error with its line number in the whole. The exception is a chunk that is too long with its prefix: its error says
/// nothing about the whole.
pub fn pieces_are_read_as_the_whole()
    ensures trace { (text : List ℕ) (pieces : List (List ℕ)) (r : Result SubmissionData Fault) → IsCut text pieces
        → ReadsInPieces IsOutcome carried_after nothing_carried pieces r → (r ≡ Err TooMuch) ⊎ IsWholeOutcome text r }
    ensures lcov2 { (text : List ℕ) (pieces : List (List ℕ)) (r : Result SubmissionData Fault) → IsCut text pieces
        → ReadsInPieces IsLcov2Outcome lcov2_carried_after nothing_carried pieces r → (r ≡ Err TooMuch) ⊎ IsWholeLcov2Outcome text r }
{
    each_line_has_one_meaning();
    each_lcov2_line_has_one_meaning();
    what_is_read_is_lawful();
    what_is_read_as_lcov2_is_lawful();
}

/// The converse of `pieces_are_read_as_the_whole`: the result of the whole tracefile is also the result of its chunks, unless a
/// chunk is too long with its prefix.
pub fn the_whole_is_read_in_pieces()
    ensures trace { (text : List ℕ) (pieces : List (List ℕ)) (r : Result SubmissionData Fault) → IsCut text pieces → IsWholeOutcome text r
        → ReadsInPieces IsOutcome carried_after nothing_carried pieces (Err TooMuch) ⊎ ReadsInPieces IsOutcome carried_after nothing_carried pieces r }
    ensures lcov2 { (text : List ℕ) (pieces : List (List ℕ)) (r : Result SubmissionData Fault) → IsCut text pieces → IsWholeLcov2Outcome text r
        → ReadsInPieces IsLcov2Outcome lcov2_carried_after nothing_carried pieces (Err TooMuch) ⊎ ReadsInPieces IsLcov2Outcome lcov2_carried_after nothing_carried pieces r }
{
    each_line_has_one_meaning();
    each_lcov2_line_has_one_meaning();
    each_text_has_one_outcome();
    each_lcov2_text_has_one_outcome();
    pieces_are_read_as_the_whole();
}

/// The steps of reading chunk by chunk: one more chunk can be read after others, and the outcome of the last chunk, or of an
/// invalid chunk, determines the outcome of the whole. The exception is a chunk that is too long with its prefix: its error says
/// nothing about the whole.
pub fn pieces_are_read_one_by_one()
    ensures trace { OneByOne IsOutcome IsWholeOutcome carried_after }
    ensures lcov2 { OneByOne IsLcov2Outcome IsWholeLcov2Outcome lcov2_carried_after }
{
    pieces_are_read_as_the_whole();
}

/// A chunk that starts where a block of bytes starts is longer than the block, if no section ends in the block. The chunk is too
/// long if its prefix and the block together reach the size limit.
pub fn a_block_without_sections_is_in_no_piece()
    ensures longer { (block more piece rest : List ℕ) → AreWholeSections block 0 → block ++ more ≡ piece ++ rest → EndsSection piece → length block < length piece }
    ensures trace { (c : CarriedData) (block more piece rest : List ℕ) → AreWholeSections block 0 → max_bytes ≤ length (front_text c ++ block) → block ++ more ≡ piece ++ rest
        → EndsSection piece → IsOutcome (front_text c ++ piece) (Err TooMuch) }
    ensures lcov2 { (c : CarriedData) (block more piece rest : List ℕ) → AreWholeSections block 0 → max_bytes ≤ length (front_text c ++ block) → block ++ more ≡ piece ++ rest
        → EndsSection piece → IsLcov2Outcome (front_text c ++ piece) (Err TooMuch) }
{}
