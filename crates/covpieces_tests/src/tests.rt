//! Tests with expected values that were worked out by hand from geninfo(1), section FILES. Expected sections are written as a
//! tracefile of version 1.

use covdata::{Bytes, Memory, ReadFault, Submission};
use covlcov2::read_lcov2;
use covpieces::{Carried, whole_sections};
use covread::read_trace;
use std::alloc::Global;
use std::process::Abort;
use std::test::*;

mod cuts;
mod pieces;

/// A version of the format.
#[derive(Clone, Copy)]
enum Version {
    /// LCOV 1.x.
    One,
    /// LCOV 2.
    Two,
}

/// The submission of a tracefile of this version.
fn read(alloc: Global, text: &[u8], version: Version) -> Result<Submission, ReadFault> {
    match version {
        Version::One => read_trace(alloc, text),
        Version::Two => read_lcov2(alloc, text),
    }
}

/// The chunk's prefix, followed by the chunk.
fn behind_front(alloc: Global, carried: &Carried, piece: &[u8]) -> Result<Bytes, Memory> {
    let mut text = carried.front(alloc)?;
    text.append(piece)?;
    Ok(text)
}

/// Reads a chunk after its prefix. An error has its line number in the whole text.
fn read_piece(
    alloc: Global,
    carried: &Carried,
    piece: &[u8],
    version: Version,
) -> Result<Submission, ReadFault> {
    let text = behind_front(alloc, carried, piece)?;
    match read(alloc, text.get(), version) {
        Ok(submission) => Ok(submission),
        Err(fault) => Err(carried.moved(fault)),
    }
}

/// Reads a chunk, and goes on to the next chunk. Returns `false` if the chunk isn't made of whole sections, or is too long for a
/// test.
fn pass(
    alloc: Global,
    carried: &mut Carried,
    piece: &[u8],
    version: Version,
) -> Result<bool, ReadFault> {
    let len = whole_sections(piece);
    if len == 0 || len != piece.len() || len > 1_000_000 || carried.lines() > 1_000_000 {
        return Ok(false);
    }
    let submission = read_piece(alloc, carried, piece, version)?;
    match version {
        Version::One => carried.pass(alloc, &piece[..len], &submission)?,
        Version::Two => carried.pass_lcov2(alloc, &piece[..len], &submission)?,
    }
    Ok(true)
}
