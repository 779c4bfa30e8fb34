//! A use of covline.

ghost use Rattle.std.specs.Prelude.{IfOk};
ghost use Rattle.covline.specs.Lines.{lines_of};
ghost use Rattle.covuses.specs.Counted.{AreCounted};

use covdata::{Bytes, LineFault, Memory, TraceLine};
use covline::{lines, put_line, read_line};
use std::alloc::Global;
use thiserror::Error;

/// Why a tracefile couldn't be printed again.
#[derive(Clone, Copy, Debug, PartialEq, Eq, Error)]
pub enum PrintFault {
    /// A line can't be parsed.
    #[error("{0}")]
    Line(#[from] LineFault),
    /// An allocation failed.
    #[error("{0}")]
    Memory(#[from] Memory),
}

/// Parses a tracefile, and returns its `DA:` records, printed again.
pub fn counted_lines(alloc: Global, text: &[u8]) -> Result<Bytes, PrintFault>
    ensures { IfOk result (λ t. AreCounted (lines_of text.now) t) }
{
    let mut printed = Bytes::new(alloc);
    for line in lines(text) {
        let record = read_line(line)?;
        if let TraceLine::Line { .. } = record {
            put_line(&record, &mut printed)?;
        }
    }
    Ok(printed)
}
