//! The line that a terminal shows.

use crate::counts::Moment;
use covdata::{Bytes, Memory};
use std::alloc::Global;

/// How many bytes a megabyte has.
const MEGABYTE: u64 = 1_000_000;

/// Erases the line.
pub(crate) const ERASED: &[u8] = b"\r\x1b[K";

/// The line for a moment, which replaces the one before: `12 of 500 files, 40 of 2100 MB, 9 s left`.
pub(crate) fn line_at(alloc: Global, moment: Moment) -> Result<Bytes, Memory> {
    let mut line = Bytes::of(alloc, b"\r")?;
    line.append_number(moment.files)?;
    line.append(b" of ")?;
    line.append_number(moment.all_files)?;
    line.append(b" files, ")?;
    line.append_number(moment.bytes / MEGABYTE)?;
    line.append(b" of ")?;
    line.append_number(moment.all_bytes.max(moment.bytes) / MEGABYTE)?;
    line.append(b" MB")?;
    put_left(moment, &mut line)?;
    line.append(b"\x1b[K")?;
    Ok(line)
}

/// Appends how many seconds reading takes on, if it goes on as fast as before. Appends nothing while nothing is read.
fn put_left(moment: Moment, line: &mut Bytes) -> Result<(), Memory> {
    if moment.bytes == 0 {
        return Ok(());
    }
    let left = moment.all_bytes.saturating_sub(moment.bytes);
    let millis = moment.millis.saturating_mul(left) / moment.bytes;
    line.append(b", ")?;
    line.append_number(millis / 1000)?;
    line.append(b" s left")
}
