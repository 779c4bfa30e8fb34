//! Inputs of several chunks.

use std::alloc::Global;
use std::test::*;

/// Returns `text` repeated 2^`times` times.
pub(super) fn doubled(alloc: Global, text: &[u8], times: usize) -> Result<Vec<u8>, Fail> {
    let mut all = Vec::from_slice(alloc, text)?;
    for _time in 0..times {
        let half = all.clone()?;
        all.extend_from_slice(half.as_slice())?;
    }
    Ok(all)
}

/// Appends `times` copies of the section `SF:/a.c` with the line `DA:1,1`. The line's count has 524,288 leading zeros, so the
/// section has 524,317 bytes, and a chunk of 4 MiB has seven such sections.
pub(super) fn push_sections(alloc: Global, text: &mut Vec<u8>, times: usize) -> Result<(), Fail> {
    let zeros = doubled(alloc, b"0", 19)?;
    for _time in 0..times {
        text.extend_from_slice(b"SF:/a.c\nDA:1,")?;
        text.extend_from_slice(zeros.as_slice())?;
        text.extend_from_slice(b"1\nend_of_record\n")?;
    }
    Ok(())
}

/// Returns a tracefile of 9 MiB: 18 sections of `push_sections` in the test `t`, followed by `last`, which begins at line 56.
pub(super) fn three_pieces(alloc: Global, last: &[u8]) -> Result<Vec<u8>, Fail> {
    let mut text = Vec::from_slice(alloc, b"TN:t\n")?;
    push_sections(alloc, &mut text, 18)?;
    text.extend_from_slice(last)?;
    Ok(text)
}

/// Appends the section `SF:/b.c` with a line of 2^`times` bytes, which is skipped.
pub(super) fn push_long_section(
    alloc: Global,
    text: &mut Vec<u8>,
    times: usize,
) -> Result<(), Fail> {
    let line = doubled(alloc, b"#", times)?;
    text.extend_from_slice(b"SF:/b.c\nDA:7,0\n")?;
    text.extend_from_slice(line.as_slice())?;
    text.extend_from_slice(b"\nend_of_record\n")?;
    Ok(())
}
