//! Tests the longest inputs, and a long section.

use super::wrappers::{annotated, read};
use super::{Counted, check_counted};
use covdata::ReadFault;
use std::alloc::Global;
use std::process::Abort;
use std::test::*;

/// Checks the numbers of a tracefile, or of gcov's output for a test of this name, or the error.
fn check_both(rt: &(impl Abort + AllocGlobal), test: &[u8], text: &[u8], wanted: Counted) {
    check_counted(rt, read(rt.alloc(), text), wanted);
    check_counted(rt, annotated(rt.alloc(), test, text), wanted);
}

/// An input of 67,108,864 bytes, all of them `byte`, is read. An input of one byte more is rejected for its length, even if the
/// test's name is unlawful.
fn check_longest(rt: &(impl Abort + AllocGlobal), byte: u8) -> Result<(), Fail> {
    let text = vec![in rt.alloc(); byte; 67_108_865]?;
    check_both(rt, b"a\nb", &text, Err(ReadFault::TooLong));
    check_both(rt, b"t", &text[1..], Ok((0, 0, 0)));
    Ok(())
}

#[test]
fn longest_texts(rt: HostRuntime) -> Result<(), Fail> {
    check_longest(&rt, b'#')?;
    check_longest(&rt, b'\n')
}

/// Appends records of a line, a function and a branch. `n` is the line number and the count of each.
fn push_point(alloc: Global, n: u64, text: &mut Vec<u8>) -> Result<(), Fail> {
    let function: String = format!(in alloc; "FNDA:{n},f{n}\nFN:{n},f{n}\n")?;
    let others: String = format!(in alloc; "BRDA:{n},0,0,{n}\nDA:{n},{n}\n")?;
    text.extend_from_slice(function.as_bytes())?;
    text.extend_from_slice(others.as_bytes())?;
    Ok(())
}

/// Reads a section of 300,000 lines, 300,000 functions and 300,000 branches in descending order. A reader with quadratic running
/// time would take too long.
#[test]
fn long_section(rt: HostRuntime) -> Result<(), Fail> {
    let mut text = Vec::from_slice(rt.alloc(), b"SF:a\n")?;
    for n in (0..300_000).rev() {
        push_point(rt.alloc(), n, &mut text)?;
    }
    text.extend_from_slice(
        b"FNF:300000\nFNH:299999\nBRF:300000\nBRH:299999\nLF:300000\nLH:299999\nend_of_record\n",
    )?;
    check_counted(
        &rt,
        read(rt.alloc(), text.as_slice()),
        Ok((1, 1_200_000, 0)),
    );
    Ok(())
}
