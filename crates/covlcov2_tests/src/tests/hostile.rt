//! Tests long inputs.

use super::{check_fault, read};
use std::alloc::Global;
use std::process::Abort;
use std::test::*;

/// Checks the numbers of items and of inconsistent lines of an input.
fn check_items(rt: &(impl Abort + AllocGlobal), text: &[u8], items: u64) -> Result<(), Fail> {
    let submission = read(rt.alloc(), text)?;
    assert!(rt; submission.items() == items && submission.odd() == 0);
    Ok(())
}

/// Appends lines of a function.
fn push_leader(alloc: Global, n: u64, text: &mut Vec<u8>) -> Result<(), Fail> {
    let lines: String = format!(in alloc; "FNL:{n},{n}\nFNA:{n},{n},f{n}\n")?;
    text.extend_from_slice(lines.as_bytes())?;
    Ok(())
}

/// Reads a section of 20,000 `FNL:` lines with descending indexes, each with a function. A reader with quadratic running time would
/// take too long.
#[test]
fn many_leaders(rt: HostRuntime) -> Result<(), Fail> {
    let mut text = Vec::from_slice(rt.alloc(), b"SF:a\n")?;
    for n in (0..20_000_u64).rev() {
        push_leader(rt.alloc(), n, &mut text)?;
    }
    text.extend_from_slice(b"end_of_record\n")?;
    check_items(&rt, text.as_slice(), 40_000)
}

/// Appends lines of two expressions.
fn push_expressions(alloc: Global, n: u64, text: &mut Vec<u8>) -> Result<(), Fail> {
    let lines: String = format!(in alloc; "BRDA:1,0,x,1\nBRDA:{n},1,x,1\n")?;
    text.extend_from_slice(lines.as_bytes())?;
    Ok(())
}

/// Reads 20,000 expressions in one block, and 20,000 blocks with one expression each.
#[test]
fn many_expressions(rt: HostRuntime) -> Result<(), Fail> {
    let mut text = Vec::from_slice(rt.alloc(), b"SF:a\n")?;
    for n in (0..20_000_u64).rev() {
        push_expressions(rt.alloc(), n, &mut text)?;
    }
    text.extend_from_slice(b"BRF:40000\nBRH:40000\nend_of_record\n")?;
    check_items(&rt, text.as_slice(), 40_000)
}

/// An input of one byte more than 64 MiB is rejected.
#[test]
fn too_long_text(rt: HostRuntime) -> Result<(), Fail> {
    let text = vec![in rt.alloc(); b'\n'; 67_108_865]?;
    check_fault(&rt, text.as_slice(), "TooLong")
}
