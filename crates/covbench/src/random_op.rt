//! Random operations, with so few tests, files and lines that many operations change the same points.

use crate::random::Random;
use covbook::{Op, SubRef};
use covdata::Bytes;
use covread::read_trace;
use std::alloc::Global;

const TESTS: u64 = 5;

const FILES: u64 = 6;

const LINES: u64 = 12;

/// A random operation. More than half of these operations are submits.
pub(crate) fn random_op(alloc: Global, random: &mut Random) -> anyhow::Result<Op> {
    let kind = random.below(20);
    if kind < 11 {
        submit(alloc, random)
    } else if kind < 13 {
        Ok(Op::DropTest(test_name(alloc, random)?))
    } else if kind < 16 {
        let old = test_name(alloc, random)?;
        let new = test_name(alloc, random)?;
        Ok(Op::Rename { old, new })
    } else if kind < 18 {
        Ok(Op::Summary)
    } else {
        Ok(Op::Report)
    }
}

/// The name of a random test.
fn test_name(alloc: Global, random: &mut Random) -> anyhow::Result<Bytes> {
    let test = random.below(TESTS);
    let name = format!(in alloc; "t{test}")?;
    Ok(Bytes::of(alloc, name.as_bytes())?)
}

/// An operation that submits a random tracefile.
fn submit(alloc: Global, random: &mut Random) -> anyhow::Result<Op> {
    let text = tracefile(alloc, random)?;
    let submission = read_trace(alloc, text.as_bytes())?;
    Ok(Op::Submit(SubRef::of(alloc, submission)?))
}

/// A tracefile of one to three random sections.
fn tracefile(alloc: Global, random: &mut Random) -> anyhow::Result<String> {
    let mut text = String::new(alloc);
    let more = random.below(3);
    for _section in 0..=more {
        put_section(alloc, random, &mut text)?;
    }
    Ok(text)
}

/// Appends a section of a random file and test, with up to eight random records.
fn put_section(alloc: Global, random: &mut Random, text: &mut String) -> anyhow::Result<()> {
    let test = random.below(TESTS);
    let file = random.below(FILES);
    text.push_str(format!(in alloc; "TN:t{test}\nSF:/f{file}\n")?.as_str())?;
    let records = random.below(9);
    for _record in 0..records {
        text.push_str(record(alloc, random)?.as_str())?;
    }
    text.push_str("end_of_record\n")?;
    Ok(())
}

/// A random record. More than half of these records count a line (`DA:`).
fn record(alloc: Global, random: &mut Random) -> anyhow::Result<String> {
    let kind = random.below(10);
    let line = random.below(LINES);
    if kind < 1 {
        Ok(format!(in alloc; "FN:{line},f{line}\n")?)
    } else if kind < 2 {
        let count = random_count(random);
        Ok(format!(in alloc; "FNDA:{count},f{line}\n")?)
    } else if kind < 4 {
        branch(alloc, random, line)
    } else {
        line_count(alloc, random, line)
    }
}

/// The record of a branch of `line`. About one record in three says that the branch wasn't reached.
fn branch(alloc: Global, random: &mut Random, line: u64) -> anyhow::Result<String> {
    let branch = random.below(2);
    if random.one_in(3) {
        return Ok(format!(in alloc; "BRDA:{line},0,{branch},-\n")?);
    }
    let count = random_count(random);
    Ok(format!(in alloc; "BRDA:{line},0,{branch},{count}\n")?)
}

/// The record that counts `line`. About one record in four has a checksum. About one in twenty of these checksums differs from the
/// line's usual one.
fn line_count(alloc: Global, random: &mut Random, line: u64) -> anyhow::Result<String> {
    let count = random_count(random);
    if !random.one_in(4) {
        return Ok(format!(in alloc; "DA:{line},{count}\n")?);
    }
    if random.one_in(20) {
        return Ok(format!(in alloc; "DA:{line},{count},other{line}\n")?);
    }
    Ok(format!(in alloc; "DA:{line},{count},sum{line}\n")?)
}

/// A random count below 4. About one in thirty is the largest `u128` instead.
fn random_count(random: &mut Random) -> u128 {
    if random.one_in(30) {
        return u128::MAX;
    }
    u128::from(random.below(4))
}
