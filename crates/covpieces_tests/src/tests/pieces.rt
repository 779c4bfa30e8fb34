//! Tests the state that is carried over between chunks.

use super::{Version, pass, read_piece};
use covdata::ReadFault;
use covpieces::Carried;
use covread::read_trace;
use std::process::Abort;
use std::test::*;

/// The chunks of a text before the last one.
type Chunks = &'static [&'static [u8]];

/// Reads a chunk by `pass`, and checks that the chunk is made of whole sections.
fn check_pass(
    rt: &(impl Abort + AllocGlobal),
    carried: &mut Carried,
    piece: &[u8],
    version: Version,
) -> Result<(), Fail> {
    let passed = pass(rt.alloc(), carried, piece, version)?;
    assert!(rt; passed, "{piece:?}");
    Ok(())
}

/// The state after these chunks.
fn carried_after(
    rt: &(impl Abort + AllocGlobal),
    version: Version,
    chunks: &[&[u8]],
) -> Result<Carried, Fail> {
    let mut carried = Carried::new(rt.alloc());
    for piece in chunks {
        check_pass(rt, &mut carried, piece, version)?;
    }
    Ok(carried)
}

/// Checks the prefix of the chunk after these chunks.
fn check_front(
    rt: &(impl Abort + AllocGlobal),
    version: Version,
    chunks: &[&[u8]],
    wanted: &[u8],
) -> Result<(), Fail> {
    let front = carried_after(rt, version, chunks)?.front(rt.alloc())?;
    assert!(rt; front.get() == wanted, "{chunks:?}");
    Ok(())
}

#[test]
fn fronts(rt: HostRuntime) -> Result<(), Fail> {
    for (version, chunks, wanted) in FRONTS {
        check_front(&rt, *version, chunks, wanted)?;
    }
    Ok(())
}

/// Prefixes of the chunks after one chunk. The first chunk has no prefix: the test's name is empty.
const FRONTS: &[(Version, Chunks, &[u8])] = &[
    (Version::One, &[], b""),
    (Version::Two, &[], b""),
    (Version::One, &[b"SF:x\nend_of_record\n"], b""),
    (
        Version::One,
        &[b"TN:a\nSF:x\nend_of_record\nTN:\nSF:y\nend_of_record\n"],
        b"",
    ),
    (
        Version::One,
        &[b"TN:a\r\nSF:x\r\nend_of_record\r\n"],
        b"TN:a\n",
    ),
    (
        Version::One,
        &[b"TN:a\nSF:x\nFNL:0,1\nend_of_record\n"],
        b"TN:a\n",
    ),
    (
        Version::Two,
        &[b"SF:x\nFNL:0,1\nend_of_record\n"],
        b"FNL:0,0\n",
    ),
    (
        Version::Two,
        &[b"TN:a\nSF:x\nFNL:0,1\nend_of_record\n"],
        b"TN:a\nFNL:0,0\n",
    ),
];

/// Checks that the last chunk has the same submission as `wanted`, a tracefile of version 1.
fn check_sections(
    rt: &(impl Abort + AllocGlobal),
    version: Version,
    example: &Example,
) -> Result<(), Fail> {
    let (name, chunks, last, wanted) = example;
    let carried = carried_after(rt, version, chunks)?;
    let given = read_piece(rt.alloc(), &carried, last, version)?;
    assert!(rt; given.is_same(&read_trace(rt.alloc(), wanted)?), "{name}");
    Ok(())
}

/// An example: its name, the chunks before the last one, the last one, and a tracefile of version 1 with the same submission as it.
type Example = (&'static str, Chunks, &'static [u8], &'static [u8]);

#[test]
fn last_chunks(rt: HostRuntime) -> Result<(), Fail> {
    for example in NAMES {
        check_sections(&rt, Version::One, example)?;
    }
    for example in GROUPS {
        check_sections(&rt, Version::Two, example)?;
    }
    Ok(())
}

/// The test's name is carried over to the next chunk, so that its sections are the same as in the whole text.
const NAMES: &[Example] = &[
    (
        "the name goes over",
        &[b"TN:a\nSF:x\nDA:1,1\nend_of_record\n"],
        b"SF:y\nDA:1,2\nend_of_record\n",
        b"TN:a\nSF:y\nDA:1,2\nend_of_record\n",
    ),
    (
        "the last name goes over two pieces, and a section without items stays",
        &[
            b"TN:a\nSF:x\nend_of_record\nTN:b\nSF:y\nend_of_record\n",
            b"SF:z\nDA:1,0\nend_of_record\n",
        ],
        b"\nVER:1\nSF:z\nDA:2,7\nend_of_record\nTN:c\nSF:z\nend_of_record\n",
        b"TN:b\nSF:z\nDA:2,7\nend_of_record\nTN:c\nSF:z\nend_of_record\n",
    ),
    (
        "the empty name",
        &[b"TN:a\nTN:\nSF:x\nend_of_record\n"],
        b"SF:y\nend_of_record\n",
        b"SF:y\nend_of_record\n",
    ),
    (
        "the empty name after another one's section",
        &[b"TN:a\nSF:x\nend_of_record\nTN:\nSF:y\nend_of_record\n"],
        b"SF:z\nDA:1,1\nend_of_record\n",
        b"SF:z\nDA:1,1\nend_of_record\n",
    ),
    (
        "a name in the second piece, and an odd line",
        &[b"TN:a b,c\nSF:x\nend_of_record\n"],
        b"TN:b\nSF:x\nDA:1,1\nLF:2\nend_of_record\n",
        b"TN:b\nSF:x\nDA:1,1\nLF:2\nend_of_record\n",
    ),
];

/// In LCOV 2, totals of functions are ignored below an `FNL:` line, until the next path.
const GROUPS: &[Example] = &[
    (
        "a total of functions after the section",
        &[b"SF:x\nFNL:0,1\nend_of_record\n"],
        b"FNF:1\nSF:y\nend_of_record\n",
        b"SF:y\nend_of_record\n",
    ),
    (
        "a total after the next path is odd",
        &[b"SF:x\nFNL:0,1\nFNA:0,1,f\nend_of_record\n"],
        b"SF:y\nFN:1,g\nFNDA:1,g\nFNF:2\nend_of_record\n",
        b"SF:y\nFN:1,g\nFNDA:1,g\nFNF:2\nend_of_record\n",
    ),
];

/// Checks the printed error.
fn check_words(
    rt: &(impl Abort + AllocGlobal),
    fault: ReadFault,
    wanted: &str,
) -> Result<(), Fail> {
    let words: String = format!(in rt.alloc(); "{fault}")?;
    assert!(rt; words.as_str() == wanted, "{words} instead of {wanted}");
    Ok(())
}

/// Checks the printed error of the last chunk, or that there is `none`.
fn check_fault(
    rt: &(impl Abort + AllocGlobal),
    version: Version,
    faulty: &Faulty,
) -> Result<(), Fail> {
    let (chunks, last, wanted) = faulty;
    let carried = carried_after(rt, version, chunks)?;
    match read_piece(rt.alloc(), &carried, last, version) {
        Ok(_) => assert!(rt; *wanted == "none", "there is no fault, but {wanted}"),
        Err(fault) => check_words(rt, fault, wanted)?,
    }
    Ok(())
}

/// The chunks before the last one, the last one, and its error.
type Faulty = (Chunks, &'static [u8], &'static str);

#[test]
fn faults(rt: HostRuntime) -> Result<(), Fail> {
    for faulty in FAULTS {
        check_fault(&rt, Version::One, faulty)?;
    }
    for faulty in GROUPED_FAULTS {
        check_fault(&rt, Version::Two, faulty)?;
    }
    Ok(())
}

/// An error has its line number in the whole text.
const FAULTS: &[Faulty] = &[
    (
        &[b"TN:a\nSF:x\nend_of_record\n"],
        b"DA:1,1\n",
        "Outside at 4",
    ),
    (
        &[b"TN:a\nSF:x\nend_of_record\nTN:\nSF:y\nend_of_record\n"],
        b"DA:1,1\n",
        "Outside at 7",
    ),
    (
        &[b"TN:a\nSF:x\nend_of_record\n"],
        b"SF:y\nTN:b\n",
        "Inside at 5",
    ),
    (&[b"SF:x\nend_of_record\n"], b"SF:\n", "EmptyPath at 3"),
    (&[b"SF:x\nend_of_record\n"], b"SF:y\n", "OpenEnd"),
    (
        &[b"SF:x\nend_of_record\n", b"\nSF:y\nDA:1,1\nend_of_record\n"],
        b"SF:z\nDA:x\n",
        "BadLine at 8",
    ),
    (&[], b"DA:1,1\n", "Outside at 1"),
    (
        &[b"SF:x\nFNL:0,1\nend_of_record\n"],
        b"FNF:1\n",
        "Outside at 4",
    ),
    (&[b"SF:x\nend_of_record\n"], b"", "none"),
];

/// Errors after an `FNL:` line. The last two inputs show why the prefix needs an `FNL:` line: without one, a total of functions
/// outside of sections is an error.
const GROUPED_FAULTS: &[Faulty] = &[
    (
        &[b"SF:x\nFNL:0,1\nend_of_record\n"],
        b"FNA:0,1,f\n",
        "Misplaced at 4",
    ),
    (
        &[b"SF:x\nFNL:0,1\nend_of_record\n", b"SF:y\nend_of_record\n"],
        b"FNF:1\n",
        "Outside at 6",
    ),
    (
        &[b"SF:x\nFNL:0,1\nend_of_record\n"],
        b"FNF:1\nLF:1\n",
        "Outside at 5",
    ),
    (
        &[b"TN:a\nSF:x\nFNL:0,1\nend_of_record\n"],
        b"FNF:1\nLF:1\n",
        "Outside at 6",
    ),
    (&[b"SF:x\nend_of_record\n"], b"FNH:1\n", "Outside at 3"),
    (&[], b"FNF:1\n", "Outside at 1"),
    (&[], b"SF:x\nFNL:0,1\nend_of_record\nFNF:1\n", "none"),
];
