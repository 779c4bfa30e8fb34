//! Tests of `check_large` and of the summary of a whole tracefile.

use super::texts::{push_long_section, push_sections, three_pieces};
use super::{WELL, Way, check_whole, check_words};
use covdata::LcovVersion;
use std::test::*;

/// Skipped lines in the second and third chunk, and inconsistent lines in the first and third chunk.
#[test]
fn several_pieces(rt: HostRuntime) -> Result<(), Fail> {
    let mut text = Vec::from_slice(rt.alloc(), b"TN:t\nSF:/b.c\nFNDA:1,f\nend_of_record\n")?;
    push_sections(rt.alloc(), &mut text, 10)?;
    text.extend_from_slice(b"COUNT:1\n")?;
    push_sections(rt.alloc(), &mut text, 8)?;
    text.extend_from_slice(b"\nSF:/b.c\nFNL:0,1\nLF:2\nend_of_record\n# x\n")?;
    let told = check_whole(rt.alloc(), LcovVersion::One, text.as_slice(), WELL)?;
    check_words(
        &rt,
        &told,
        "sections 20 items 18 odd 2 skipped 3 first COUNT at 35\n",
    );
    let told = check_whole(rt.alloc(), LcovVersion::Two, text.as_slice(), WELL)?;
    check_words(
        &rt,
        &told,
        "sections 20 items 18 odd 2 skipped 1 first COUNT at 35\n",
    );
    Ok(())
}

/// An empty tracefile, a tracefile of one chunk, and the ways in which reading ends early.
#[test]
fn other_ends(rt: HostRuntime) -> Result<(), Fail> {
    let told = check_whole(rt.alloc(), LcovVersion::One, b"", WELL)?;
    check_words(&rt, &told, "sections 0 items 0 odd 0 skipped 0\n");
    let told = check_whole(
        rt.alloc(),
        LcovVersion::One,
        b"\n\n  <x>\nSF:/a.c\nFN:1,f\nDA:1,1\nend_of_record\nx",
        WELL,
    )?;
    check_words(
        &rt,
        &told,
        "sections 1 items 2 odd 0 skipped 2 first ??<x> at 3\n",
    );
    let torn = Way { most: 10, fails: 2 };
    let told = check_whole(
        rt.alloc(),
        LcovVersion::One,
        b"SF:/a.c\nend_of_record\n",
        torn,
    )?;
    check_words(&rt, &told, "unreadable\n");
    let text = three_pieces(rt.alloc(), b"LH:1")?;
    let told = check_whole(rt.alloc(), LcovVersion::One, text.as_slice(), WELL)?;
    check_words(&rt, &told, "refused Outside at 56\n");
    let mut long = Vec::from_slice(rt.alloc(), b"SF:/a.c\nend_of_record\n")?;
    push_long_section(rt.alloc(), &mut long, 26)?;
    let told = check_whole(rt.alloc(), LcovVersion::Two, long.as_slice(), WELL)?;
    check_words(&rt, &told, "refused TooLong\n");
    Ok(())
}
