//! Tests calls of covdata, covline and covread that no session makes, on single records, lists and submissions, and the items of an
//! input.

use super::check_bytes;
use super::wrappers::{
    append, branch_first, bytes_of, copied_items, copied_sects, copied_submission, copy_of,
    counted_first, cut_first, is_packed, put_line, read, read_packed, submission_of, text_of,
};
use covdata::{
    BadSubmission, BranchPoint, Bytes, Item, Items, LineFault, Memory, ReadFault, Sect, Sects,
    Submission, Tally, TotalKind, TraceLine, good_test,
};
use covline::{lines, read_line, without_returns};
use std::alloc::Global;
use std::process::Abort;
use std::test::*;

/// A text, and a copy of the text from before its last two appends.
fn text_and_copy(alloc: Global) -> Result<(Bytes, Bytes), Memory> {
    let mut text = bytes_of(alloc, b"ab")?;
    append(&mut text, b"cd")?;
    let copy = copy_of(alloc, &text)?;
    append(&mut text, b"")?;
    append(&mut text, b"\x00")?;
    Ok((text, copy))
}

#[test]
fn bytes(rt: HostRuntime) -> Result<(), Fail> {
    let (text, other) = text_and_copy(rt.alloc())?;
    check_bytes(&rt, text.get(), b"abcd\x00");
    check_bytes(&rt, other.get(), b"abcd");
    let none: Bytes = Bytes::new(rt.alloc());
    check_bytes(&rt, none.get(), b"");
    Ok(())
}

/// Records whose numbers are the largest that fit. A skipped line isn't printed.
const LARGEST: &[TraceLine<'static>] = &[
    TraceLine::Skip,
    TraceLine::FuncCount {
        count: u128::MAX,
        name: b"g(int, int)",
    },
    TraceLine::Total {
        kind: TotalKind::LineHit,
        value: u64::MAX,
    },
];

/// Appends the printed records.
fn put_records(records: &[TraceLine<'_>], text: &mut Bytes) -> Result<(), Memory> {
    for record in records {
        put_line(record, text)?;
    }
    Ok(())
}

/// Printed records are appended to the text.
#[test]
fn printed_records(rt: HostRuntime) -> Result<(), Fail> {
    let mut text = bytes_of(rt.alloc(), b"#\n")?;
    put_records(LARGEST, &mut text)?;
    check_bytes(
        &rt,
        text.get(),
        b"#\nFNDA:340282366920938463463374607431768211455,g(int, int)\nLH:18446744073709551615\n",
    );
    Ok(())
}

/// A first `DA:` line is parsed without cutting it off if it has a line feed and a count below 2^64, and no checksum or one that is
/// neither empty nor has a comma. Other lines are cut off first.
const COUNTS_BEFORE_A_CUT: &[(&[u8], Option<(u64, u64, &[u8], usize)>)] = &[
    (b"DA:7,12,sum+/==\nDA:8,1\n", Some((7, 12, b"sum+/==", 7))),
    (b"DA:7,12\nDA:8,1,x\n", Some((7, 12, b"", 9))),
    (b"DA:7,12,\n", None),
    (b"DA:7,12,a,b\n", None),
    (b"DA:7,12,sum", None),
    (b"DA:7,18446744073709551616,a\n", None),
    (b"DA:7,12", None),
    (b"DA:7,18446744073709551616\n", None),
    (
        b"DA:0,18446744073709551615\n",
        Some((0, 18446744073709551615, b"", 0)),
    ),
];

#[test]
fn counts_before_a_cut(rt: HostRuntime) {
    for (text, wanted) in COUNTS_BEFORE_A_CUT {
        assert!(rt; counted_first(text) == *wanted, "{text:?}");
    }
}

const POINT: BranchPoint = BranchPoint {
    line: 7,
    block: 0,
    branch: 2,
};

/// A first `BRDA:` line is parsed without cutting it off if its last field, right before a line feed, is a dash or a count below
/// 2^64.
const BRANCHES_BEFORE_A_CUT: &[(&[u8], Option<(BranchPoint, Option<u64>, usize)>)] = &[
    (b"BRDA:7,0,2,12\nDA:7,3\n", Some((POINT, Some(12), 7))),
    (b"BRDA:7,0,2,-\n", Some((POINT, None, 0))),
    (b"BRDA:7,0,2,-1\n", None),
    (b"BRDA:7,0,2,18446744073709551616\n", None),
    (b"BRDA:7,0,2,12", None),
    (b"BRDA:7,0,2,12\r\n", None),
];

#[test]
fn branches_before_a_cut(rt: HostRuntime) {
    for (text, wanted) in BRANCHES_BEFORE_A_CUT {
        assert!(rt; branch_first(text) == *wanted, "{text:?}");
    }
}

/// The length of a text's first line, and the number of bytes after this line.
#[test]
fn first_lines(rt: HostRuntime) {
    assert!(rt; cut_first(b"TN:a\r\nrest") == (4, 4));
    assert!(rt; cut_first(b"rest") == (4, 0));
}

/// Appends the printed record of the line, or `skipped` for a skipped line and `faulty` for an invalid line.
fn put_read(line: &[u8], printed: &mut Bytes) -> Result<(), Memory> {
    match read_line(line) {
        Ok(TraceLine::Skip) => append(printed, b"skipped\n"),
        Ok(record) => put_line(&record, printed),
        Err(_fault) => append(printed, b"faulty\n"),
    }
}

/// Lines, each with its printed record.
const RECORDS: &[(&[u8], &[u8])] = &[
    (b"DA:007,1", b"DA:7,1\n"),
    (b"DA:1,2,", b"faulty\n"),
    (b"DA:1,2,a b", b"faulty\n"),
    (b"DA:1,-", b"faulty\n"),
    (b"FN:3,", b"faulty\n"),
    (b"FN:3,a,b", b"FN:3,a,b\n"),
    (b"FNDA:04,a,b", b"FNDA:4,a,b\n"),
    (b"BRDA:1,0,0,-", b"BRDA:1,0,0,-\n"),
    (b"BRDA:1,02,3,4", b"BRDA:1,2,3,4\n"),
    (b"BRDA:1,e0,0,1", b"faulty\n"),
    (b" DA:1,1", b"skipped\n"),
    (b"DA:1,-99999999999999999999", b"DA:1,0\n"),
    (b"DA:1,18446744073709551616", b"DA:1,18446744073709551616\n"),
    (b"DA:18446744073709551616,1", b"faulty\n"),
    (
        b"DA:1,340282366920938463463374607431768211455",
        b"DA:1,340282366920938463463374607431768211455\n",
    ),
    (b"DA:1,340282366920938463463374607431768211456", b"faulty\n"),
    (b"DA:1,1,abc", b"DA:1,1,abc\n"),
    (b"end_of_record x", b"end_of_record\n"),
    (b"TN:", b"TN:\n"),
    (b"SF:", b"faulty\n"),
    (b"SF:a", b"SF:a\n"),
    (b"FNF:01", b"FNF:1\n"),
    (b"FNH:2", b"FNH:2\n"),
    (b"BRF:3", b"BRF:3\n"),
    (b"BRH:4", b"BRH:4\n"),
    (b"LF:5", b"LF:5\n"),
    (b"LH:6", b"LH:6\n"),
];

/// Checks the printed record of the line.
fn check_record(rt: &(impl Abort + AllocGlobal), line: &[u8], wanted: &[u8]) -> Result<(), Memory> {
    let mut printed = Bytes::new(rt.alloc());
    put_read(line, &mut printed)?;
    check_bytes(rt, printed.get(), wanted);
    Ok(())
}

#[test]
fn read_records(rt: HostRuntime) -> Result<(), Fail> {
    for (line, wanted) in RECORDS {
        check_record(&rt, line, wanted)?;
    }
    Ok(())
}

/// Appends each line of the text with a bar after the line.
fn put_lines(text: &[u8], joined: &mut Bytes) -> Result<(), Memory> {
    for line in lines(text) {
        append(joined, line)?;
        append(joined, b"|")?;
    }
    Ok(())
}

/// Texts, each with its lines.
const LINES_OF_TEXTS: &[(&[u8], &[u8])] = &[
    (b"", b""),
    (b"a", b"a|"),
    (b"a\nb", b"a|b|"),
    (b"\n\na\n", b"||a|"),
    (b"\r\n", b"|"),
    (b"a\r\r\nb\n", b"a|b|"),
    (b"a\rb\n", b"a\rb|"),
    (b"a\n\r", b"a||"),
    (b"a\n\rb\r", b"a|\rb|"),
];

/// Checks the lines of the text.
fn check_lines(rt: &(impl Abort + AllocGlobal), text: &[u8], wanted: &[u8]) -> Result<(), Memory> {
    let mut joined = Bytes::new(rt.alloc());
    put_lines(text, &mut joined)?;
    check_bytes(rt, joined.get(), wanted);
    Ok(())
}

#[test]
fn lines_of_texts(rt: HostRuntime) -> Result<(), Fail> {
    for (text, wanted) in LINES_OF_TEXTS {
        check_lines(&rt, text, wanted)?;
    }
    Ok(())
}

#[test]
fn ends_of_lines(rt: HostRuntime) {
    check_bytes(&rt, without_returns(b"\ra\rb\r\r"), b"\ra\rb");
    check_bytes(&rt, without_returns(b"\r"), b"");
}

#[test]
fn tallies(rt: HostRuntime) {
    let tally = Tally::NONE.and(true).and(false);
    assert_eq!(rt; (tally.found, tally.hit), (2, 1));
}

const GOOD_NAMES: &[&[u8]] = &[b"", b"unit", b"a\rb", b"a,b"];

const BAD_NAMES: &[&[u8]] = &[b"a\nb", b"\n", b"a\r", b"\r"];

#[test]
fn names_of_tests(rt: HostRuntime) {
    for name in GOOD_NAMES {
        assert!(rt; good_test(name), "{name:?}");
    }
    for name in BAD_NAMES {
        assert!(rt; !good_test(name), "{name:?}");
    }
}

/// The item of a line.
fn line_of(alloc: Global, checksum: &[u8]) -> Result<Item, Memory> {
    Ok(Item::Line {
        line: 1,
        count: 2,
        checksum: Some(bytes_of(alloc, checksum)?),
    })
}

/// The item of a function.
fn function_of(alloc: Global, name: &[u8]) -> Result<Item, Memory> {
    Ok(Item::Func {
        name: bytes_of(alloc, name)?,
        line: 3,
        count: 4,
    })
}

/// Appends the items of a line, a function and a branch.
fn push_items(
    alloc: Global,
    items: &mut Items,
    function: &[u8],
    checksum: &[u8],
) -> Result<(), Memory> {
    items.push(line_of(alloc, checksum)?)?;
    items.push(function_of(alloc, function)?)?;
    items.push(Item::Branch {
        line: 5,
        block: 6,
        branch: 7,
        taken: None,
    })
}

/// The items of a line, a function and a branch.
fn items_of(alloc: Global, function: &[u8], checksum: &[u8]) -> Result<Items, Memory> {
    let mut items = Items::new(alloc);
    push_items(alloc, &mut items, function, checksum)?;
    Ok(items)
}

/// Appends the line and the branch that an item counts (`None` if it counts none), and whether the item is hit.
fn put_points(alloc: Global, item: &Item, text: &mut Vec<u8>) -> Result<(), Fail> {
    let line = item.line_point();
    let branch = item.branch_point();
    let hit = item.is_hit();
    let words: String = format!(in alloc; "{line:?} {branch:?} {hit}\n")?;
    text.extend_from_slice(words.as_bytes())?;
    Ok(())
}

#[test]
fn points_of_items(rt: HostRuntime) -> Result<(), Fail> {
    let items = items_of(rt.alloc(), b"f", b"k")?;
    let mut text = Vec::new(rt.alloc());
    for item in items.get() {
        put_points(rt.alloc(), item, &mut text)?;
    }
    check_bytes(
        &rt,
        text.as_slice(),
        b"\
Some(1) None true
None None true
None Some(BranchPoint { line: 5, block: 6, branch: 7 }) false
",
    );
    Ok(())
}

const TWO: &[u8] = b"TN:\nSF:a.c\nDA:1,2,k\nFN:3,f\nFNDA:4,f\nBRDA:5,6,7,-\nend_of_record\n\
    TN:t\nSF:a\rb.c\nDA:1,2,+/==\nFN:3,g(int, int)\nFNDA:4,g(int, int)\nBRDA:5,6,7,-\nend_of_record\n";

/// The texts of a section: its test, its file, a function and a checksum.
type Texts = [&'static [u8]; 4];

/// A section with these texts.
fn sect_of(alloc: Global, texts: &Texts) -> Result<Sect, Memory> {
    let [test, file, function, checksum] = texts;
    Ok(Sect {
        test: bytes_of(alloc, test)?,
        file: bytes_of(alloc, file)?,
        items: items_of(alloc, function, checksum)?,
    })
}

/// Sections with these texts.
fn sects_of(alloc: Global, all: &[Texts]) -> Result<Sects, Memory> {
    let mut sects = Sects::new(alloc);
    for texts in all {
        sects.push(sect_of(alloc, texts)?)?;
    }
    Ok(sects)
}

/// The texts of the sections of `TWO`.
const TEXTS_OF_TWO: &[Texts] = &[
    [b"", b"a.c", b"f", b"k"],
    [b"t", b"a\rb.c", b"g(int, int)", b"+/=="],
];

/// Checks that `text_of` returns the expected text for the sections.
fn check_sects(rt: &(impl Abort + AllocGlobal), sects: &[Sect], wanted: &[u8]) -> Result<(), Fail> {
    let text = text_of(rt.alloc(), sects)?;
    check_bytes(rt, text.get(), wanted);
    Ok(())
}

/// Copies the items of each section, and checks that each copy has three items.
fn check_copied_items(rt: &(impl Abort + AllocGlobal), sects: &[Sect]) -> Result<(), Fail> {
    for sect in sects {
        let items = copied_items(rt.alloc(), &sect.items)?;
        assert_eq!(rt; items.get().len(), 3);
    }
    Ok(())
}

/// Checks a copy of the sections of `TWO`.
fn check_copy(rt: &(impl Abort + AllocGlobal), sects: &Sects) -> Result<(), Fail> {
    let copy = copied_sects(rt.alloc(), sects)?;
    check_sects(rt, copy.get(), TWO)?;
    check_copied_items(rt, copy.get())
}

#[test]
fn lists_and_their_copies(rt: HostRuntime) -> Result<(), Fail> {
    let sects = sects_of(rt.alloc(), TEXTS_OF_TWO)?;
    check_sects(&rt, sects.get(), TWO)?;
    check_copy(&rt, &sects)
}

/// A submission with the sections of `TWO` and 14 inconsistent lines.
fn of_two(alloc: Global) -> Result<Submission, Fail> {
    match submission_of(sects_of(alloc, TEXTS_OF_TWO)?, 14) {
        Ok(submission) => Ok(submission),
        Err((_sects, fault)) => Err(Fail::from(fault)),
    }
}

/// Checks that the submission has the sections of `TWO` and 14 inconsistent lines.
fn check_two(rt: &(impl Abort + AllocGlobal), submission: &Submission) -> Result<(), Fail> {
    assert_eq!(rt; submission.items(), 6);
    assert_eq!(rt; submission.odd(), 14);
    check_sects(rt, submission.sects(), TWO)
}

/// Checks a copy of the submission.
fn check_copied_two(rt: &(impl Abort + AllocGlobal), submission: &Submission) -> Result<(), Fail> {
    check_two(rt, &copied_submission(rt.alloc(), submission)?)
}

#[test]
fn lawful_submissions(rt: HostRuntime) -> Result<(), Fail> {
    let submission = of_two(rt.alloc())?;
    check_two(&rt, &submission)?;
    check_copied_two(&rt, &submission)
}

/// Makes a submission of the sections. If a name or a checksum is rejected, returns the sections and the index of the first section
/// with such a text. Otherwise returns `None`.
fn handed_back(sects: Sects) -> Option<(Sects, usize)> {
    match submission_of(sects, 0) {
        Ok(_submission) => None,
        Err((sects, fault)) => match fault {
            BadSubmission::BadText { sect } => Some((sects, sect)),
            BadSubmission::TooMany => None,
        },
    }
}

/// A section with an empty path is rejected. The error contains the sections.
#[test]
fn an_empty_file(rt: HostRuntime) -> Result<(), Fail> {
    match handed_back(sects_of(rt.alloc(), &[[b"t", b"", b"f", b"k"]])?) {
        Some((sects, unlawful)) => {
            assert!(rt; unlawful == 0);
            check_sects(
                &rt,
                sects.get(),
                b"TN:t\nSF:\nDA:1,2,k\nFN:3,f\nFNDA:4,f\nBRDA:5,6,7,-\nend_of_record\n",
            )
        }
        None => panic!(rt; "it isn't refused for its texts"),
    }
}

/// Texts of a section of which one is unlawful.
const UNLAWFUL_TEXTS: &[Texts] = &[
    [b"t", b"", b"f", b"k"],
    [b"t", b"b\n", b"f", b"k"],
    [b"t", b"a\r", b"f", b"k"],
    [b"t\n", b"b", b"f", b"k"],
    [b"t", b"b", b"", b"k"],
    [b"t", b"b", b"f\ng", b"k"],
    [b"t", b"b", b"f", b""],
    [b"t", b"b", b"f", b"k,"],
    [b"t", b"b", b"f", b" k"],
    [b"t", b"b", b"f", b"k\tk"],
    [b"t", b"b", b"f", b"k\rk"],
];

const LAWFUL: Texts = [b"", b"a.c", b"f", b"k"];

const UNLAWFUL: Texts = [b"\n", b"", b"f", b"k"];

/// Checks that a submission is rejected for the third of its four sections, which has these texts. The fourth is unlawful too.
fn check_unlawful(rt: &(impl Abort + AllocGlobal), texts: &Texts) -> Result<(), Fail> {
    match handed_back(sects_of(rt.alloc(), &[LAWFUL, LAWFUL, *texts, UNLAWFUL])?) {
        Some((sects, unlawful)) => assert!(rt;
            sects.get().len() == 4 && unlawful == 2,
            "{texts:?}"
        ),
        None => panic!(rt; "it isn't refused for its texts: {texts:?}"),
    }
    Ok(())
}

#[test]
fn unlawful_texts(rt: HostRuntime) -> Result<(), Fail> {
    for texts in UNLAWFUL_TEXTS {
        check_unlawful(&rt, texts)?;
    }
    Ok(())
}

/// The errors of inputs, in the order of their numbers.
const FAULTS: &[ReadFault] = &[
    ReadFault::TooLong,
    ReadFault::Line {
        at: 1,
        fault: LineFault::BadLine,
    },
    ReadFault::Outside { at: 1 },
    ReadFault::Inside { at: 1 },
    ReadFault::OpenEnd,
    ReadFault::BadMark { at: 1 },
    ReadFault::NoSource { at: 1 },
    ReadFault::Percent { at: 1 },
    ReadFault::Instances { at: 1 },
    ReadFault::Misplaced { at: 1 },
    ReadFault::LostFunction,
    ReadFault::BadTest,
    ReadFault::Memory,
];

#[test]
fn numbers_of_faults(rt: HostRuntime) {
    let mut wanted = 1;
    for fault in FAULTS {
        assert!(rt; fault.number() == wanted, "{fault:?}");
        wanted = wanted.wrapping_add(1);
    }
}

/// The numbers of the errors of lines and submissions.
#[test]
fn numbers_of_other_faults(rt: HostRuntime) {
    assert!(rt; LineFault::BadLine.number() == 1);
    assert!(rt; LineFault::NumberTooLarge.number() == 2);
    assert!(rt; LineFault::EmptyPath.number() == 3);
    assert!(rt; BadSubmission::TooMany.number() == 1);
    assert!(rt; BadSubmission::BadText { sect: 7 }.number() == 2);
}

/// Checks that the input, read as a packed submission, is this submission.
fn check_packed(
    rt: &(impl Abort + AllocGlobal),
    text: &[u8],
    wanted: &Submission,
) -> Result<(), Fail> {
    assert!(rt; is_packed(&read_packed(rt.alloc(), text)?, wanted));
    Ok(())
}

/// Checks the sections of an input that is read as a submission and as a packed submission. No line may be inconsistent.
fn check_read(rt: &(impl Abort + AllocGlobal), text: &[u8], wanted: &[u8]) -> Result<(), Fail> {
    let submission = read(rt.alloc(), text)?;
    assert_eq!(rt; submission.odd(), 0);
    check_packed(rt, text, &submission)?;
    check_sects(rt, submission.sects(), wanted)
}

/// Items come in the order of their lines. A start line is an item with the count 0. A count of a function is an item with the
/// least start line that the function has in the section.
const ITEMS_OF_TEXTS: &[(&[u8], &[u8])] = &[
    (
        b"VER:x\r\nSF:/a.c\r\nDA:1,1\r\nend_of_record",
        b"TN:\nSF:/a.c\nDA:1,1\nend_of_record\n",
    ),
    (
        b"TN:t\nSF:a\nFN:9,f\nFNDA:1,f\nFN:3,f\nFNDA:2,f\nend_of_record\n",
        b"TN:t\nSF:a\nFN:9,f\nFNDA:0,f\nFN:3,f\nFNDA:1,f\nFN:3,f\nFNDA:0,f\nFN:3,f\nFNDA:2,f\nend_of_record\n",
    ),
    (
        b"SF:a\nDA:5,1\nBRDA:5,0,1,-\nFN:4,f\nDA:4,18446744073709551615,1B2M2Y8AsgTpgAmY7PhCfg\nend_of_record\nSF:b\nend_of_record\n",
        b"TN:\nSF:a\nDA:5,1\nBRDA:5,0,1,-\nFN:4,f\nFNDA:0,f\nDA:4,18446744073709551615,1B2M2Y8AsgTpgAmY7PhCfg\nend_of_record\nTN:\nSF:b\nend_of_record\n",
    ),
];

#[test]
fn items_of_texts(rt: HostRuntime) -> Result<(), Fail> {
    for (text, wanted) in ITEMS_OF_TEXTS {
        check_read(&rt, text, wanted)?;
    }
    Ok(())
}
