//! Runs each example with a small input. The expected results were worked out by hand from the formats (geninfo(1), section FILES;
//! lcov(1), `--summary`; gcov(1)).

use crate::books::answers;
use crate::calls::merge_of;
use crate::counts::add_counts;
use crate::reading::{check_line, items_of_lcov2, read_either};
use crate::records::{PrintFault, counted_lines};
use crate::reports::reports;
use crate::sessions::answers_to;
use crate::stores::merged;
use crate::streams::first_bytes;
use covbook::Answer;
use covcommand::Names;
use covdata::{LineFault, Submission};
use covmap::StagedMap;
use covread::read_trace;
use covstore::Store;
use std::alloc::Global;
use std::process::Abort;
use std::test::*;

const FIRST: &[u8] = b"TN:unit\nSF:/src/a.c\nDA:1,2\nDA:3,0\nend_of_record\n";

const SECOND: &[u8] =
    b"TN:unit\nSF:/src/a.c\nDA:1,5\nDA:2,1\nend_of_record\nSF:/lib/b.c\nDA:9,0\nend_of_record\n";

const MERGED: &[u8] = b"TN:unit\nSF:/src/a.c\nDA:1,7\nDA:2,1\nDA:3,0\nLF:3\nLH:2\nend_of_record\n";

const SUMMARY: &[u8] = b"\
Summary coverage rate:
  lines......: 50.0% (2 of 4 lines)
  functions..: no data found
  branches...: no data found
";

/// Checks that the bytes are as expected.
fn check_bytes(rt: &impl Abort, given: &[u8], wanted: &[u8]) {
    assert_eq!(rt; given, wanted);
}

#[test]
fn lines_with_counts(rt: HostRuntime) -> Result<(), Fail> {
    let printed = counted_lines(
        rt.alloc(),
        b"SF:/a.c\nDA:01,2\nFN:1,f\nDA:3,-4,abc\r\nLF:2\nend_of_record\n",
    )?;
    check_bytes(&rt, printed.get(), b"DA:1,2\nDA:3,0,abc\n");
    let fault = counted_lines(rt.alloc(), b"DA:1\n").err();
    assert_eq!(rt; fault, Some(PrintFault::Line(LineFault::BadLine)));
    Ok(())
}

#[test]
fn a_tracefile_of_lcov2(rt: HostRuntime) -> Result<(), Fail> {
    let text = b"SF:/a.c\nFNL:0,1,3\nFNA:0,2,f\nBRDA:1,U0,0,3\nDA:1,2\nend_of_record\n";
    let items = items_of_lcov2(rt.alloc(), text)?;
    assert_eq!(rt; items, 3);
    Ok(())
}

#[test]
fn both_formats(rt: HostRuntime) -> Result<(), Fail> {
    let trace = read_either(rt.alloc(), b"unit", FIRST)?;
    assert_eq!(rt; (trace.sects().len(), trace.items()), (1, 2));
    let source =
        b"        -:    0:Source:a.c\n        3:    1:int f(void)\n    #####:    2:  return 0;\n        -:    3:}\n";
    let annotated = read_either(rt.alloc(), b"unit", source)?;
    assert_eq!(rt; (annotated.sects().len(), annotated.items()), (1, 2));
    Ok(())
}

#[test]
fn what_a_text_holds(rt: HostRuntime) -> Result<(), Fail> {
    let line = check_line(
        rt.alloc(),
        b"FNL:0,1\nSF:/a.c\nDA:1,2\nDA:3,0\nLF:5\nend_of_record\n",
    )?;
    check_bytes(
        &rt,
        line.as_slice(),
        b"sections 1 items 2 odd 1 skipped 1 first FNL at 1\n",
    );
    Ok(())
}

#[test]
fn added_counts(rt: HostRuntime) -> Result<(), Fail> {
    let mut lines = StagedMap::new(rt.alloc());
    add_counts(rt.alloc(), &mut lines, &[(1, 2), (3, 0)])?;
    add_counts(rt.alloc(), &mut lines, &[(1, 5), (2, 1), (1, 1)])?;
    assert_eq!(rt;
        (lines.lookup(1), lines.lookup(2), lines.lookup(3)),
        (Some(8), Some(1), Some(0))
    );
    Ok(())
}

/// A store with the tracefiles `FIRST` and `SECOND`.
fn store_of(rt: &(impl Abort + AllocGlobal)) -> Result<Store, Fail> {
    let first = read_trace(rt.alloc(), FIRST)?;
    let second = read_trace(rt.alloc(), SECOND)?;
    match merged(rt.alloc(), &first, &second) {
        Ok(store) => Ok(store),
        Err(_refuse) => panic!(rt; "the submissions aren't held"),
    }
}

#[test]
fn merged_reports(rt: HostRuntime) -> Result<(), Fail> {
    let store = store_of(&rt)?;
    let (tracefile, summary) = reports(rt.alloc(), &store, b"/src/*.c")?;
    check_bytes(&rt, tracefile.get(), MERGED);
    check_bytes(&rt, summary.get(), SUMMARY);
    Ok(())
}

/// The text of an answer; empty if the answer isn't a text.
fn text_of(answer: &Answer) -> &[u8] {
    match answer {
        Answer::Text(text) => text.get().get(),
        _ => b"",
    }
}

#[test]
fn answers_of_a_book(rt: HostRuntime) -> Result<(), Fail> {
    let (first, second) = answers::<Store>(rt.alloc(), read_trace(rt.alloc(), FIRST)?)?;
    assert!(rt;
        matches!(
            first,
            Answer::Accepted {
                number: 1,
                items: 2,
                odd: 0
            }
        )
    );
    check_bytes(
        &rt,
        text_of(&second),
        b"TN:unit\nSF:/src/a.c\nDA:1,2\nDA:3,0\nLF:2\nLH:1\nend_of_record\n",
    );
    Ok(())
}

#[test]
fn first_bytes_of_texts(rt: HostRuntime) -> Result<(), Fail> {
    let first = first_bytes(rt.alloc(), b"TN:unit\nSF:/src/a.c\n")?;
    check_bytes(&rt, first.get(), b"TN:unit\nSF:/src/");
    let whole = first_bytes(rt.alloc(), b"TN:unit\n")?;
    check_bytes(&rt, whole.get(), b"TN:unit\n");
    Ok(())
}

#[test]
fn answers_of_a_session(rt: HostRuntime) -> Result<(), Fail> {
    let commands = b"trace\nSF:/src/a.c\nDA:1,2\nend_of_record\n.\nextract /lib/*\nforget\n";
    let answers = answers_to(rt.alloc(), commands)?;
    check_bytes(
        &rt,
        answers.as_slice(),
        b"accepted 1 items 1 odd 0\n.\nunknown\n",
    );
    Ok(())
}

/// Splits a command line into its arguments.
fn words_of(alloc: Global, call: &str) -> Result<Vec<String>, Fail> {
    let mut words = Vec::new(alloc);
    for word in call.split_whitespace() {
        words.push(String::from_str(alloc, word)?)?;
    }
    Ok(words)
}

/// Whether the command line merges `a.info` and `b.info` with this number of jobs.
fn merges_both(alloc: Global, call: &str, wanted: u32) -> Result<bool, Fail> {
    let words = words_of(alloc, call)?;
    match merge_of(alloc, words.as_slice()) {
        Ok(Some((jobs, names))) => Ok(jobs == wanted && are_both(&names)),
        _ => Ok(false),
    }
}

/// Whether the names are `a.info` and `b.info`.
fn are_both(names: &Names) -> bool {
    match names.get() {
        [first, second] => first.as_str() == "a.info" && second.as_str() == "b.info",
        _ => false,
    }
}

/// Whether the command line is valid and isn't a merge.
fn merges_nothing(alloc: Global, call: &str) -> Result<bool, Fail> {
    let words = words_of(alloc, call)?;
    Ok(matches!(merge_of(alloc, words.as_slice()), Ok(None)))
}

#[test]
fn merges_by_their_words(rt: HostRuntime) -> Result<(), Fail> {
    let alloc = rt.alloc();
    assert!(rt; merges_both(alloc, "covcollect merge --jobs 2 a.info b.info", 2)?);
    assert!(rt; merges_both(alloc, "covcollect merge a.info b.info", 1)?);
    assert!(rt; merges_nothing(alloc, "covcollect summary a.info b.info")?);
    Ok(())
}
