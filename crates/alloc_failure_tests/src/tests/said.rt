//! Operations with the answers and totals that are expected of them.

use super::check_bytes;
use super::texts::{CHECKED, CLASHING, SMALL};
use super::wrappers::{Asked, op_of};
use covbook::{Answer, Entry, Op};
use covtable::Totals;
use std::alloc::Allocator;
use std::process::Abort;
use std::test::*;

/// An expected answer.
#[derive(Clone, Copy)]
pub(super) enum Wanted<'a> {
    /// The submission's number and its number of items. No line is inconsistent.
    Accepted(u64, u64),
    /// The clash between `CHECKED` and `CLASHING`.
    Clash,
    Dropped(u64),
    Renamed(u64),
    NoSuchTest,
    Text(&'a [u8]),
}

/// Checks that the answer is `wanted`.
pub(super) fn check_answer<A: Allocator>(rt: &impl Abort, answer: &Answer<A>, wanted: Wanted<'_>) {
    match (answer, wanted) {
        (Answer::Accepted { number, items, odd }, Wanted::Accepted(place, count)) => {
            assert_eq!(rt; (*number, *items, *odd), (place, count, 0));
        }
        (
            Answer::Clash {
                file,
                line,
                held,
                given,
            },
            Wanted::Clash,
        ) => check_clash(rt, file.get(), *line, held.get(), given.get()),
        (Answer::Dropped { sections }, Wanted::Dropped(count))
        | (Answer::Renamed { sections }, Wanted::Renamed(count)) => {
            assert_eq!(rt; *sections, count);
        }
        (Answer::NoSuchTest, Wanted::NoSuchTest) => {}
        (Answer::Text(printed), Wanted::Text(text)) => check_bytes(rt, printed.get().get(), text),
        _ => panic!(rt; "another answer"),
    }
}

/// Checks the file, the line and the two checksums of a clash between `CHECKED` and `CLASHING`.
fn check_clash(rt: &impl Abort, file: &[u8], line: u64, held: &[u8], given: &[u8]) {
    assert_eq!(rt; line, 1);
    check_bytes(rt, file, b"/a.c");
    check_bytes(rt, held, b"abc");
    check_bytes(rt, given, b"abd");
}

/// Checks that `op` is the operation of `step`, and that the answer and the totals are those that `step` expects.
pub(super) fn check_told<A: Allocator + Copy>(
    rt: &impl Abort,
    alloc: A,
    op: &Op<A>,
    answer: &Answer<A>,
    totals: Totals,
    step: Step<'_>,
) {
    assert!(rt;
        op.is_same(&op_of(rt, alloc, step.asked)),
        "another operation"
    );
    check_answer(rt, answer, step.wanted);
    assert_eq!(rt; (totals.lf, totals.lh), step.lines);
}

/// Checks that `entry` is an entry of `job`, and checks its operation, answer and totals by `check_told`.
pub(super) fn check_entry<A: Allocator + Copy>(
    rt: &impl Abort,
    alloc: A,
    entry: Option<&Entry<A>>,
    job: u32,
    step: Step<'_>,
) {
    let Some(entry) = entry else {
        panic!(rt; "no entry");
    };
    assert_eq!(rt; entry.job, job);
    check_told(rt, alloc, &entry.op, &entry.answer, entry.after, step);
}

/// An operation, its expected answer, and the expected numbers of lines found and hit after the operation.
#[derive(Clone, Copy)]
pub(super) struct Step<'a> {
    pub(super) asked: Asked<'a>,
    pub(super) wanted: Wanted<'a>,
    pub(super) lines: (u64, u64),
}

/// The first step of a book in which an operation is tried.
pub(super) const BEGUN: Step<'static> = Step {
    asked: Asked::Submit(CHECKED),
    wanted: Wanted::Accepted(1, 2),
    lines: (2, 1),
};

/// The steps that are tried in a book after the step `BEGUN`.
pub(super) const STEPS: &[Step<'static>] = &[
    Step {
        asked: Asked::Submit(SMALL),
        wanted: Wanted::Accepted(2, 2),
        lines: (2, 1),
    },
    Step {
        asked: Asked::Submit(CLASHING),
        wanted: Wanted::Clash,
        lines: (2, 1),
    },
    Step {
        asked: Asked::SubmitPacked(SMALL),
        wanted: Wanted::Accepted(2, 2),
        lines: (2, 1),
    },
    Step {
        asked: Asked::SubmitPacked(CLASHING),
        wanted: Wanted::Clash,
        lines: (2, 1),
    },
    Step {
        asked: Asked::Drop(b"t"),
        wanted: Wanted::Dropped(1),
        lines: (0, 0),
    },
    Step {
        asked: Asked::Drop(b"x"),
        wanted: Wanted::NoSuchTest,
        lines: (2, 1),
    },
    Step {
        asked: Asked::Rename(b"t", b"v"),
        wanted: Wanted::Renamed(1),
        lines: (2, 1),
    },
    Step {
        asked: Asked::Rename(b"x", b"v"),
        wanted: Wanted::NoSuchTest,
        lines: (2, 1),
    },
    Step {
        asked: Asked::Report,
        wanted: Wanted::Text(CHECKED),
        lines: (2, 1),
    },
    Step {
        asked: Asked::Extract(&[b"*.c"]),
        wanted: Wanted::Text(CHECKED),
        lines: (2, 1),
    },
    Step {
        asked: Asked::Remove(&[b"*.c"]),
        wanted: Wanted::Text(b""),
        lines: (2, 1),
    },
    Step {
        asked: Asked::Summary,
        wanted: Wanted::Text(SUMMARY),
        lines: (2, 1),
    },
];

/// The summary of `CHECKED`.
const SUMMARY: &[u8] = b"\
Summary coverage rate:
  lines......: 50.0% (1 of 2 lines)
  functions..: no data found
  branches...: no data found
";
