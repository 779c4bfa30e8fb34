//! Tests of `gather` for a history of six calls and the logs of two jobs.

use super::steps::{Step, check_steps};
use super::words::{answer_of, number_of};
use super::wrappers::{copied_answer, copied_op, entries, gathered};
use covbook::{
    Answer, Book, Entry, GatherFault, JobLog, Logs, Reading, Readings, Receipt, Receipts,
};
use covreport::Table;
use covrows::Rows;
use covtable::Totals;
use std::alloc::Global;
use std::process::Abort;
use std::test::*;

const SUMMARY: &[u8] = b"Summary coverage rate:
  lines......: 50.0% (1 of 2 lines)
  functions..: no data found
  branches...: no data found
";

/// `SUMMARY` with another last byte.
const OTHER_SUMMARY: &[u8] = b"Summary coverage rate:
  lines......: 50.0% (1 of 2 lines)
  functions..: no data found
  branches...: no data found?";

/// Jobs 0 and 1 ask in turn: both submit the same tracefile, job 0 asks for a summary, job 1 drops an unknown test, job 0 asks for
/// a report, and job 1 for a summary.
const SIX_CALLS: &[Step<'static>] = &[
    (0, b"submit DA:1,2;DA:2,0", b"a120", 2, 1),
    (1, b"submit DA:1,2;DA:2,0", b"a220", 2, 1),
    (0, b"summary", SUMMARY, 2, 1),
    (1, b"drop x", b"n", 2, 1),
    (
        0,
        b"report",
        b"TN:t\nSF:/a.c\nDA:1,4\nDA:2,0\nLF:2\nLH:1\nend_of_record\n",
        2,
        1,
    ),
    (1, b"summary", SUMMARY, 2, 1),
];

/// The entry whose index is `digit`.
fn entry_at<'e>(rt: &impl Abort, entries: &'e [Entry], digit: u8) -> &'e Entry {
    match entries.get(number_of(digit) as usize) {
        Some(entry) => entry,
        None => panic!(rt; "no entry {digit}"),
    }
}

/// The answer of the entry whose index is `digit`. If `digit` is `!`, `OTHER_SUMMARY`.
fn answer_at(rt: &(impl Abort + AllocGlobal), entries: &[Entry], digit: u8) -> Answer {
    match digit {
        b'!' => answer_of(rt, OTHER_SUMMARY),
        _ => copied_answer(rt, &entry_at(rt, entries, digit).answer),
    }
}

/// The index that a sign means: a digit is itself, and `^` is the largest number.
fn place_of(sign: u8) -> u64 {
    match sign {
        b'^' => u64::MAX,
        digit => number_of(digit),
    }
}

/// Makes a receipt from three signs: its index, the index of the entry whose operation it has, and the index of the entry whose
/// answer it has, or `!` for another answer.
fn receipt_of(rt: &(impl Abort + AllocGlobal), entries: &[Entry], word: &[u8]) -> Receipt {
    let [place, op, answer] = word else {
        panic!(rt; "no receipt {word:?}");
    };
    Receipt {
        place: place_of(*place),
        op: copied_op(rt, &entry_at(rt, entries, *op).op),
        answer: answer_at(rt, entries, *answer),
    }
}

/// Makes a reading from three digits: the numbers of entries, of lines found and of lines hit. All other totals are 0.
fn reading_of(upto: u8, lines_found: u8, lines_hit: u8) -> Reading {
    let mut totals = Totals::default();
    totals.lf = number_of(lines_found);
    totals.lh = number_of(lines_hit);
    Reading {
        upto: number_of(upto),
        totals,
    }
}

/// Puts what a word says into the log: its job, a receipt, or a reading, which has `=` after its number of entries.
fn put_word(rt: &(impl Abort + AllocGlobal), entries: &[Entry], word: &[u8], log: &mut JobLog) {
    let is_put = match word {
        [digit] => {
            log.job = u32::from(digit.wrapping_sub(b'0'));
            true
        }
        [upto, b'=', found, hit] => log.readings.push(reading_of(*upto, *found, *hit)).is_ok(),
        _ => log.receipts.push(receipt_of(rt, entries, word)).is_ok(),
    };
    assert!(rt; is_put);
}

/// Makes a log from a line's words: the job, the receipts and the readings.
fn log_of(rt: &(impl Abort + AllocGlobal), entries: &[Entry], line: &[u8]) -> JobLog {
    let mut log = JobLog {
        job: 0,
        receipts: Receipts::new(rt.alloc()),
        readings: Readings::new(rt.alloc()),
    };
    for word in line.split(|byte| *byte == b' ') {
        put_word(rt, entries, word, &mut log);
    }
    log
}

/// Makes a log from each line.
fn logs_of(rt: &(impl Abort + AllocGlobal), entries: &[Entry], lines: &[&[u8]]) -> Logs {
    let mut logs = Logs::new(rt.alloc());
    for line in lines {
        assert!(rt; logs.push(log_of(rt, entries, line)).is_ok());
    }
    logs
}

/// An example: its name, a line for each log, and the result of `gather` for these logs.
type Example<'s> = (&'s [u8], &'s [&'s [u8]], Result<(), GatherFault>);

/// Checks examples for this history. The receipts are made from `entries`, which may be more entries than the history has.
fn check_history(
    rt: &(impl Abort + AllocGlobal),
    entries: &[Entry],
    history: &[Entry],
    examples: &[Example<'_>],
) {
    for (name, lines, wanted) in examples {
        let logs = logs_of(rt, entries, lines);
        assert!(rt; gathered(history, logs.get()) == *wanted, "{name:?}");
    }
}

/// Examples for `SIX_CALLS`.
const EXAMPLES: &[Example<'static>] = &[
    (
        b"all that they kept",
        &[b"0 000 222 444", b"1 111 333 555"],
        Ok(()),
    ),
    (
        b"a third job that kept nothing",
        &[b"0 000 222 444", b"1 111 333 555", b"9"],
        Ok(()),
    ),
    (
        b"another byte in a text",
        &[b"0 000 222 444", b"1 111 333 55!"],
        Err(GatherFault::Differs { log: 1, index: 2 }),
    ),
    (
        b"another operation",
        &[b"0 000 222 424", b"1 111 333 555"],
        Err(GatherFault::Differs { log: 0, index: 2 }),
    ),
    (
        b"two receipts exchanged",
        &[b"0 222 000 444", b"1 111 333 555"],
        Err(GatherFault::Backwards { log: 0, index: 1 }),
    ),
    (
        b"a receipt kept twice",
        &[b"0 000 000 222 444", b"1 111 333 555"],
        Err(GatherFault::Backwards { log: 0, index: 1 }),
    ),
    (
        b"a receipt kept twice, then with the answer of another entry",
        &[b"0 000 001 222 444", b"1 111 333 555"],
        Err(GatherFault::Differs { log: 0, index: 1 }),
    ),
    (
        b"the receipts of the two logs exchanged",
        &[b"0 111 333 555", b"1 000 222 444"],
        Err(GatherFault::Stranger { log: 0, index: 0 }),
    ),
    (
        b"a receipt left out",
        &[b"0 000 222 444", b"1 111 555"],
        Err(GatherFault::Missing { place: 3 }),
    ),
    (
        b"the last receipt left out",
        &[b"0 000 222 444", b"1 111 333"],
        Err(GatherFault::Missing { place: 5 }),
    ),
    (
        b"many receipts left out",
        &[b"0 444", b"1 111"],
        Err(GatherFault::Missing { place: 0 }),
    ),
    (
        b"a log left out",
        &[b"1 111 333 555"],
        Err(GatherFault::Missing { place: 0 }),
    ),
    (b"no logs", &[], Err(GatherFault::Missing { place: 0 })),
    (
        b"a place after the last entry",
        &[b"0 000 222 444", b"1 111 333 655"],
        Err(GatherFault::Stranger { log: 1, index: 2 }),
    ),
    (
        b"the largest place",
        &[b"0 000 222 444 ^44", b"1 111 333 555"],
        Err(GatherFault::Stranger { log: 0, index: 3 }),
    ),
    (
        b"a place of the other job",
        &[b"0 100 222 444", b"1 111 333 555"],
        Err(GatherFault::Stranger { log: 0, index: 0 }),
    ),
    (
        b"two logs of job 0",
        &[b"0 000 222 444", b"0 111 333 555"],
        Err(GatherFault::SameJob { log: 1 }),
    ),
    (
        b"two logs of job 1",
        &[b"1 000 222 444", b"1 111 333 555"],
        Err(GatherFault::SameJob { log: 1 }),
    ),
    (
        b"jobs come before receipts",
        &[b"0 622", b"1 100", b"1"],
        Err(GatherFault::SameJob { log: 2 }),
    ),
    (
        b"the totals after all entries",
        &[b"0 000 222 444 6=21", b"1 111 333 555"],
        Ok(()),
    ),
    (
        b"readings in any order",
        &[b"0 000 222 444", b"1 111 333 555 1=21 0=00 3=21"],
        Ok(()),
    ),
    (
        b"more entries than there are",
        &[b"0 000 222 444 7=21", b"1 111 333 555"],
        Err(GatherFault::BadReading { log: 0, index: 0 }),
    ),
    (
        b"zeros after two entries",
        &[b"0 000 222 444 2=00", b"1 111 333 555"],
        Err(GatherFault::BadReading { log: 0, index: 0 }),
    ),
    (
        b"totals of lines after no entries",
        &[b"0 000 222 444", b"1 111 333 555 0=21"],
        Err(GatherFault::BadReading { log: 1, index: 0 }),
    ),
    (
        b"another number of lines that are hit",
        &[b"0 000 222 444 6=21 2=20", b"1 111 333 555"],
        Err(GatherFault::BadReading { log: 0, index: 1 }),
    ),
    (
        b"a reading comes before a missing entry",
        &[b"0 000 222 444 2=00", b"1 111 333"],
        Err(GatherFault::BadReading { log: 0, index: 0 }),
    ),
    (
        b"a reading of more entries than there are, too",
        &[b"0 000 222 444 7=21", b"1 111 333"],
        Err(GatherFault::BadReading { log: 0, index: 0 }),
    ),
    (
        b"a receipt comes before a reading of its log",
        &[b"0 000 222 424 2=00", b"1 111 333 555"],
        Err(GatherFault::Differs { log: 0, index: 2 }),
    ),
    (
        b"a reading comes before a receipt of the next log",
        &[b"0 000 222 444 2=00", b"1 111 333 55!"],
        Err(GatherFault::BadReading { log: 0, index: 0 }),
    ),
];

/// Performs the steps in a new book, and checks examples for its history.
fn check_whole<T: Table<Global>>(
    rt: &(impl Abort + AllocGlobal),
    steps: &[Step<'_>],
    examples: &[Example<'_>],
) -> Result<(), Fail> {
    let mut book: Book<Global, T> = Book::new(rt.alloc());
    check_steps(rt, &mut book, steps)?;
    check_history(rt, entries(&book), entries(&book), examples);
    Ok(())
}

/// `check_whole` with a book over a `Rows`.
fn check_in_store(
    rt: &(impl Abort + AllocGlobal),
    steps: &[Step<'_>],
    examples: &[Example<'_>],
) -> Result<(), Fail> {
    check_whole::<Rows>(rt, steps, examples)
}

#[test]
fn what_two_jobs_kept(rt: HostRuntime) -> Result<(), Fail> {
    check_in_store(&rt, SIX_CALLS, EXAMPLES)
}

/// Like `SIX_CALLS`, but job 1 renames the test that both jobs submit, instead of dropping an unknown test.
const A_RENAME: &[Step<'static>] = &[
    (0, b"submit DA:1,2;DA:2,0", b"a120", 2, 1),
    (1, b"submit DA:1,2;DA:2,0", b"a220", 2, 1),
    (0, b"summary", SUMMARY, 2, 1),
    (1, b"rename t v", b"r1", 2, 1),
    (
        0,
        b"report",
        b"TN:v\nSF:/a.c\nDA:1,4\nDA:2,0\nLF:2\nLH:1\nend_of_record\n",
        2,
        1,
    ),
    (1, b"summary", SUMMARY, 2, 1),
];

/// Examples for `A_RENAME`.
const OF_A_RENAME: &[Example<'static>] = &[
    (
        b"all that they kept",
        &[b"0 000 222 444 3=21 4=21", b"1 111 333 555"],
        Ok(()),
    ),
    (
        b"another operation",
        &[b"0 000 222 444", b"1 111 323 555"],
        Err(GatherFault::Differs { log: 1, index: 1 }),
    ),
    (
        b"the rename left out",
        &[b"0 000 222 444", b"1 111 555"],
        Err(GatherFault::Missing { place: 3 }),
    ),
];

/// A rename has an entry and a receipt like any other operation, and doesn't change the totals.
#[test]
fn a_rename_among_six_calls(rt: HostRuntime) -> Result<(), Fail> {
    check_in_store(&rt, A_RENAME, OF_A_RENAME)
}

/// Examples for `SIX_CALLS` without the last entry.
const FIVE_ENTRIES: &[Example<'static>] = &[
    (
        b"the receipt of the entry that was taken out",
        &[b"0 000 222 444", b"1 111 333 555"],
        Err(GatherFault::Stranger { log: 1, index: 2 }),
    ),
    (
        b"no receipt of it",
        &[b"0 000 222 444", b"1 111 333"],
        Ok(()),
    ),
];

/// Examples for a history without entries. The receipts are made from `SIX_CALLS`.
const NO_ENTRIES: &[Example<'static>] = &[
    (
        b"a receipt of no entry",
        &[b"0 000"],
        Err(GatherFault::Stranger { log: 0, index: 0 }),
    ),
    (b"nothing at all", &[], Ok(())),
    (b"no calls", &[b"1"], Ok(())),
];

/// Checks examples for a history without its last entry, whose receipt is then a `Stranger`, and for one without entries.
fn check_shorter(rt: &(impl Abort + AllocGlobal), entries: &[Entry]) {
    check_history(rt, entries, without_last(rt, entries), FIVE_ENTRIES);
    check_history(rt, entries, &[], NO_ENTRIES);
}

/// Performs `SIX_CALLS` in a new book, and checks examples for shorter histories.
fn check_shortened<T: Table<Global>>(rt: &(impl Abort + AllocGlobal)) -> Result<(), Fail> {
    let mut book: Book<Global, T> = Book::new(rt.alloc());
    check_steps(rt, &mut book, SIX_CALLS)?;
    check_shorter(rt, entries(&book));
    Ok(())
}

#[test]
fn a_shorter_history(rt: HostRuntime) -> Result<(), Fail> {
    check_shortened::<Rows>(&rt)
}

/// All entries but the last one.
fn without_last<'e>(rt: &impl Abort, entries: &'e [Entry]) -> &'e [Entry] {
    match entries.split_last() {
        Some((_last, others)) => others,
        None => panic!(rt; "no entry"),
    }
}
