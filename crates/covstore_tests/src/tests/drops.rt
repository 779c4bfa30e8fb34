//! Drops tests, and lists the files of a store with their totals.

use super::held::{NOTHING, check_held, store_of};
use covstore::{Store, Totals};
use covtable::FileTotals;
use std::process::Abort;
use std::test::*;

/// Two tests that have the same points and the same checksum in one file. One of the tests has another file too.
const SHARED: &[u8] =
    b"TN:t\nSF:/a.c\nFN:3,f\nFNDA:2,f\nBRDA:1,0,0,4\nDA:1,2,k\nDA:2,1\nend_of_record\n\
    SF:/b.c\nDA:1,1\nend_of_record\n\
    TN:u\nSF:/a.c\nFN:3,f\nFNDA:0,f\nBRDA:1,0,0,-\nDA:1,1,k\nDA:2,0\nend_of_record\n";

/// A drop: the test, the number of its sections, and then the store's content, its totals, and its files with their totals.
type Dropping<'s> = (&'s [u8], u64, &'s [u8], Totals, &'s [(&'s [u8], Totals)]);

const FIRST: Totals = Totals {
    lf: 2,
    lh: 2,
    ff: 1,
    fh: 1,
    bf: 1,
    bh: 1,
};

const SECOND: Totals = Totals {
    lf: 1,
    lh: 1,
    ..NOTHING
};

const BOTH: Totals = Totals {
    lf: 3,
    lh: 3,
    ..FIRST
};

/// The totals without the test `t`. A point that another test has but doesn't hit stays found.
const LEFT: Totals = Totals {
    lf: 2,
    lh: 1,
    ff: 1,
    fh: 0,
    bf: 1,
    bh: 0,
};

/// A file whose only test is dropped is skipped.
const DROPS: &[Dropping<'static>] = &[
    (
        b"x",
        0,
        b"TN:t\nSF:/a.c\nFN:3,f\nFNDA:2,f\nBRDA:1,0,0,4\nDA:1,2,k\nDA:2,1\n\
        TN:u\nSF:/a.c\nFN:3,f\nFNDA:0,f\nBRDA:1,0,0,-\nDA:1,1,k\nDA:2,0\nTN:t\nSF:/b.c\nDA:1,1\n",
        BOTH,
        &[(b"/a.c", FIRST), (b"/b.c", SECOND)],
    ),
    (
        b"t",
        2,
        b"TN:u\nSF:/a.c\nFN:3,f\nFNDA:0,f\nBRDA:1,0,0,-\nDA:1,1,k\nDA:2,0\n",
        LEFT,
        &[(b"/a.c", LEFT)],
    ),
    (b"u", 1, b"", NOTHING, &[]),
];

/// The number of sections of a test, and the totals that the store would have without the test.
fn after(store: &Store, test: &[u8]) -> (u64, Totals) {
    store.after_drop(test)
}

/// Drops a test, and returns the number of its sections.
fn dropped(store: &mut Store, test: &[u8]) -> u64 {
    store.drop_test(test)
}

/// Whether the file is this one, with these totals.
fn is_file(file: &FileTotals<'_>, wanted: Option<&(&[u8], Totals)>) -> bool {
    match wanted {
        Some((path, totals)) => file.path == *path && file.totals == *totals,
        None => false,
    }
}

/// Checks the files of the store, with their totals.
fn check_files(rt: &impl Abort, store: &Store, wanted: &[(&[u8], Totals)]) {
    let mut count: usize = 0;
    for file in store.files() {
        assert!(rt; is_file(&file, wanted.get(count)));
        count = count.wrapping_add(1);
    }
    assert!(rt; count == wanted.len());
}

/// Drops a test, and checks the number of its sections and the store without it.
fn check_drop(rt: &(impl Abort + AllocGlobal), store: &mut Store, wanted: &Dropping<'_>) {
    let (test, sections, text, totals, files) = *wanted;
    assert!(rt; after(store, test) == (sections, totals));
    assert!(rt; dropped(store, test) == sections);
    check_held(rt, store, text, totals);
    check_files(rt, store, files);
}

/// Dropping a test keeps the points of other tests: a point that another test hits stays hit.
#[test]
fn tests_are_dropped(rt: HostRuntime) -> Result<(), Fail> {
    let mut store = store_of(&rt, SHARED)?;
    for drop in DROPS {
        check_drop(&rt, &mut store, drop);
    }
    Ok(())
}
