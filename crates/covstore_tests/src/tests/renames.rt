//! Renames tests.

use super::held::{check_held, has_test, store_of};
use covstore::{Store, Totals};
use std::process::Abort;
use std::test::*;

/// Two tests that share points of each kind in one file. One of the tests has another file too.
const SHARED: &[u8] =
    b"TN:t\nSF:/a.c\nFN:5,f\nFNDA:2,f\nBRDA:1,0,0,-\nDA:1,2,k\nDA:2,1\nend_of_record\n\
    SF:/b.c\nDA:1,1\nend_of_record\n\
    TN:u\nSF:/a.c\nFN:3,f\nFNDA:0,f\nBRDA:1,0,0,4\nDA:1,1\nDA:3,0\nend_of_record\n";

const OF_SHARED: Totals = Totals {
    lf: 4,
    lh: 3,
    ff: 1,
    fh: 1,
    bf: 1,
    bh: 1,
};

/// The content of the store before a rename.
const APART: &[u8] = b"TN:t\nSF:/a.c\nFN:5,f\nFNDA:2,f\nBRDA:1,0,0,-\nDA:1,2,k\nDA:2,1\n\
    TN:u\nSF:/a.c\nFN:3,f\nFNDA:0,f\nBRDA:1,0,0,4\nDA:1,1\nDA:3,0\nTN:t\nSF:/b.c\nDA:1,1\n";

/// The content of the store after `t` was renamed to `u`.
const JOINED: &[u8] =
    b"TN:u\nSF:/a.c\nFN:3,f\nFNDA:2,f\nBRDA:1,0,0,4\nDA:1,3,k\nDA:2,1\nDA:3,0\nTN:u\nSF:/b.c\nDA:1,1\n";

/// The content of the store after `u` was renamed to `x`.
const RENAMED: &[u8] = b"TN:t\nSF:/a.c\nFN:5,f\nFNDA:2,f\nBRDA:1,0,0,-\nDA:1,2,k\nDA:2,1\n\
    TN:x\nSF:/a.c\nFN:3,f\nFNDA:0,f\nBRDA:1,0,0,4\nDA:1,1\nDA:3,0\nTN:t\nSF:/b.c\nDA:1,1\n";

/// Prepares a rename and drops it. Returns the number of the test's sections.
fn prepared(rt: &(impl Abort + AllocGlobal), store: &mut Store, old: &[u8], new: &[u8]) -> u64 {
    match store.prepare_rename(rt.alloc(), old, new) {
        Ok(renaming) => renaming.sections(),
        Err(_refused) => panic!(rt; "refused"),
    }
}

/// Renames a test. Returns the number of its sections.
fn renamed(rt: &(impl Abort + AllocGlobal), store: &mut Store, old: &[u8], new: &[u8]) -> u64 {
    match store.prepare_rename(rt.alloc(), old, new) {
        Ok(renaming) => {
            let sections = renaming.sections();
            store.commit_rename(renaming);
            sections
        }
        Err(_refused) => panic!(rt; "refused"),
    }
}

/// Tests that are renamed in turn, each with its new name, the number of its sections, and then the store's content.
const RENAMES: &[(&[u8], &[u8], u64, &[u8])] = &[
    (b"u", b"u", 1, APART),
    (b"t", b"u", 2, JOINED),
    (b"t", b"u", 0, JOINED),
    (b"u", b"u", 2, JOINED),
];

#[test]
fn tests_are_renamed(rt: HostRuntime) -> Result<(), Fail> {
    let mut store = store_of(&rt, SHARED)?;
    for (old, new, sections, text) in RENAMES {
        assert!(rt; renamed(&rt, &mut store, old, new) == *sections);
        check_held(&rt, &store, text, OF_SHARED);
    }
    assert!(rt; !has_test(&store, b"t") && has_test(&store, b"u"));
    Ok(())
}

/// A rename that is prepared but not committed leaves nothing visible, and doesn't affect the next rename.
#[test]
fn a_rename_that_is_dropped(rt: HostRuntime) -> Result<(), Fail> {
    let mut store = store_of(&rt, SHARED)?;
    assert!(rt; prepared(&rt, &mut store, b"t", b"x") == 2);
    check_held(&rt, &store, APART, OF_SHARED);
    assert!(rt; renamed(&rt, &mut store, b"u", b"x") == 1);
    check_held(&rt, &store, RENAMED, OF_SHARED);
    Ok(())
}
