//! Patterns of paths, and lists of them.

use super::wrappers::{add, any_matches, copied_patterns, is_match, repeated};
use covreport::{PatternFault, Patterns};
use std::alloc::Global;
use std::process::Abort;
use std::test::*;

/// Patterns that match the empty path, and patterns that don't. No session tests these, since no file in a session has an empty
/// path.
#[test]
fn empty_paths(rt: HostRuntime) {
    for pattern in b"|*|**".split(|byte| *byte == b'|') {
        assert!(rt; is_match(pattern, b""), "{pattern:?}");
    }
    for pattern in b"*a|a|?|[ab]|[!a]".split(|byte| *byte == b'|') {
        assert!(rt; !is_match(pattern, b""), "{pattern:?}");
    }
}

#[test]
fn bytes_of_patterns(rt: HostRuntime) {
    assert!(rt; is_match(b"[\x00-\xff]*\x00\xff\n", b"\xc3\xa9\x00\xff\n"));
    assert!(rt; !is_match(b"[!\x00-\xff]", b"a"));
}

/// Whether the list rejects the pattern with this error.
fn is_refused(alloc: Global, patterns: &mut Patterns, pattern: &[u8], fault: PatternFault) -> bool {
    add(alloc, patterns, pattern) == Err(fault)
}

/// Checks that the list has `count` patterns, and which of the `paths` it matches. Bars separate the paths. A minus stands before
/// each path that the list must not match.
fn check_list(rt: &impl Abort, patterns: &Patterns, count: usize, paths: &[u8]) {
    assert_eq!(rt; patterns.get().len(), count);
    for path in paths.split(|byte| *byte == b'|') {
        match path.strip_prefix(b"-") {
            Some(other) => assert!(rt; !any_matches(patterns, other), "{other:?}"),
            None => assert!(rt; any_matches(patterns, path), "{path:?}"),
        }
    }
}

/// A list of these patterns.
fn list_of(rt: &(impl Abort + AllocGlobal), all: &[&[u8]]) -> Patterns {
    let mut patterns = Patterns::new(rt.alloc());
    for pattern in all {
        assert!(rt; add(rt.alloc(), &mut patterns, pattern).is_ok());
    }
    patterns
}

/// A copy of the list.
fn copy_of(rt: &(impl Abort + AllocGlobal), patterns: &Patterns) -> Patterns {
    match copied_patterns(rt.alloc(), patterns) {
        Ok(copy) => copy,
        Err(_refused) => panic!(rt; "out of memory"),
    }
}

#[test]
fn a_list(rt: HostRuntime) {
    let longer = repeated(&rt, b"a", 1_025);
    let mut patterns = list_of(&rt, &[b"*.c", b""]);
    assert!(rt; is_refused(rt.alloc(), &mut patterns, &longer, PatternFault::TooLong));
    let copy = copy_of(&rt, &patterns);
    assert!(rt; add(rt.alloc(), &mut patterns, b"*").is_ok());
    check_list(&rt, &patterns, 3, b"a.h");
    check_list(&rt, &copy, 2, b"a.c||-a.h");
}

/// A list can have 64 patterns of 1,024 bytes. A full list reports `TooMany` even for a pattern that is too long.
#[test]
fn a_full_list(rt: HostRuntime) {
    let most = repeated(&rt, b"a", 1_024);
    let mut patterns = list_of(&rt, &[most.as_slice(); 64]);
    assert!(rt; is_refused(rt.alloc(), &mut patterns, b"b", PatternFault::TooMany));
    let longer = repeated(&rt, b"a", 1_025);
    assert!(rt; is_refused(rt.alloc(), &mut patterns, &longer, PatternFault::TooMany));
    check_list(&rt, &patterns, 64, &most);
    check_list(&rt, &patterns, 64, b"-b");
}

#[test]
fn numbers_of_pattern_faults(rt: HostRuntime) {
    assert_eq!(rt; PatternFault::TooMany.number(), 1);
    assert_eq!(rt; PatternFault::TooLong.number(), 2);
    assert_eq!(rt; PatternFault::Memory.number(), 3);
}

/// Whether `patterns` copies of the pattern match a path of 10,000 letters `a` and then `last`.
fn match_long(rt: &(impl Abort + AllocGlobal), pattern: &[u8], patterns: usize, last: u8) -> bool {
    let mut path = repeated(rt, b"a", 10_000);
    assert!(rt; path.push(last).is_ok());
    is_match(&repeated(rt, pattern, patterns), &path)
}

/// Patterns with many stars are matched in time. A matcher that tries each way to divide the path among the stars wouldn't end.
#[test]
fn many_stars(rt: HostRuntime) {
    assert!(rt; is_match(&repeated(&rt, b"*", 1_024), b""));
    assert!(rt; match_long(&rt, b"*", 1_024, b'b'));
    assert!(rt; !match_long(&rt, b"*a", 512, b'b'));
    assert!(rt; match_long(&rt, b"*a", 512, b'a'));
}
