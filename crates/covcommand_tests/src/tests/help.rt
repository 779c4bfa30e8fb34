//! Tests that the examples in the help texts are valid. The whole texts are end-to-end tests.

use super::{answer, asked, words_of};
use covcommand::CommandFault;
use std::process::Abort;
use std::test::*;

/// Each call that requests help, with the number of examples in the help text.
const HELPS: [(&str, usize); 10] = [
    ("covcollect --help", 6),
    ("covcollect merge --help", 6),
    ("covcollect summary --help", 4),
    ("covcollect list --help", 3),
    ("covcollect extract --help", 3),
    ("covcollect remove --help", 3),
    ("covcollect gcov --help", 1),
    ("covcollect check --help", 4),
    ("covcollect combine --help", 6),
    ("covcollect html --help", 3),
];

/// Each example call in the help texts is valid, and is parsed as the subcommand that it names.
#[test]
fn examples_are_taken(rt: HostRuntime) {
    for (call, wanted) in HELPS {
        check_help(&rt, call, wanted);
    }
}

/// Checks that the help of `call` has `wanted` examples, and that each is valid.
fn check_help(rt: &(impl Abort + AllocGlobal), call: &str, wanted: usize) {
    let examples = check_examples(rt, help_of(rt, call).as_str());
    assert!(rt; examples == wanted, "{call} has {examples}");
}

/// Returns the help text that `call` requests.
fn help_of(rt: &(impl Abort + AllocGlobal), call: &str) -> String {
    match asked(rt.alloc(), words_of(rt, call).as_slice()) {
        Err(CommandFault::Help(text)) => text,
        _ => panic!(rt; "no help"),
    }
}

/// Checks that each example in the help text is valid, and returns the number of examples.
fn check_examples(rt: &(impl Abort + AllocGlobal), help: &str) -> usize {
    let mut examples: usize = 0;
    for line in help.lines() {
        if let Some(example) = example_in(line) {
            check_example(rt, example);
            examples = examples.saturating_add(1);
        }
    }
    examples
}

/// Returns the example call in a line of help, without the program's name, and without ` > ` and what follows.
fn example_in(line: &str) -> Option<&str> {
    let call = example_line(line)?;
    match call.split_once(" > ") {
        Some((words, _output)) => Some(words),
        None => Some(call),
    }
}

/// Returns what comes after the program's name in a line of help with an example. Such a line is indented, and only a call of lcov
/// or genhtml may come before the program's name.
fn example_line(line: &str) -> Option<&str> {
    let (before, call) = line.strip_prefix("  ")?.split_once("covcollect ")?;
    if before.is_empty() || before.starts_with("lcov ") || before.starts_with("genhtml ") {
        Some(call)
    } else {
        None
    }
}

/// Checks that `call`, a command line without the program's name, is valid and is parsed as the subcommand that it names.
fn check_example(rt: &(impl Abort + AllocGlobal), call: &str) {
    let given = told_after_name(rt, call);
    assert!(rt;
        given.as_str().starts_with(first_word(call)),
        "{call} => {given}"
    );
}

/// The first word of `call`.
fn first_word(call: &str) -> &str {
    call.split_whitespace().next().unwrap_or("")
}

/// Parses `call`, a command line without the program's name. Returns the result or the error as text.
fn told_after_name(rt: &(impl Abort + AllocGlobal), call: &str) -> String {
    match format!(in rt.alloc(); "covcollect {call}") {
        Ok(call) => answer(rt, call.as_str()),
        Err(_refused) => panic!(rt; "out of memory"),
    }
}
