//! Collects inputs into a book. Each input is read when its turn comes, in one part or several, and each part is a submission of its
//! own.

use super::books::SMALL;
use super::check_bytes;
use super::collecting::{ADDED_UP, OTHERS, is_outside};
use super::said::check_answers;
use covbook::Op;
use covdata::{Bytes, ReadFault};
use covjobs::Input;
use covreport::Table;
use covrows::Rows;
use covworkers::{
    CollectFault, CollectedBook, Given, IntoBookFault, LateFault, LateInput, NoGate, Part,
    collect_into_book,
};
use std::alloc::Global;
use std::process::Abort;
use std::sync::Wait;
use std::test::*;
use std::thread::Threads;

/// An input with one part per letter: `s` is the small tracefile, `e` is an empty one, `o` is `OTHERS`, `1` and `2` are `ONE` and
/// `TWO`, and `x` is invalid. At `?` or without a letter, the input can't be read. At `!`, memory runs out.
#[derive(Drop)]
struct Letters<'a> {
    parts: &'a [u8],
}

impl<'a> LateInput<Global> for Letters<'a> {
    ghost use Rattle.std.specs.Prelude.{length};

    ghost may_give = { λ late outcome. Unit {0} };

    ghost may_fail = { λ late. Unit {0} };

    ghost most = { λ late. length late.parts.now };

    type Fault = ReadFault;

    fn read_part(self, alloc: Global) -> Result<Part<Self>, LateFault> {
        let Some((first, rest)) = self.parts.split_first() else {
            return Err(LateFault::Unreadable);
        };
        match read_letter(alloc, *first, rest.is_empty()) {
            Err(fault) => Err(fault),
            Ok(given) => if rest.is_empty() {
                Ok(Part::Last(given))
            } else {
                Ok(Part::More(given, Letters { parts: rest }))
            },
        }
    }
}

/// `ONE` and `TWO` have different checksums for one line.
const ONE: &[u8] = b"TN:t\nSF:/a.c\nDA:7,1,one\nend_of_record\n";

const TWO: &[u8] = b"TN:t\nSF:/a.c\nDA:7,1,two\nend_of_record\n";

/// The text that the letter stands for.
fn text_of(letter: u8) -> &'static [u8] {
    match letter {
        b's' => SMALL,
        b'e' => b"",
        b'o' => OTHERS,
        b'1' => ONE,
        b'2' => TWO,
        _ => b"DA:1,1",
    }
}

/// Reads the part that the letter stands for.
fn read_letter(alloc: Global, letter: u8, is_last: bool) -> Result<Given, LateFault> {
    match letter {
        b'?' => Err(LateFault::Unreadable),
        b'!' => Err(LateFault::Memory),
        _ => read_text(alloc, text_of(letter), is_last),
    }
}

/// Reads the tracefile as a submission: packed, unless it is the last part.
fn read_text(alloc: Global, text: &[u8], is_last: bool) -> Result<Given, LateFault> {
    let Ok(text) = Bytes::of(alloc, text) else {
        return Err(LateFault::Memory);
    };
    match given_of(alloc, &Input::Trace(text), is_last) {
        Ok(given) => Ok(given),
        Err(fault) => Err(LateFault::Refused(fault)),
    }
}

/// Reads the input as a submission: packed, unless it is the last part.
fn given_of(alloc: Global, input: &Input, is_last: bool) -> Result<Given, ReadFault> {
    if is_last {
        Ok(Given::plain(input.read(alloc)?))
    } else {
        Ok(Given::packed(input.read_packed(alloc)?))
    }
}

/// The inputs whose letters are between the spaces of `inputs`.
fn inputs_of<'a>(rt: &impl Abort, alloc: Global, inputs: &'a str) -> Vec<Letters<'a>> {
    let mut list = Vec::new(alloc);
    for parts in inputs.split(' ') {
        let input = Letters {
            parts: parts.as_bytes(),
        };
        if list.push(input).is_err() {
            panic!(rt; "out of memory");
        }
    }
    list
}

/// Collects the inputs with `jobs` jobs.
fn answered<
    R: Threads + Wait + Sync + AllocGlobal + Abort,
    T: Table<Global, Plan: Send, Renaming: Send> + Send,
>(rt: &R, inputs: &str, jobs: u32) -> Result<CollectedBook<T>, IntoBookFault> {
    collect_into_book(
        rt,
        rt.alloc(),
        inputs_of(rt, rt.alloc(), inputs),
        jobs,
        &NoGate,
    )
}

/// Collects the inputs with `jobs` jobs. Panics on an error.
fn collected_of<
    R: Threads + Wait + Sync + AllocGlobal + Abort,
    T: Table<Global, Plan: Send, Renaming: Send> + Send,
>(rt: &R, inputs: &str, jobs: u32) -> CollectedBook<T> {
    match answered(rt, inputs, jobs) {
        Ok(collected) => collected,
        Err(_fault) => panic!(rt; "nothing is collected"),
    }
}

/// Checks the report that the book prints.
fn check_report<R: AllocGlobal + Abort, T: Table<Global>>(
    rt: &R,
    collected: &CollectedBook<T>,
    wanted: &[u8],
) {
    match collected.book.text_of(rt.alloc(), &Op::Report) {
        Ok(text) => check_bytes(rt, text.get(), wanted),
        Err(_refused) => panic!(rt; "no memory for the report"),
    }
}

/// Collects inputs of which the second is rejected. Checks that three submissions add up.
fn check_added_up<
    R: Threads + Wait + Sync + AllocGlobal + Abort,
    T: Table<Global, Plan: Send, Renaming: Send> + Send,
>(rt: &R, inputs: &str, jobs: u32) {
    let collected = collected_of::<R, T>(rt, inputs, jobs);
    assert!(rt; is_outside(collected.refused.get(), 1));
    assert_eq!(rt; collected.book.kept().len(), 3);
    check_report(rt, &collected, ADDED_UP);
}

/// Each part of an input is a submission of its own. Parts before an invalid one stay submitted, and the rest of the input is
/// rejected. A job of several may have two inputs or only one, which is rejected after a part or at once.
#[test]
fn collected_into_a_book(rt: HostRuntime) {
    for (inputs, jobs) in [("sos x", 1), ("s osxs", 1), ("s ox s", 2), ("s x o s", 3)] {
        check_added_up::<_, Rows>(&rt, inputs, jobs);
    }
}

/// The expected answers if the first input's second part clashes with its first part, and so does the second input.
const TWO_CLASHES: &[u8] = b"\
accepted 1 1 0 
clash 7 
accepted 2 2 0 
clash 7 
";

/// Collects inputs with one job, and checks the answers.
fn check_order<
    R: Threads + Wait + Sync + AllocGlobal + Abort,
    T: Table<Global, Plan: Send, Renaming: Send> + Send,
>(rt: &R, inputs: &str, wanted: &[u8]) {
    let collected = collected_of::<R, T>(rt, inputs, 1);
    check_answers(rt, collected.book.kept(), wanted);
}

/// Entries come in the order of the parts.
#[test]
fn the_order_of_parts(rt: HostRuntime) {
    check_order::<_, Rows>(&rt, "12s 2", TWO_CLASHES);
}

/// Whether collecting the inputs in a table `T` ends with the error `wanted`.
fn ends_over<
    R: Threads + Wait + Sync + AllocGlobal + Abort,
    T: Table<Global, Plan: Send, Renaming: Send> + Send,
>(rt: &R, inputs: &str, jobs: u32, wanted: IntoBookFault) -> bool {
    match answered::<R, T>(rt, inputs, jobs) {
        Ok(_collected) => false,
        Err(fault) => fault == wanted,
    }
}

/// Whether collecting the inputs ends with the error `wanted`.
pub(super) fn ends_with<R: Threads + Wait + Sync + AllocGlobal + Abort>(
    rt: &R,
    inputs: &str,
    jobs: u32,
    wanted: IntoBookFault,
) -> bool {
    ends_over::<R, Rows>(rt, inputs, jobs, wanted)
}

/// Inputs, the number of jobs, and the index of the first unreadable input, which is reported. A job may reach a later one first. An
/// input may be unreadable after its first part, or have no part. An unreadable input takes precedence if memory runs out for a
/// later input.
const UNREAD: [(&str, u32, usize); 10] = [
    ("s ? x ? s", 1, 1),
    ("s ? x ? s", 2, 1),
    ("s ? x ? s", 3, 1),
    ("s ? x ? s", 64, 1),
    ("s s ? !", 2, 2),
    ("s ? ! s", 2, 1),
    ("s s? s", 2, 1),
    ("so so? ?", 2, 1),
    ("s  s?", 2, 1),
    ("s? s!", 2, 0),
];

#[test]
fn the_first_unread_input(rt: HostRuntime) {
    for (inputs, jobs, index) in UNREAD {
        let wanted = IntoBookFault::Unread { index };
        assert!(rt;
            ends_with(&rt, inputs, jobs, wanted),
            "{inputs}, {jobs} jobs"
        );
    }
}

/// A job stops if memory runs out for an input or for a later part of it. That input may be unreadable too, so no later `Unread` is
/// returned.
#[test]
fn refused_memory(rt: HostRuntime) {
    let memory = IntoBookFault::Collect(CollectFault::Memory);
    for inputs in ["s ! ? s", "s ! s ?", "s s!", "s! s?"] {
        assert!(rt; ends_with(&rt, inputs, 2, memory), "{inputs}");
    }
}

/// As many submissions as a full history has entries are too many, whichever jobs read them, and even if they are empty. If memory runs
/// out while an input is read, `Memory` takes precedence.
#[test]
fn a_full_history(rt: HostRuntime) -> Result<(), Fail> {
    let full = IntoBookFault::Collect(CollectFault::Full);
    let memory = IntoBookFault::Collect(CollectFault::Memory);
    let half = "e".repeat(rt.alloc(), 524_288)?;
    let exact = format!(in rt.alloc(); "{half} {half}")?;
    let more = format!(in rt.alloc(); "{half}e x {half}")?;
    let refused = format!(in rt.alloc(); "{exact} e !")?;
    assert!(rt; ends_with(&rt, exact.as_str(), 2, full));
    assert!(rt; ends_with(&rt, more.as_str(), 1, full));
    assert!(rt; ends_with(&rt, refused.as_str(), 2, memory));
    Ok(())
}
