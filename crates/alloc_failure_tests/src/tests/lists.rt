//! Appends elements to lists. A failed allocation drops the element, and leaves the list unchanged.

use super::heap::{Call, check_rising, narrow, widen};
use super::made;
use bumpalo::Bump;
use covbook::{Answer, Entries, Entry, JobLog, Logs, Op, Reading, Readings, Receipt, Receipts};
use covdata::{Bytes, Item, Items, Memory, ReadFault, Sect, Sects};
use covtable::Totals;
use covworkers::{Refused, RefusedInput};
use std::alloc::Allocator;
use std::process::Abort;
use std::test::*;

/// A list whose elements each have a number. An element needs no memory of its own.
trait List<A: Allocator + Copy>: Drop {
    /// Appends an element with the number `number`.
    fn put(&mut self, alloc: A, number: u32) -> Result<(), Memory>;

    /// The number of the element at index `at`.
    fn number_at(&self, at: usize) -> Option<u64>;
}

impl<A: Allocator + Copy> List<A> for Items<A> {
    fn put(&mut self, _alloc: A, number: u32) -> Result<(), Memory> {
        self.push(Item::Branch {
            line: u64::from(number),
            block: 0,
            branch: 0,
            taken: None,
        })
    }

    fn number_at(&self, at: usize) -> Option<u64> {
        match self.get().get(at)? {
            Item::Branch { line, .. } => Some(*line),
            Item::Line { .. } | Item::Func { .. } => Some(u64::MAX),
        }
    }
}

/// A section stores no number, so its number is its index.
impl<A: Allocator + Copy> List<A> for Sects<A> {
    fn put(&mut self, alloc: A, _number: u32) -> Result<(), Memory> {
        self.push(Sect {
            test: Bytes::new(alloc),
            file: Bytes::new(alloc),
            items: Items::new(alloc),
        })
    }

    fn number_at(&self, at: usize) -> Option<u64> {
        let _sect = self.get().get(at)?;
        Some(at as u64)
    }
}

impl<A: Allocator + Copy> List<A> for Entries<A> {
    fn put(&mut self, _alloc: A, number: u32) -> Result<(), Memory> {
        self.push(Entry {
            job: number,
            op: Op::Report,
            answer: Answer::NoSuchTest,
            after: Totals::default(),
        })
    }

    fn number_at(&self, at: usize) -> Option<u64> {
        Some(u64::from(self.get().get(at)?.job))
    }
}

impl<A: Allocator + Copy> List<A> for Receipts<A> {
    fn put(&mut self, _alloc: A, number: u32) -> Result<(), Memory> {
        self.push(Receipt {
            place: u64::from(number),
            op: Op::Report,
            answer: Answer::NoSuchTest,
        })
    }

    fn number_at(&self, at: usize) -> Option<u64> {
        Some(self.get().get(at)?.place)
    }
}

impl<A: Allocator + Copy> List<A> for Readings<A> {
    fn put(&mut self, _alloc: A, number: u32) -> Result<(), Memory> {
        self.push(Reading {
            upto: u64::from(number),
            totals: Totals::default(),
        })
    }

    fn number_at(&self, at: usize) -> Option<u64> {
        Some(self.get().get(at)?.upto)
    }
}

impl<A: Allocator + Copy> List<A> for Logs<A> {
    fn put(&mut self, alloc: A, number: u32) -> Result<(), Memory> {
        self.push(JobLog {
            job: number,
            receipts: Receipts::new(alloc),
            readings: Readings::new(alloc),
        })
    }

    fn number_at(&self, at: usize) -> Option<u64> {
        Some(u64::from(self.get().get(at)?.job))
    }
}

impl<A: Allocator + Copy> List<A> for Refused<A> {
    fn put(&mut self, _alloc: A, number: u32) -> Result<(), Memory> {
        self.push(RefusedInput {
            index: number as usize,
            fault: ReadFault::OpenEnd,
        })
    }

    fn number_at(&self, at: usize) -> Option<u64> {
        Some(self.get().get(at)?.index as u64)
    }
}

/// Checks that the list has all numbers below `numbers` in ascending order, and no other element.
fn check_list<A: Allocator + Copy, T: List<A>>(rt: &impl Abort, list: &T, numbers: u32) {
    for number in 0..numbers {
        assert!(rt;
            list.number_at(number as usize) == Some(u64::from(number)),
            "at {number}"
        );
    }
    assert!(rt;
        list.number_at(numbers as usize).is_none(),
        "more than {numbers}"
    );
}

/// Appends nine elements to an empty list, and returns whether an allocation failed. An element that can't be allocated is appended
/// again, with ample capacity.
fn puts<'h, T: List<&'h Bump>>(rt: &impl Abort, heap: &'h Bump, room: usize, mut list: T) -> bool {
    let mut is_refused = false;
    narrow(rt, heap, room);
    for number in 0..9 {
        if list.put(heap, number).is_err() {
            is_refused = true;
            widen(heap);
            check_list(rt, &list, number);
            made(rt, list.put(heap, number));
        }
    }
    check_list(rt, &list, 9);
    is_refused
}

/// A type of lists.
#[derive(Clone, Copy)]
pub(super) enum Listed {
    Items,
    Sects,
    Entries,
    Receipts,
    Readings,
    Logs,
    Refused,
}

/// Appends to a list with a capacity of `room`, and returns whether an allocation failed.
pub(super) fn is_refused(rt: &impl Abort, heap: &Bump, room: usize, listed: Listed) -> bool {
    match listed {
        Listed::Items => puts(rt, heap, room, Items::new(heap)),
        Listed::Sects => puts(rt, heap, room, Sects::new(heap)),
        Listed::Entries => puts(rt, heap, room, Entries::new(heap)),
        Listed::Receipts => puts(rt, heap, room, Receipts::new(heap)),
        Listed::Readings => puts(rt, heap, room, Readings::new(heap)),
        Listed::Logs => puts(rt, heap, room, Logs::new(heap)),
        Listed::Refused => puts(rt, heap, room, Refused::new(heap)),
    }
}

#[test]
fn lists(rt: HostRuntime) {
    check_rising(
        &rt,
        &[
            Call::List(Listed::Items),
            Call::List(Listed::Sects),
            Call::List(Listed::Entries),
            Call::List(Listed::Receipts),
            Call::List(Listed::Readings),
            Call::List(Listed::Logs),
            Call::List(Listed::Refused),
        ],
    );
}
