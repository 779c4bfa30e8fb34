//! Stages a run of addends into a map, and makes a map of the images of the values. A failed allocation doesn't change the
//! committed entries. With ample capacity, the images can be made, and the whole run can be staged after a rollback.

use super::heap::{Call, check_rising, narrow, widen};
use super::made;
use bumpalo::Bump;
use covmap::{Addend, Image, ReportingAddend, StagedMap, Value};
use std::alloc::{AllocError, Allocator};
use std::process::Abort;
use std::test::*;

/// An addend that replaces the value of its key, and reports the new value.
#[derive(Clone, Copy)]
struct Newest {
    value: u64,
}

impl Addend<u64> for Newest {
    ghost fits = { λ newest value. Unit {0} };

    ghost sum = { λ newest value. newest.value };

    fn plus(self, _value: &Option<u64>) -> u64 {
        self.value
    }
}

impl ReportingAddend<u64, u64> for Newest {
    ghost use Rattle.std.specs.Prelude.{Some};

    ghost reports = { λ newest before after. Some after };

    fn report(self, _before: &Option<u64>, after: &u64) -> Option<u64> {
        Some(*after)
    }
}

/// Stages a run, and returns the reports of its addends.
fn stage<A: Allocator + Copy>(
    alloc: A,
    map: &mut StagedMap<u64, u64, A>,
    run: &[(u64, Newest)],
) -> Result<Vec<(u64, u64), A>, AllocError> {
    let mut reports = Vec::new(alloc);
    map.stage_run(alloc, run, &mut reports)?;
    Ok(reports)
}

/// A map with one committed entry.
fn one_entry<A: Allocator + Copy>(alloc: A) -> Result<StagedMap<u64, u64, A>, AllocError> {
    let mut map = StagedMap::new(alloc);
    map.stage(alloc, 4, 40)?;
    map.commit();
    Ok(map)
}

/// Checks that the committed entries are `wanted`, each a key and its value.
fn check_entries<A: Allocator + Copy>(
    rt: &impl Abort,
    map: &StagedMap<u64, u64, A>,
    wanted: &[(u64, u64)],
) {
    let mut entries = map.entries();
    for (key, value) in wanted {
        let Some((found, held)) = entries.next() else {
            panic!(rt; "an entry is missing");
        };
        assert!(rt; *found == *key && *held == *value, "the entry of {key}");
    }
    assert!(rt; entries.next().is_none(), "too many entries");
}

/// A run with keys before, at and after the key of `one_entry`.
const RUN: [(u64, Newest); 3] = [
    (2, Newest { value: 21 }),
    (4, Newest { value: 41 }),
    (9, Newest { value: 91 }),
];

/// Stages `RUN`, and returns whether an allocation failed. Leaves the heap with ample capacity.
fn is_run_refused<'h>(
    rt: &impl Abort,
    heap: &'h Bump,
    map: &mut StagedMap<u64, u64, &'h Bump>,
) -> bool {
    let staged = stage(heap, map, &RUN);
    widen(heap);
    match staged {
        Ok(reports) => {
            assert_eq!(rt; reports.len(), 3);
            false
        }
        Err(_refused) => true,
    }
}

/// Stages and commits `RUN` in a map with one entry.
fn a_run(rt: &impl Abort, heap: &Bump, room: usize) -> bool {
    let mut map = made(rt, one_entry(heap));
    narrow(rt, heap, room);
    let is_refused = is_run_refused(rt, heap, &mut map);
    check_entries(rt, &map, &[(4, 40)]);
    if is_refused {
        map.rollback();
        assert!(rt;
            !is_run_refused(rt, heap, &mut map),
            "refused with ample memory"
        );
    }
    map.commit();
    check_entries(rt, &map, &[(2, 21), (4, 41), (9, 91)]);
    is_refused
}

/// The image of a number: the number itself.
#[derive(Clone, Copy)]
struct Wrapped {
    number: u64,
}

impl Value for Wrapped {
    fn copy(&self) -> Wrapped {
        *self
    }
}

impl Image<u64> for Wrapped {
    ghost image = { λ number. record { number = number } };

    fn of(value: &u64) -> Wrapped {
        Wrapped { number: *value }
    }
}

/// Returns a map with the images of the values of `map`.
fn images_of<A: Allocator + Copy>(
    alloc: A,
    map: &StagedMap<u64, u64, A>,
) -> Result<StagedMap<u64, Wrapped, A>, AllocError> {
    map.images(alloc)
}

/// Makes a map of the images of a committed and a staged value.
fn images(rt: &impl Abort, heap: &Bump, room: usize) -> bool {
    let mut map = made(rt, one_entry(heap));
    made(rt, map.stage(heap, 9, 90));
    narrow(rt, heap, room);
    let first = images_of(heap, &map);
    widen(heap);
    let (mut images, is_refused) = match first {
        Ok(images) => (images, false),
        Err(_refused) => (made(rt, images_of(heap, &map)), true),
    };
    let staged = images.lookup_staged(9);
    assert!(rt; matches!(staged, Some(Wrapped { number: 90 })));
    assert!(rt; matches!(images.lookup(4), Some(Wrapped { number: 40 })));
    map.commit();
    check_entries(rt, &map, &[(4, 40), (9, 90)]);
    is_refused
}

/// What is made in or of a map.
#[derive(Clone, Copy)]
pub(super) enum Mapped {
    Run,
    Images,
}

/// Stages a run or makes images with a capacity of `room`, and returns whether an allocation failed.
pub(super) fn is_refused(rt: &impl Abort, heap: &Bump, room: usize, mapped: Mapped) -> bool {
    match mapped {
        Mapped::Run => a_run(rt, heap, room),
        Mapped::Images => images(rt, heap, room),
    }
}

#[test]
fn runs_and_images(rt: HostRuntime) {
    check_rising(&rt, &[Call::Map(Mapped::Run), Call::Map(Mapped::Images)]);
}
