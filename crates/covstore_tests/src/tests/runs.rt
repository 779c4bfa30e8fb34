//! Stages runs into a map. A run is a list of items that are staged at once, each a key and an addend.

use super::maps::{holds, is_committed, stage_all};
use covmap::{Addend, ReportingAddend, StagedMap};
use std::alloc::{AllocError, Global};
use std::process::Abort;
use std::test::*;

/// An addend that sets flags in the value of its key.
#[derive(Clone, Copy)]
struct Flags {
    bits: u64,
}

impl Addend<u64> for Flags {
    ghost use Rattle.std.specs.Prelude.{bit_or};
    ghost use Rattle.std.specs.Option.{unwrap_or};

    ghost fits = { λ more value. Unit {0} };

    ghost sum = { λ more value. bit_or more.bits (unwrap_or value 0) };

    fn plus(self, value: &Option<u64>) -> u64 {
        let before = match value {
            Some(bits) => *bits,
            None => 0,
        };
        self.bits | before
    }
}

/// Reports the new value of a key that had no value before, and nothing otherwise.
impl ReportingAddend<u64, u64> for Flags {
    ghost use Rattle.std.specs.Prelude.{is_some, if◌then◌else◌, Some, None};

    ghost reports = { λ more before after. if is_some before then None else Some after };

    fn report(self, before: &Option<u64>, after: &u64) -> Option<u64> {
        match before {
            Some(_) => None,
            None => Some(*after),
        }
    }
}

/// Stages a run, and appends its reports to `reports`.
fn stage(
    alloc: Global,
    map: &mut StagedMap<u64, u64, Global>,
    run: &[(u64, Flags)],
    reports: &mut Vec<(u64, u64), Global>,
) -> Result<(), AllocError> {
    map.stage_run(alloc, run, reports)
}

/// A run of `count` keys: 0 and the next multiples of `step`. All keys have the same flags.
fn run_of(
    alloc: Global,
    count: u64,
    step: u64,
    bits: u64,
) -> Result<Vec<(u64, Flags), Global>, AllocError> {
    let mut run = Vec::new(alloc);
    for number in 0..count {
        run.push((number.wrapping_mul(step), Flags { bits }))?;
    }
    Ok(run)
}

/// A run whose keys don't ascend, and which has one key twice.
const RUN: &[(u64, Flags)] = &[
    (7, Flags { bits: 4 }),
    (3, Flags { bits: 4 }),
    (5, Flags { bits: 8 }),
    (5, Flags { bits: 16 }),
    (9, Flags { bits: 32 }),
];

/// Committed values don't change until the commit. New reports are appended to an earlier report.
#[test]
fn a_run_in_any_order(rt: HostRuntime) -> Result<(), Fail> {
    let mut map = StagedMap::new(rt.alloc());
    stage_all(rt.alloc(), &mut map, &[(3, 1), (7, 2)])?;
    map.commit();
    let mut reports = Vec::from_slice(rt.alloc(), &[(1, 1)])?;
    stage(rt.alloc(), &mut map, RUN, &mut reports)?;
    assert!(rt; reports.as_slice() == [(1, 1), (5, 8), (9, 32)].as_slice());
    assert!(rt; is_committed(&map, &[(3, 1), (7, 2)]));
    map.commit();
    assert!(rt; is_committed(&map, &[(3, 5), (5, 24), (7, 6), (9, 32)]));
    Ok(())
}

/// Whether the committed keys are the `count` numbers from 0 on. Even keys must have the value `even`, odd keys the value `odd`.
fn alternate(map: &StagedMap<u64, u64, Global>, count: u64, even: u64, odd: u64) -> bool {
    let mut next = 0;
    for (key, value) in map.entries() {
        let wanted = if next % 2 == 0 { even } else { odd };
        if *key != next || *value != wanted {
            return false;
        }
        next = next.wrapping_add(1);
    }
    next == count
}

/// Stages a run of `run_of`.
fn stage_many(
    rt: &(impl Abort + AllocGlobal),
    map: &mut StagedMap<u64, u64, Global>,
    run: (u64, u64, u64),
    reports: &mut Vec<(u64, u64), Global>,
) {
    let (count, step, bits) = run;
    let is_staged = match run_of(rt.alloc(), count, step, bits) {
        Ok(run) => stage(rt.alloc(), map, &run, reports).is_ok(),
        Err(_refused) => false,
    };
    assert!(rt; is_staged);
}

/// Stages two runs, and checks values and reports. All keys of the first run are new. In the second run, new keys come between keys
/// of the map, and after all of them.
fn check_new_keys(
    rt: &(impl Abort + AllocGlobal),
    map: &mut StagedMap<u64, u64, Global>,
    reports: &mut Vec<(u64, u64), Global>,
) {
    stage_many(rt, map, (600, 2, 1), reports);
    map.commit();
    assert!(rt; reports.len() == 600);
    stage_many(rt, map, (1200, 1, 2), reports);
    assert!(rt; holds(map, 4, Some(1), Some(3)) && holds(map, 5, None, Some(2)));
    map.commit();
    assert!(rt; reports.len() == 1200 && alternate(map, 1200, 3, 2));
}

/// Stages two runs without new keys, and checks values and reports. The first run is discarded.
fn check_old_keys(
    rt: &(impl Abort + AllocGlobal),
    map: &mut StagedMap<u64, u64, Global>,
    reports: &mut Vec<(u64, u64), Global>,
) {
    stage_many(rt, map, (600, 2, 8), reports);
    map.rollback();
    assert!(rt; alternate(map, 1200, 3, 2));
    stage_many(rt, map, (600, 2, 4), reports);
    map.commit();
    assert!(rt; reports.len() == 1200 && alternate(map, 1200, 7, 2));
}

/// Runs of more keys than fit on a page.
#[test]
fn runs_over_pages(rt: HostRuntime) {
    let mut map = StagedMap::new(rt.alloc());
    let mut reports = Vec::new(rt.alloc());
    check_new_keys(&rt, &mut map, &mut reports);
    check_old_keys(&rt, &mut map, &mut reports);
}
