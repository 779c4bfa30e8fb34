//! Tests of covmap's map by itself.

ghost use Rattle.std.specs.Prelude.{◌≡◌};

use covmap::{Addend, StagedMap};
use std::alloc::{AllocError, Global};
use std::test::*;

/// An addend that replaces the value of its key.
#[derive(Clone, Copy)]
struct Newest {
    value: u64,
}

impl Addend<u64> for Newest {
    ghost fits = { λ newest value. Unit {0} };

    ghost sum = { λ newest value. newest.value };

    fn plus(self, _value: &Option<u64>) -> u64
        ensures { result ≡ self.value }
    {
        self.value
    }
}

/// Stages the values of keys.
pub(super) fn stage_all(
    alloc: Global,
    map: &mut StagedMap<u64, u64, Global>,
    pairs: &[(u64, u64)],
) -> Result<(), AllocError> {
    for (key, value) in pairs {
        map.stage(alloc, *key, *value)?;
    }
    Ok(())
}

/// Whether the key has this committed and this staged value.
pub(super) fn holds(
    map: &mut StagedMap<u64, u64, Global>,
    key: u64,
    committed: Option<u64>,
    staged: Option<u64>,
) -> bool {
    map.lookup(key) == committed && map.lookup_staged(key) == staged
}

/// Whether this is the wanted key with its value.
fn is_pair(wanted: Option<&(u64, u64)>, key: u64, value: u64) -> bool {
    match wanted {
        Some((wanted_key, wanted_value)) => *wanted_key == key && *wanted_value == value,
        None => false,
    }
}

/// Whether the map's committed keys and values are these, in this order.
pub(super) fn is_committed(map: &StagedMap<u64, u64, Global>, pairs: &[(u64, u64)]) -> bool {
    let mut count: usize = 0;
    for (key, value) in map.entries() {
        if !is_pair(pairs.get(count), *key, *value) {
            return false;
        }
        count = count.wrapping_add(1);
    }
    count == pairs.len()
}

/// Only `lookup_staged` sees staged values. A commit turns staged values into committed values, and a rollback discards staged
/// values.
#[test]
fn staged_values(rt: HostRuntime) -> Result<(), Fail> {
    let mut map = StagedMap::new(rt.alloc());
    stage_all(rt.alloc(), &mut map, &[(7, 70), (3, 30)])?;
    assert!(rt; is_committed(&map, &[]) && map.is_empty());
    assert!(rt; holds(&mut map, 7, None, Some(70)));
    map.rollback();
    assert!(rt; holds(&mut map, 7, None, None));
    stage_all(rt.alloc(), &mut map, &[(7, 71), (3, 31)])?;
    map.commit();
    assert!(rt; is_committed(&map, &[(3, 31), (7, 71)]));
    Ok(())
}

/// Stages a sum for the committed key 7, and then one for the new key 5, with the first sum's place as the guess. Returns whether
/// the values before and after are right.
fn sums_are_staged(
    alloc: Global,
    map: &mut StagedMap<u64, u64, Global>,
) -> Result<bool, AllocError> {
    let first = map.stage_sum(alloc, 7, Newest { value: 72 }, map.cursor())?;
    let second = map.stage_sum(alloc, 5, Newest { value: 50 }, first.place)?;
    let is_first = first.before == Some(71) && first.after == 72;
    Ok(is_first && second.before == None && second.after == 50)
}

/// Replaces the committed value of the key, or removes it, without a commit. Returns whether there was a value.
fn is_replaced(map: &mut StagedMap<u64, u64, Global>, key: u64, value: Option<u64>) -> bool {
    let is_there = map.lookup(key).is_some();
    if is_there {
        map.replace(key, value);
    }
    is_there
}

#[test]
fn sums_and_replaced_values(rt: HostRuntime) -> Result<(), Fail> {
    let mut map = StagedMap::new(rt.alloc());
    stage_all(rt.alloc(), &mut map, &[(7, 71)])?;
    map.commit();
    assert!(rt; sums_are_staged(rt.alloc(), &mut map)?);
    map.commit();
    assert!(rt; is_committed(&map, &[(5, 50), (7, 72)]));
    assert!(rt; is_replaced(&mut map, 7, Some(73)) && is_replaced(&mut map, 5, None));
    assert!(rt; is_committed(&map, &[(7, 73)]));
    Ok(())
}
