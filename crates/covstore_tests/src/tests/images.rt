//! Makes maps of the images of another map's values, and looks up staged values by a guessed slot.

use super::maps::holds;
use covmap::{Image, SlotIndex, StagedMap, Value};
use std::alloc::Global;
use std::process::Abort;
use std::test::*;

/// The image of a number: a struct with the same number.
#[derive(Clone, Copy)]
struct Wrapped {
    number: u64,
}

impl Value for Wrapped {
    fn copy(&self) -> Wrapped {
        *self
    }
}

impl Image<u64> for Wrapped {
    ghost image = { λ number. record { number = number } };

    fn of(value: &u64) -> Wrapped {
        Wrapped { number: *value }
    }
}

/// The number in an image, if there is an image.
fn number(image: Option<Wrapped>) -> Option<u64> {
    match image {
        Some(image) => Some(image.number),
        None => None,
    }
}

/// The number of keys that have a committed value.
fn entry_count(map: &StagedMap<u64, Wrapped, Global>) -> usize {
    let mut count: usize = 0;
    for _entry in map.entries() {
        count = count.wrapping_add(1);
    }
    count
}

/// A map with more keys than fit on a page. The keys 0 to 599 have ten times the key as their committed value. Values are staged
/// for the keys 4 and 1000, so the key 1000 has no committed value.
fn two_staged(alloc: Global) -> Result<StagedMap<u64, u64, Global>, Fail> {
    let mut map = StagedMap::new(alloc);
    for key in 0u64..600 {
        map.stage(alloc, key, key.wrapping_mul(10))?;
    }
    map.commit();
    map.stage(alloc, 4, 7)?;
    map.stage(alloc, 1000, 8)?;
    Ok(map)
}

/// Whether the images of the key's committed and staged value are of these numbers.
fn has_images(
    images: &mut StagedMap<u64, Wrapped, Global>,
    key: u64,
    committed: Option<u64>,
    staged: Option<u64>,
) -> bool {
    number(images.lookup(key)) == committed && number(images.lookup_staged(key)) == staged
}

/// Checks the images of the values of `two_staged`.
fn check_staged(rt: &impl Abort, images: &mut StagedMap<u64, Wrapped, Global>) {
    assert!(rt; entry_count(images) == 600);
    for (key, committed, staged) in [
        (599, Some(5990), Some(5990)),
        (4, Some(40), Some(7)),
        (1000, None, Some(8)),
    ] {
        assert!(rt; has_images(images, key, committed, staged));
    }
}

/// Commits the images of the values of `two_staged`, and checks them.
fn check_committed(rt: &impl Abort, images: &mut StagedMap<u64, Wrapped, Global>) {
    images.commit();
    assert!(rt; entry_count(images) == 601);
    assert!(rt; has_images(images, 4, Some(7), Some(7)));
}

/// A map of images has the same committed and staged keys as the first map, and doesn't change when the first map does.
#[test]
fn images_of_committed_and_staged_values(rt: HostRuntime) -> Result<(), Fail> {
    let mut map = two_staged(rt.alloc())?;
    let mut images: StagedMap<u64, Wrapped, Global> = map.images(rt.alloc())?;
    map.rollback();
    check_staged(&rt, &mut images);
    check_committed(&rt, &mut images);
    assert!(rt; holds(&mut map, 4, Some(40), Some(40)) && holds(&mut map, 1000, None, None));
    Ok(())
}

#[test]
fn images_of_an_empty_map(rt: HostRuntime) -> Result<(), Fail> {
    let map: StagedMap<u64, u64, Global> = StagedMap::new(rt.alloc());
    let images: StagedMap<u64, Wrapped, Global> = map.images(rt.alloc())?;
    assert!(rt; images.is_empty());
    Ok(())
}

/// The staged value of the key, looked up by the guess that it is where the key 598 is.
fn staged_near_598(map: &StagedMap<u64, u64, Global>, key: u64) -> Option<u64> {
    let (_value, place) = map.staged_at(598, SlotIndex::first());
    map.staged_at(key, place).0
}

/// A guess, right or wrong, doesn't change the result.
#[test]
fn staged_values_from_a_guess(rt: HostRuntime) -> Result<(), Fail> {
    let map = two_staged(rt.alloc())?;
    let wanted = [
        (598, Some(5980)),
        (599, Some(5990)),
        (4, Some(7)),
        (1000, Some(8)),
        (1001, None),
    ];
    for (key, value) in wanted {
        assert!(rt; map.staged_at(key, SlotIndex::first()).0 == value);
        assert!(rt; staged_near_598(&map, key) == value);
    }
    Ok(())
}
