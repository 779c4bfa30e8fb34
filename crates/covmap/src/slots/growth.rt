//! Inserts slots while values may be staged. Each change of a page also changes the page's column of staged values.
//!
//! A failed allocation keeps all committed values, but may discard staged values.

ghost use Rattle.std.specs.Prelude.{◌≡◌, ◌+◌, ◌^◌, ◌<◌, IfOk, OnOk, length};
ghost use Rattle.std.specs.declared.cmp.Ordering.TheVariants.{Less};
ghost use Rattle.std.specs.List.{AllByRecursion};
ghost use Rattle.covmap.specs.Staged.{AreColumnsOf, staged_of};
ghost use Rattle.covmap.specs.SlotPlace.{at};
ghost use Rattle.covmap.specs.Slots.{IsGap, IsPlace, filled, page_at, slots_of, with_page_split};

use crate::key::{Key, Query, Value};
use crate::slots::staged::StagedColumns;
use crate::slots::{HALF, PAGE_SLOTS, SlotIndex, Slots};
use std::alloc::{AllocError, Allocator};

/// Returns the place of the queried key. Inserts an empty slot first if the key has no slot.
pub(crate) fn make_slot<K: Key + Drop, V: Value, A: Allocator + Copy, Q: Query<K, A>>(
    slots: &mut Slots<K, V, A>,
    staged: &mut StagedColumns<V, A>,
    alloc: A,
    query: Q,
    guess: SlotIndex,
) -> Result<SlotIndex, AllocError>
    requires { AreColumnsOf slots.old staged.old }
    ensures columns { AreColumnsOf slots.new staged.new }
    ensures committed { filled (slots_of slots.new) ≡ filled (slots_of slots.old) }
    ensures staged { OnOk result (filled (slots_of (staged_of slots.new staged.new)) ≡ filled (slots_of (staged_of slots.old staged.old))) }
    ensures place { IfOk result (λ place. IsPlace (λ key. K.cmp key (Q.named query)) slots.new (at place)) }
{
    match slots.find(query, guess) {
        Ok(place) => Ok(place),
        Err(place) => {
            let key = query.key(alloc)?;
            put_slot(slots, staged, alloc, place, key)
        }
    }
}

/// Inserts an empty slot for `key` at `place`, where `key` must belong. Returns the new slot's place.
fn put_slot<K: Key + Drop, V: Value, A: Allocator + Copy>(
    slots: &mut Slots<K, V, A>,
    staged: &mut StagedColumns<V, A>,
    alloc: A,
    place: SlotIndex,
    key: K,
) -> Result<SlotIndex, AllocError>
    requires columns { AreColumnsOf slots.old staged.old }
    requires gap { IsGap (λ other. K.cmp other key) slots.old (at place) }
    ensures columns { AreColumnsOf slots.new staged.new }
    ensures committed { filled (slots_of slots.new) ≡ filled (slots_of slots.old) }
    ensures staged { OnOk result (filled (slots_of (staged_of slots.new staged.new)) ≡ filled (slots_of (staged_of slots.old staged.old))) }
    ensures place { IfOk result (λ place. IsPlace (λ other. K.cmp other key) slots.new (at place)) }
{
    if place.page < slots.count() {
        return put_within(slots, staged, alloc, place, key);
    }
    put_after(slots, staged, alloc, key)
}

/// Like `put_slot`, on a page that must exist. Splits a full page first.
fn put_within<K: Key + Drop, V: Value, A: Allocator + Copy>(
    slots: &mut Slots<K, V, A>,
    staged: &mut StagedColumns<V, A>,
    alloc: A,
    place: SlotIndex,
    key: K,
) -> Result<SlotIndex, AllocError>
    requires there { place.page < length slots.old }
    requires columns { AreColumnsOf slots.old staged.old }
    requires gap { IsGap (λ other. K.cmp other key) slots.old (at place) }
    ensures columns { AreColumnsOf slots.new staged.new }
    ensures committed { filled (slots_of slots.new) ≡ filled (slots_of slots.old) }
    ensures staged { OnOk result (filled (slots_of (staged_of slots.new staged.new)) ≡ filled (slots_of (staged_of slots.old staged.old))) }
    ensures place { IfOk result (λ place. IsPlace (λ other. K.cmp other key) slots.new (at place)) }
{
    if slots.len_of(place.page) < PAGE_SLOTS {
        return put_at(slots, staged, place, key);
    }
    split(slots, staged, alloc, place.page)?;
    if place.index <= HALF {
        return put_at(slots, staged, place, key);
    }
    let place = SlotIndex {
        page: place.page + 1,
        index: place.index - HALF,
    };
    put_at(slots, staged, place, key)
}

/// Like `put_slot`, for a key that must be greater than all others.
fn put_after<K: Key + Drop, V: Value, A: Allocator + Copy>(
    slots: &mut Slots<K, V, A>,
    staged: &mut StagedColumns<V, A>,
    alloc: A,
    key: K,
) -> Result<SlotIndex, AllocError>
    requires columns { AreColumnsOf slots.old staged.old }
    requires last { AllByRecursion (λ slot. K.cmp slot.0 key ≡ Less) (slots_of slots.old) }
    ensures columns { AreColumnsOf slots.new staged.new }
    ensures committed { filled (slots_of slots.new) ≡ filled (slots_of slots.old) }
    ensures staged { OnOk result (filled (slots_of (staged_of slots.new staged.new)) ≡ filled (slots_of (staged_of slots.old staged.old))) }
    ensures place { IfOk result (λ place. IsPlace (λ other. K.cmp other key) slots.new (at place)) }
{
    let count = slots.count();
    if count > 0 && slots.len_of(count - 1) < PAGE_SLOTS {
        let place = SlotIndex {
            page: count - 1,
            index: slots.len_of(count - 1),
        };
        return put_at(slots, staged, place, key);
    }
    slots.push_page(alloc, key)?;
    Ok(SlotIndex {
        page: count,
        index: 0,
    })
}

/// Like `put_slot`, on a page that must exist and have room.
fn put_at<K: Key + Drop, V: Value, A: Allocator + Copy>(
    slots: &mut Slots<K, V, A>,
    staged: &mut StagedColumns<V, A>,
    place: SlotIndex,
    key: K,
) -> Result<SlotIndex, AllocError>
    requires there { place.page < length slots.old }
    requires room { length (page_at slots.old place.page) < 256 }
    requires columns { AreColumnsOf slots.old staged.old }
    requires gap { IsGap (λ other. K.cmp other key) slots.old (at place) }
    ensures columns { AreColumnsOf slots.new staged.new }
    ensures committed { filled (slots_of slots.new) ≡ filled (slots_of slots.old) }
    ensures staged { OnOk result (filled (slots_of (staged_of slots.new staged.new)) ≡ filled (slots_of (staged_of slots.old staged.old))) }
    ensures place { IfOk result (λ place. IsPlace (λ other. K.cmp other key) slots.new (at place)) }
{
    slots.insert(place, key)?;
    match staged.insert_empty(place) {
        Ok(()) => Ok(place),
        Err(refused) => {
            staged.clear();
            Err(refused)
        }
    }
}

/// Splits page `number`, which must be full, along with the page's column.
fn split<K: Key + Drop, V: Value, A: Allocator + Copy>(
    slots: &mut Slots<K, V, A>,
    staged: &mut StagedColumns<V, A>,
    alloc: A,
    number: usize,
) -> Result<(), AllocError>
    requires there { number < length slots.old }
    requires full { length (page_at slots.old number) ≡ 256 }
    requires columns { AreColumnsOf slots.old staged.old }
    ensures columns { AreColumnsOf slots.new staged.new }
    ensures committed { filled (slots_of slots.new) ≡ filled (slots_of slots.old) }
    ensures staged { OnOk result (filled (slots_of (staged_of slots.new staged.new)) ≡ filled (slots_of (staged_of slots.old staged.old))) }
    ensures ok { OnOk result (slots.new ≡ with_page_split number slots.old) }
    ensures fits { number + 1 < 2 ^ 64 }
{
    slots.split(alloc, number)?;
    match staged.split(number) {
        Ok(()) => Ok(()),
        Err(refused) => {
            staged.clear();
            Err(refused)
        }
    }
}
