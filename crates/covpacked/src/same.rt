//! Compares items and sections, without allocating.

ghost use Rattle.std.specs.Prelude.{◌≡◌, ◌↔◌, ◌∷◌, IsTrue, drop, map, option_map};
ghost use Rattle.covdata.specs.Row.{BranchItem, FuncItem, LineItem};
ghost use Rattle.covdata.specs.SectView.{sect_data};
ghost use Rattle.covpacked.specs.ItemRefs.{item_ref_data};
ghost use Rattle.covpacked.specs.PackedSects.{packed_sect_data};

use crate::convert::borrowed;
use crate::item_ref::ItemRef;
use crate::packed_items::PackedItems;
use crate::sect_iter::{PackedSect, PackedSectsIter};
use covdata::{Items, Sect};
use std::alloc::Allocator;

/// Whether both iterators return equal sections in the same order.
pub(crate) fn same_sects(first: PackedSectsIter<'_>, second: PackedSectsIter<'_>) -> bool
    ensures { IsTrue result ↔ (first.entry ≡ second.entry) }
{
    let mut others = second;
    for sect in first {
        let Some(other) = others.next() else {
            return false;
        };
        if !same_sect(sect, other) {
            return false;
        }
    }
    others.next().is_none()
}

/// Whether the sections are equal.
fn same_sect(first: PackedSect<'_>, second: PackedSect<'_>) -> bool
    ensures { IsTrue result ↔ (packed_sect_data first.entry ≡ packed_sect_data second.entry) }
{
    first.test == second.test && first.file == second.file && same_items(first.items, second.items)
}

/// Whether the packed sections `first` equal the unpacked sections `second`, in the same order.
pub(crate) fn same_sects_as<A: Allocator>(first: PackedSectsIter<'_>, second: &[Sect<A>]) -> bool
    ensures { IsTrue result ↔ (first.entry ≡ map sect_data second.now) }
{
    let mut packed = first;
    for sect in second {
        let Some(own) = packed.next() else {
            return false;
        };
        if !same_sect_as(own, sect) {
            return false;
        }
    }
    packed.next().is_none()
}

/// Whether the packed section `first` equals the unpacked section `second`.
fn same_sect_as<A: Allocator>(first: PackedSect<'_>, second: &Sect<A>) -> bool
    ensures { IsTrue result ↔ (packed_sect_data first.entry ≡ sect_data second.now) }
{
    first.test == second.test.get()
        && first.file == second.file.get()
        && same_items_as(first.items, &second.items)
}

/// Whether both lists have equal items in the same order.
fn same_items(first: PackedItems<'_>, second: PackedItems<'_>) -> bool
    ensures { IsTrue result ↔ (first.entry ≡ second.entry) }
{
    if first.len() != second.len() {
        return false;
    }
    let mut others = second;
    for item in first {
        if !next_item_is(&mut others, &item) {
            return false;
        }
    }
    true
}

/// Whether the packed items `first` equal the unpacked items `second`, in the same order.
fn same_items_as<A: Allocator>(first: PackedItems<'_>, second: &Items<A>) -> bool
    ensures { IsTrue result ↔ (first.entry ≡ second.now) }
{
    let items = second.get();
    if first.len() != items.len() {
        return false;
    }
    let mut packed = first;
    for item in items {
        if !next_item_is(&mut packed, &borrowed(item)) {
            return false;
        }
    }
    true
}

/// Consumes the next item, and returns whether it equals `wanted`.
fn next_item_is(items: &mut PackedItems<'_>, wanted: &ItemRef<'_>) -> bool
    ensures rest { items.new ≡ drop 1 items.old }
    ensures same { IsTrue result ↔ (items.old ≡ item_ref_data wanted.now ∷ items.new) }
{
    match items.next() {
        Some(item) => same_item(&item, wanted),
        None => false,
    }
}

/// Whether the items are equal.
fn same_item(first: &ItemRef<'_>, second: &ItemRef<'_>) -> bool
    ensures { IsTrue result ↔ (item_ref_data first.now ≡ item_ref_data second.now) }
{
    match *first {
        ItemRef::Line {
            line,
            count,
            checksum,
        } => is_line(second, line, count, checksum),
        ItemRef::Func { name, line, count } => is_function(second, name, line, count),
        ItemRef::Branch {
            line,
            block,
            branch,
            taken,
        } => is_branch(second, line, block, branch, taken),
    }
}

/// Whether `item` is the item of the line `line`, with this count and checksum.
fn is_line(item: &ItemRef<'_>, line: u64, count: u128, checksum: Option<&[u8]>) -> bool
    ensures { IsTrue result ↔ (LineItem line count (option_map (λ text. text.now) checksum.entry) ≡ item_ref_data item.now) }
{
    match *item {
        ItemRef::Line {
            line: own_line,
            count: own_count,
            checksum: own_checksum,
        } => line == own_line && count == own_count && same_checksum(checksum, own_checksum),
        ItemRef::Func { .. } | ItemRef::Branch { .. } => false,
    }
}

/// Whether two checksums are equal, or both missing.
fn same_checksum(first: Option<&[u8]>, second: Option<&[u8]>) -> bool
    ensures { IsTrue result ↔ (option_map (λ text. text.now) first.entry ≡ option_map (λ text. text.now) second.entry) }
{
    match first {
        Some(text) => second.is_some_and(|other| text == other),
        None => second.is_none(),
    }
}

/// Whether `item` is the item of the function `name`, with this start line and count.
fn is_function(item: &ItemRef<'_>, name: &[u8], line: u64, count: u128) -> bool
    ensures { IsTrue result ↔ (FuncItem name.now line count ≡ item_ref_data item.now) }
{
    match *item {
        ItemRef::Func {
            name: own_name,
            line: own_line,
            count: own_count,
        } => line == own_line && count == own_count && name == own_name,
        ItemRef::Line { .. } | ItemRef::Branch { .. } => false,
    }
}

/// Whether `item` is the item of the branch `branch` of this line and block, with this `taken`.
fn is_branch(item: &ItemRef<'_>, line: u64, block: u64, branch: u64, taken: Option<u128>) -> bool
    ensures { IsTrue result ↔ (BranchItem line block branch taken ≡ item_ref_data item.now) }
{
    match *item {
        ItemRef::Branch {
            line: own_line,
            block: own_block,
            branch: own_branch,
            taken: own_taken,
        } => line == own_line && block == own_block && branch == own_branch && taken == own_taken,
        ItemRef::Line { .. } | ItemRef::Func { .. } => false,
    }
}
