//! The checks that sections must pass to become a submission.

ghost use Rattle.std.specs.Prelude.{◌≡◌, ◌<◌, ◌≤◌, ◌↔◌, IsTrue, IsSome, MatchOption, All, map};
ghost use Rattle.std.specs.List.{AllByRecursion};
ghost use Rattle.covdata.specs.Row.{item_data, items_in};
ghost use Rattle.covdata.specs.SectView.{sect_data};
ghost use Rattle.covdata.specs.Lawful.{max_items, AllFit, IsFirstUnlawful, IsLawfulItem, IsLawfulSect};

use crate::item::Item;
use crate::names::{good_checksum, good_name, good_test};
use crate::sect::Sect;
use std::alloc::Allocator;

/// The largest number of items in a submission.
const MAX_ITEMS: u64 = 67_108_864;

/// Counts the items in the sections. Returns `None` if there are more than `MAX_ITEMS` items.
pub fn count_items<A: Allocator>(sects: &[Sect<A>]) -> Option<u64>
    ensures count { let all = map sect_data sects.now in
        MatchOption result (max_items < items_in all) (λ n. (n ≡ items_in all) × (n ≤ max_items)) }
    ensures fit { IsSome result → AllByRecursion (λ s. AllFit s.items) (map sect_data sects.now) }
{
    let mut items = 0;
    for sect in sects {
        let more = sect.items.get().len() as u64;
        if more > MAX_ITEMS - items {
            return None;
        }
        items += more;
    }
    Some(items)
}

/// Returns the index of the first section with an unlawful name or checksum, or `None` if all names and checksums are lawful.
pub fn first_unlawful<A: Allocator>(sects: &[Sect<A>]) -> Option<usize>
    ensures { let all = map sect_data sects.now in
        MatchOption result (All IsLawfulSect all) (IsFirstUnlawful all) }
{
    for (at, sect) in sects.iter().enumerate() {
        if !is_lawful(sect) {
            return Some(at);
        }
    }
    None
}

/// Whether the names and checksums of the section are lawful.
fn is_lawful<A: Allocator>(sect: &Sect<A>) -> bool
    ensures { IsTrue result ↔ IsLawfulSect (sect_data sect.now) }
{
    good_test(sect.test.get()) && good_name(sect.file.get()) && are_lawful(sect.items.get())
}

/// Whether the names and checksums of the items are lawful.
fn are_lawful<A: Allocator>(items: &[Item<A>]) -> bool
    ensures { IsTrue result ↔ All (λ item. IsLawfulItem (item_data item)) items.now }
{
    items.iter().all(|item| is_lawful_item(item))
}

/// Whether the item's name or checksum, if the item has one, is lawful.
fn is_lawful_item<A: Allocator>(item: &Item<A>) -> bool
    ensures { IsTrue result ↔ IsLawfulItem (item_data item.now) }
{
    match item {
        Item::Line {
            checksum: Some(checksum),
            ..
        } => good_checksum(checksum.get()),
        Item::Func { name, .. } => good_name(name.get()),
        Item::Line { checksum: None, .. } | Item::Branch { .. } => true,
    }
}
