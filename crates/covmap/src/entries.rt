//! The iterator over a map's entries, in ascending order of keys.

use crate::slots::page::{Page, Rest};
use std::alloc::Allocator;
use std::marker::Model;

/// An iterator over the slots that have a value, page by page. Contracts see the remaining keys, each with its value.
#[derive(Drop)]
pub struct Entries<'a, K, V, A: Allocator> {
    pages: &'a [Page<K, V, A>],
    page: Rest<'a, K, V>,
}

impl<'a, K, V, A: Allocator> Model for Entries<'a, K, V, A> {
    ghost use Rattle.std.specs.Prelude.{List, ◌++◌};
    ghost use Rattle.covmap.specs.Slots.{filled, slots_of};

    ghost Value = { List (K × V) };

    ghost view = { λ f. filled f.page ++ filled (slots_of f.pages.now) };
}

impl<'a, K, V, A: Allocator> Entries<'a, K, V, A> {
    ghost use Rattle.std.specs.Prelude.{◌≡◌};
    ghost use Rattle.covmap.specs.Slots.{filled, slots_of};

    /// Returns an iterator over all slots of `pages` that have a value.
    pub(crate) fn of(pages: &'a [Page<K, V, A>]) -> Entries<'a, K, V, A>
        ensures { result ≡ filled (slots_of pages.now) }
    {
        Entries {
            pages,
            page: Rest::none(),
        }
    }
}

impl<'a, K, V, A: Allocator> Iterator for Entries<'a, K, V, A> {
    ghost use Rattle.std.specs.Iterator.{YieldsFirstBy, item_count};

    type Item = (&'a K, &'a V);

    ghost next_gives = { YieldsFirstBy (λ pair. (pair.0.now, pair.1.now)) (λ f. f) };

    ghost remaining = { item_count (λ f. f) };

    fn next(&mut self) -> Option<(&'a K, &'a V)> {
        loop {
            if let Some((key, value, page)) = self.page.split_first() {
                self.page = page;
                if let Some(value) = value {
                    return Some((key, value));
                }
            } else {
                let (page, pages) = self.pages.split_first()?;
                self.pages = pages;
                self.page = page.slots();
            }
        }
    }
}
