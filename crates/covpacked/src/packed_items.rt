//! The packed items of a section.

ghost use Rattle.std.specs.Prelude.{◌≡◌};
ghost use Rattle.covdata.specs.Row.{BranchItem};
ghost use Rattle.covpacked.specs.ItemRefs.{item_ref_data};
ghost use Rattle.covpacked.specs.Words.{item_of_parts, text_at};

use crate::item_ref::ItemRef;
use crate::parts::{Kind, Parts, parts_of};
use std::marker::Model;

/// A section's items in order, borrowed from packed sections. Also an iterator over these items. Contracts see the remaining items.
#[derive(Drop)]
pub struct PackedItems<'a> {
    words: &'a [u64],
    numbers: &'a [u64],
    texts: &'a [u8],
}

impl<'a> Model for PackedItems<'a> {
    ghost use Rattle.std.specs.Prelude.{List};
    ghost use Rattle.covdata.specs.Row.{ItemData};
    ghost use Rattle.covpacked.specs.PackedView.{items_of};

    ghost Value = { List ItemData };

    ghost view = { λ p. items_of p.numbers.now p.texts.now p.words.now };
}

impl<'a> PackedItems<'a> {
    ghost use Rattle.std.specs.Prelude.{◌≡◌, ◌==◌, ◌≤◌, drop, length, option_map, slice_get, take};
    ghost use Rattle.covpacked.specs.ItemRefs.{item_ref_data};
    ghost use Rattle.covpacked.specs.PackedView.{items_of};
    ghost use Rattle.covpacked.specs.Words.{item_of_parts, text_at};

    /// The items packed into `words`, `numbers` and `texts`.
    pub(crate) fn of(words: &'a [u64], numbers: &'a [u64], texts: &'a [u8]) -> PackedItems<'a>
        ensures { result ≡ items_of numbers.now texts.now words.now }
    {
        PackedItems {
            words,
            numbers,
            texts,
        }
    }

    /// Copies the borrowed list, not the items. Never allocates.
    pub fn copy(&self) -> PackedItems<'a>
        ensures { result ≡ self.now }
    {
        PackedItems {
            words: self.words,
            numbers: self.numbers,
            texts: self.texts,
        }
    }

    /// The number of items.
    pub fn len(&self) -> usize
        ensures { result ≡ length self.now }
    {
        self.words.len()
    }

    /// Whether there are no items.
    pub fn is_empty(&self) -> bool
        ensures { result ≡ (length self.now == 0) }
    {
        self.words.is_empty()
    }

    /// The item at `index`, or `None` if `index` is too large.
    #[inline(always)]
    pub fn get(&self, index: usize) -> Option<ItemRef<'a>>
        ensures { option_map item_ref_data result ≡ slice_get self.now index }
    {
        match self.words.get(index) {
            Some(word) => Some(item_of(self.texts, parts_of(self.numbers, *word))),
            None => None,
        }
    }

    /// The first `mid` items, which must exist, and the others.
    pub fn split_at(&self, mid: usize) -> (PackedItems<'a>, PackedItems<'a>)
        requires { mid ≤ length self.now }
        ensures first { result.0 ≡ take mid self.now }
        ensures others { result.1 ≡ drop mid self.now }
    {
        let (first, others) = self.words.split_at(mid);
        (
            PackedItems::of(first, self.numbers, self.texts),
            PackedItems::of(others, self.numbers, self.texts),
        )
    }
}

impl<'a> Iterator for PackedItems<'a> {
    ghost use Rattle.std.specs.Iterator.{YieldsFirstBy, item_count};
    ghost use Rattle.covpacked.specs.ItemRefs.{item_ref_data};

    type Item = ItemRef<'a>;

    ghost next_gives = { YieldsFirstBy item_ref_data (λ s. s) };

    ghost remaining = { item_count (λ s. s) };

    #[inline(always)]
    fn next(&mut self) -> Option<ItemRef<'a>> {
        let (word, rest) = self.words.split_first()?;
        self.words = rest;
        Some(item_of(self.texts, parts_of(self.numbers, *word)))
    }
}

/// Makes the item of `parts`, with its text borrowed from `texts`.
#[inline(always)]
fn item_of<'a>(texts: &'a [u8], parts: Parts) -> ItemRef<'a>
    ensures { item_ref_data result ≡ item_of_parts texts.now parts }
{
    let Parts {
        kind,
        line,
        count,
        first,
        second,
    } = parts;
    match kind {
        Kind::Line => ItemRef::Line {
            line,
            count,
            checksum: None,
        },
        Kind::Checked => ItemRef::Line {
            line,
            count,
            checksum: Some(text_at(texts, first, second)),
        },
        Kind::Taken => branch_of(line, first, second, Some(count)),
        Kind::Untaken => branch_of(line, first, second, None),
        Kind::Function => ItemRef::Func {
            name: text_at(texts, first, second),
            line,
            count,
        },
    }
}

/// The item of a branch.
#[inline(always)]
fn branch_of<'a>(line: u64, block: u64, branch: u64, taken: Option<u128>) -> ItemRef<'a>
    ensures { item_ref_data result ≡ BranchItem line block branch taken }
{
    ItemRef::Branch {
        line,
        block,
        branch,
        taken,
    }
}

/// The `bytes` bytes of `texts` from index `begin` on, or fewer if `texts` ends before.
pub(crate) fn text_at(texts: &[u8], begin: u64, bytes: u64) -> &[u8]
    ensures { result.now ≡ text_at texts.now begin bytes }
{
    let begin = texts.len().min(begin as usize);
    let (_, rest) = texts.split_at(begin);
    let bytes = rest.len().min(bytes as usize);
    let (text, _) = rest.split_at(bytes);
    text
}
