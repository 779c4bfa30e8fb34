//! An iterator over the sections of a packed submission.

use crate::packed_items::{PackedItems, text_at};
use crate::packed_sects::ClosedSect;
use std::marker::Model;

/// The counts of one test for one source file, borrowed from packed sections.
#[derive(Drop)]
pub struct PackedSect<'a> {
    /// The test's name, which may be empty (`TN:`).
    pub test: &'a [u8],
    /// The source file's path (`SF:`).
    pub file: &'a [u8],
    /// The items, in the order of the input.
    pub items: PackedItems<'a>,
}

/// An iterator over packed sections. Contracts see the remaining sections.
#[derive(Drop)]
pub struct PackedSectsIter<'a> {
    words: &'a [u64],
    numbers: &'a [u64],
    texts: &'a [u8],
    sects: &'a [ClosedSect],
}

impl<'a> Model for PackedSectsIter<'a> {
    ghost use Rattle.std.specs.Prelude.{List};
    ghost use Rattle.covdata.specs.Row.{SectData};
    ghost use Rattle.covpacked.specs.PackedView.{items_of, sects_of};

    ghost Value = { List SectData };

    ghost view = { λ p. sects_of p.texts.now (items_of p.numbers.now p.texts.now p.words.now) p.sects.now };
}

impl<'a> PackedSectsIter<'a> {
    ghost use Rattle.std.specs.Prelude.{◌≡◌};
    ghost use Rattle.covpacked.specs.PackedView.{items_of, sects_of};

    /// Returns an iterator over the sections in these lists.
    pub(crate) fn of(
        words: &'a [u64],
        numbers: &'a [u64],
        texts: &'a [u8],
        sects: &'a [ClosedSect],
    ) -> PackedSectsIter<'a>
        ensures { result ≡ sects_of texts.now (items_of numbers.now texts.now words.now) sects.now }
    {
        PackedSectsIter {
            words,
            numbers,
            texts,
            sects,
        }
    }
}

impl<'a> Iterator for PackedSectsIter<'a> {
    ghost use Rattle.std.specs.Iterator.{YieldsFirstBy, item_count};
    ghost use Rattle.covpacked.specs.PackedSects.{packed_sect_data};

    type Item = PackedSect<'a>;

    ghost next_gives = { YieldsFirstBy packed_sect_data (λ s. s) };

    ghost remaining = { item_count (λ s. s) };

    fn next(&mut self) -> Option<PackedSect<'a>> {
        let (sect, others) = self.sects.split_first()?;
        let (own, rest) = self.words.split_at(sect.items.min(self.words.len()));
        self.words = rest;
        self.sects = others;
        Some(PackedSect {
            test: text_at(self.texts, sect.test.begin, sect.test.bytes),
            file: text_at(self.texts, sect.file.begin, sect.file.bytes),
            items: PackedItems::of(own, self.numbers, self.texts),
        })
    }
}
