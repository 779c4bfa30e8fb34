//! Packed sections: the closed sections, and the items of the open section.

ghost use Rattle.std.specs.Prelude.{◌≡◌, ◌↔◌, ◌∷◌, ◌≤◌, ◌++◌, false, drop, length, take, IfOk, IfSome, IsTrue, MatchOption};
ghost use Rattle.std.specs.List.{AllByRecursion};
ghost use Rattle.covpacked.specs.Layout.{BeginWith};
ghost use Rattle.covpacked.specs.OpenItems.{left, starts_with};
ghost use Rattle.covpacked.specs.PackedView.{HasTexts, IsTextAt};
ghost use Rattle.covpacked.specs.Words.{text_at};

use crate::item_ref::ItemRef;
use crate::packed_items::{PackedItems, text_at};
use crate::parts::{Kind, Parts, append, set_line};
use crate::sect_iter::PackedSectsIter;
use covdata::{BranchPoint, Memory};
use std::alloc::{Allocator, Global};
use std::marker::Model;

/// The location of a text in `texts`, the bytes of all texts.
#[derive(Clone, Copy, Drop)]
pub(crate) struct TextPlace {
    /// The index of the text's first byte.
    pub begin: u64,
    /// The number of bytes of the text.
    pub bytes: u64,
}

/// A closed section: the locations of its names, and its number of items.
#[derive(Clone, Copy, Drop)]
pub(crate) struct ClosedSect {
    /// The location of the test's name.
    pub test: TextPlace,
    /// The location of the source file's path.
    pub file: TextPlace,
    /// The number of items. The items follow those of the previous section.
    pub items: usize,
}

/// The packed content of an input so far. Contracts see the closed sections and the items of the open section.
#[derive(Drop)]
pub struct PackedSects<A: Allocator = Global> {
    words: Vec<u64, A>,
    numbers: Vec<u64, A>,
    texts: Vec<u8, A>,
    sects: Vec<ClosedSect, A>,
    closed: usize,
}

impl<A: Allocator> Model for PackedSects<A> {
    ghost use Rattle.covpacked.specs.PackedView.{ArePacked, PackedData, packed_data};

    ghost Value = { PackedData };

    ghost view = { λ p. packed_data p.numbers.items p.texts.items p.words.items p.sects.items p.closed };

    ghost invariant = { λ p. ArePacked p.numbers.items p.texts.items p.words.items p.sects.items p.closed };
}

impl<A: Allocator + Copy> PackedSects<A> {
    ghost use Rattle.std.specs.Prelude.{◌≡◌, []};

    /// No closed sections, and an open section without items. Never allocates.
    pub fn new(alloc: A) -> PackedSects<A>
        ensures sects { result.sects ≡ [] }
        ensures items { result.items ≡ [] }
    {
        PackedSects {
            words: Vec::new(alloc),
            numbers: Vec::new(alloc),
            texts: Vec::new(alloc),
            sects: Vec::new(alloc),
            closed: 0,
        }
    }
}

impl<A: Allocator> PackedSects<A> {
    ghost use Rattle.std.specs.Prelude.{◌≡◌, ◌<◌, ◌++◌, List, [], ◌∷◌, MatchOption, OnErr, OnOk, length, option_map, slice_get};
    ghost use Rattle.covdata.specs.Row.{LineItem, FuncItem, BranchItem, items_in};
    ghost use Rattle.covpacked.specs.ReadTexts.{IsLastTest};
    ghost use Rattle.covpacked.specs.ItemRefs.{item_ref_data};
    ghost use Rattle.covpacked.specs.OpenItems.{left, start_set};
    ghost use Rattle.covpacked.specs.NewNames.{file_set, test_set};
    ghost use Rattle.covpacked.specs.Words.{HasItsText, HasNoText, item_of_parts, item_with_text};

    /// Appends a line's item to the open section. Leaves the items unchanged on `Memory`.
    #[inline(always)]
    pub fn push_line(
        &mut self,
        line: u64,
        count: u128,
        checksum: Option<&[u8]>,
    ) -> Result<(), Memory>
        ensures sects { self.new.sects ≡ self.old.sects }
        ensures ok { OnOk result (self.new.items ≡ self.old.items ++ LineItem line count (option_map (λ c. c.now) checksum.entry) ∷ []) }
        ensures err { OnErr result (self.new.items ≡ self.old.items) }
    {
        match checksum {
            Some(text) => self.push_with_text(Kind::Checked, line, count, text),
            None => self.push_plain(Parts {
                kind: Kind::Line,
                line,
                count,
                first: 0,
                second: 0,
            }),
        }
    }

    /// Appends a function's item to the open section. Leaves the items unchanged on `Memory`.
    pub fn push_function(&mut self, name: &[u8], line: u64, count: u128) -> Result<(), Memory>
        ensures sects { self.new.sects ≡ self.old.sects }
        ensures ok { OnOk result (self.new.items ≡ self.old.items ++ FuncItem name.now line count ∷ []) }
        ensures err { OnErr result (self.new.items ≡ self.old.items) }
    {
        self.push_with_text(Kind::Function, line, count, name)
    }

    /// Appends a branch's item to the open section. Leaves the items unchanged on `Memory`.
    #[inline(always)]
    pub fn push_branch(&mut self, point: BranchPoint, taken: Option<u128>) -> Result<(), Memory>
        ensures sects { self.new.sects ≡ self.old.sects }
        ensures ok { OnOk result (self.new.items ≡ self.old.items ++ BranchItem point.line point.block point.branch taken ∷ []) }
        ensures err { OnErr result (self.new.items ≡ self.old.items) }
    {
        let BranchPoint {
            line,
            block,
            branch,
        } = point;
        match taken {
            Some(count) => self.push_plain(Parts {
                kind: Kind::Taken,
                line,
                count,
                first: block,
                second: branch,
            }),
            None => self.push_plain(Parts {
                kind: Kind::Untaken,
                line,
                count: 0,
                first: block,
                second: branch,
            }),
        }
    }

    /// Appends `item` to the open section. Leaves the items unchanged on `Memory`.
    pub fn push_item(&mut self, item: ItemRef<'_>) -> Result<(), Memory>
        ensures sects { self.new.sects ≡ self.old.sects }
        ensures ok { OnOk result (self.new.items ≡ self.old.items ++ item_ref_data item.entry ∷ []) }
        ensures err { OnErr result (self.new.items ≡ self.old.items) }
    {
        match item {
            ItemRef::Line {
                line,
                count,
                checksum,
            } => self.push_line(line, count, checksum),
            ItemRef::Func { name, line, count } => self.push_function(name, line, count),
            ItemRef::Branch {
                line,
                block,
                branch,
                taken,
            } => self.push_branch(
                BranchPoint {
                    line,
                    block,
                    branch,
                },
                taken,
            ),
        }
    }

    /// Appends the item of `parts`, which must have no text.
    #[inline(always)]
    fn push_plain(&mut self, parts: Parts) -> Result<(), Memory>
        requires { HasNoText parts.kind }
        ensures sects { self.new.sects ≡ self.old.sects }
        ensures ok { OnOk result (self.new.items ≡ self.old.items ++ item_of_parts [] parts ∷ []) }
        ensures err { OnErr result (self.new.items ≡ self.old.items) }
    {
        append(&mut self.words, &mut self.numbers, parts)
    }

    /// Appends an item with its text: a function's name or a line's checksum.
    fn push_with_text(
        &mut self,
        kind: Kind,
        line: u64,
        count: u128,
        text: &[u8],
    ) -> Result<(), Memory>
        requires { HasItsText kind }
        ensures sects { self.new.sects ≡ self.old.sects }
        ensures ok { OnOk result (self.new.items ≡ self.old.items ++ item_with_text kind line count text.now ∷ []) }
        ensures err { OnErr result (self.new.items ≡ self.old.items) }
    {
        let begin = self.texts.len() as u64;
        self.texts.extend_from_slice(text)?;
        append(
            &mut self.words,
            &mut self.numbers,
            Parts {
                kind,
                line,
                count,
                first: begin,
                second: text.len() as u64,
            },
        )
    }

    /// The items of the open section, in order.
    pub fn items(&self) -> PackedItems<'_>
        ensures { result ≡ self.now.items }
    {
        let (_, words) = self.words.as_slice().split_at(self.closed);
        PackedItems::of(words, self.numbers.as_slice(), self.texts.as_slice())
    }

    /// The number of items in the open section.
    pub fn open_len(&self) -> usize
        ensures { result ≡ length self.now.items }
    {
        self.words.len() - self.closed
    }

    /// Sets the start line of the open section's item at index `at` to `line`, if that item is a function's. `at` must be in range.
    pub fn set_start(&mut self, at: usize, line: u64)
        requires { at < length self.old.items }
        ensures sects { self.new.sects ≡ self.old.sects }
        ensures items { self.new.items ≡ start_set at line self.old.items }
    {
        let word = self.words[self.closed + at];
        set_line(&mut self.numbers, word, line);
    }

    /// Removes the open section's items at the indices `places`, which must ascend. Never allocates.
    pub fn remove(&mut self, places: &[usize])
        ensures sects { self.new.sects ≡ self.old.sects }
        ensures items { self.new.items ≡ left 0 places.now self.old.items }
    {
        remove_words(&mut self.words, self.closed, places);
    }

    /// Removes all items of the open section. Never allocates.
    pub fn forget(&mut self)
        ensures sects { self.new.sects ≡ self.old.sects }
        ensures items { self.new.items ≡ [] }
    {
        self.words.truncate(self.closed);
    }

    /// Closes the open section, with this test name and source file. Leaves the sections and items unchanged on `Memory`.
    pub fn close(&mut self, test: &[u8], file: &[u8]) -> Result<(), Memory>
        ensures sects { OnOk result (self.new.sects ≡ self.old.sects ++ record { test = test.now; file = file.now; items = self.old.items } ∷ []) }
        ensures items { OnOk result (self.new.items ≡ []) }
        ensures same_sects { OnErr result (self.new.sects ≡ self.old.sects) }
        ensures same_items { OnErr result (self.new.items ≡ self.old.items) }
    {
        let NamePlaces { test, file } = place_names(&self.sects, &mut self.texts, test, file)?;
        let items = self.words.len() - self.closed;
        self.sects.push(ClosedSect { test, file, items })?;
        self.closed = self.words.len();
        Ok(())
    }

    /// The source file of the closed section at `index`, or `None` if there are fewer sections.
    pub fn file_at(&self, index: usize) -> Option<&[u8]>
        ensures { option_map (λ file. file.now) result ≡ option_map (λ s. s.file) (slice_get self.now.sects index) }
    {
        match self.sects.get(index) {
            Some(sect) => {
                let TextPlace { begin, bytes } = sect.file;
                Some(text_at(self.texts.as_slice(), begin, bytes))
            }
            None => None,
        }
    }

    /// Gives the closed section at `index`, which must exist, another source file. Leaves the sections unchanged on `Memory`.
    pub fn set_file(&mut self, index: usize, file: &[u8]) -> Result<(), Memory>
        requires { index < length self.old.sects }
        ensures sects { OnOk result (self.new.sects ≡ file_set index file.now self.old.sects) }
        ensures same { OnErr result (self.new.sects ≡ self.old.sects) }
        ensures items { self.new.items ≡ self.old.items }
    {
        let file = append_text(&mut self.texts, file)?;
        let ClosedSect { test, items, .. } = self.sects[index];
        self.sects[index] = ClosedSect { test, file, items };
        Ok(())
    }

    /// Gives the closed section at `index`, which must exist, another test name. Leaves the sections unchanged on `Memory`.
    pub fn set_test(&mut self, index: usize, test: &[u8]) -> Result<(), Memory>
        requires { index < length self.old.sects }
        ensures sects { OnOk result (self.new.sects ≡ test_set index test.now self.old.sects) }
        ensures same { OnErr result (self.new.sects ≡ self.old.sects) }
        ensures items { self.new.items ≡ self.old.items }
    {
        let test = append_text(&mut self.texts, test)?;
        let ClosedSect { file, items, .. } = self.sects[index];
        self.sects[index] = ClosedSect { test, file, items };
        Ok(())
    }

    /// The number of items in the closed sections.
    pub(crate) fn closed_len(&self) -> usize
        ensures { result ≡ items_in self.now.sects }
    {
        self.closed
    }

    /// The number of closed sections.
    pub fn closed_sects(&self) -> usize
        ensures { result ≡ length self.now.sects }
    {
        self.sects.len()
    }

    /// The test name of the last closed section, or `None` if no section is closed.
    pub fn last_test(&self) -> Option<&[u8]>
        ensures { MatchOption result (self.now.sects ≡ []) (λ test. IsLastTest self.now.sects test.now) }
    {
        let TextPlace { begin, bytes } = self.sects.last()?.test;
        Some(text_at(self.texts.as_slice(), begin, bytes))
    }

    /// The closed sections, in order.
    pub fn sects(&self) -> PackedSectsIter<'_>
        ensures { result ≡ self.now.sects }
    {
        PackedSectsIter::of(
            self.words.as_slice(),
            self.numbers.as_slice(),
            self.texts.as_slice(),
            self.sects.as_slice(),
        )
    }
}

/// Removes the words at the indices `places`, which must ascend and are counted from index `from`.
fn remove_words<A: Allocator>(words: &mut Vec<u64, A>, from: usize, places: &[usize])
    requires { from ≤ length words.old.items }
    ensures { words.new.items ≡ take from words.old.items ++ left 0 places.now (drop from words.old.items) }
{
    let mut places = places;
    let mut kept = from;
    for place in 0..words.len() - from {
        match skip_place(places, place) {
            Some(rest) => places = rest,
            None => {
                words[kept] = words[from + place];
                kept += 1;
            }
        }
    }
    words.truncate(kept);
}

/// Returns `places` without the first place if that place is `at`, else `None`.
fn skip_place(places: &[usize], at: usize) -> Option<&[usize]>
    ensures { MatchOption result (starts_with at places.entry.now ≡ false) (λ rest. places.entry.now ≡ at ∷ rest.now) }
{
    match places {
        [first, rest @ ..] if *first == at => Some(rest),
        _ => None,
    }
}

/// The locations of a section's names.
#[derive(Clone, Copy, Drop)]
struct NamePlaces {
    /// The location of the test's name.
    test: TextPlace,
    /// The location of the source file's path.
    file: TextPlace,
}

/// Appends a section's names to `texts`, and returns the names' locations. Doesn't append a test name that equals the last
/// section's, so consecutive sections of one test share one name.
fn place_names<A: Allocator>(
    sects: &Vec<ClosedSect, A>,
    texts: &mut Vec<u8, A>,
    test: &[u8],
    file: &[u8],
) -> Result<NamePlaces, Memory>
    requires { AllByRecursion (HasTexts texts.old.items) sects.now.items }
    ensures test { IfOk result (λ names. IsTextAt texts.new.items test.now names.test) }
    ensures file { IfOk result (λ names. IsTextAt texts.new.items file.now names.file) }
    ensures grows { BeginWith texts.new.items texts.old.items }
{
    let test = match last_test(sects, texts, test) {
        Some(place) => place,
        None => append_text(texts, test)?,
    };
    let file = append_text(texts, file)?;
    Ok(NamePlaces { test, file })
}

/// The location of the last section's test name if that name is `test`, else `None`. So consecutive sections of one test share one
/// name.
fn last_test<A: Allocator>(
    sects: &Vec<ClosedSect, A>,
    texts: &Vec<u8, A>,
    test: &[u8],
) -> Option<TextPlace>
    requires { AllByRecursion (HasTexts texts.now.items) sects.now.items }
    ensures { IfSome result (λ place. IsTextAt texts.now.items test.now place) }
{
    let place = sects.last()?.test;
    let is_same = is_text_at(texts.as_slice(), place, test);
    if is_same {
        return Some(place);
    }
    None
}

/// Whether the bytes at `place` in `texts` are `text`.
fn is_text_at(texts: &[u8], place: TextPlace, text: &[u8]) -> bool
    ensures { IsTrue result ↔ (text_at texts.now place.begin place.bytes ≡ text.now) }
{
    text_at(texts, place.begin, place.bytes) == text
}

/// Appends `text` to `texts`, and returns the location of `text`. Leaves `texts` unchanged on `Memory`.
fn append_text<A: Allocator>(texts: &mut Vec<u8, A>, text: &[u8]) -> Result<TextPlace, Memory>
    ensures ok { IfOk result (λ place. IsTextAt texts.new.items text.now place) }
    ensures grows { BeginWith texts.new.items texts.old.items }
{
    let begin = texts.len() as u64;
    texts.extend_from_slice(text)?;
    Ok(TextPlace {
        begin,
        bytes: text.len() as u64,
    })
}
