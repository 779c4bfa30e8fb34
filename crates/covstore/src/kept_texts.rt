//! The texts of a file's checksums.

ghost use Rattle.std.specs.Prelude.{◌≡◌, ◌≤◌, ◌++◌, ◌∷◌, [], None, length, option_map, take, OnErr, OnOk, ℕ};
ghost use Rattle.std.specs.Ordering.{nat_cmp};
ghost use Rattle.covmap.specs.Puts.{put, value_of};
ghost use Rattle.covstore.specs.KeptTexts.{AreCommitted, StillHave};

use crate::packed_u64::PackedU64;
use crate::short_text::ShortText;
use covmap::{SlotIndex, StagedMap};
use std::alloc::{AllocError, Allocator};
use std::marker::Model;

/// A list of the checksums' texts. Each line with a text has its own index in the list. A new index is staged until the next
/// commit. A failed allocation removes staged indexes and their texts. Contracts see two lists of lines with their texts, each
/// ascending by line: the texts that remain after a failed allocation, and all texts.
#[derive(Drop)]
pub(crate) struct KeptTexts<A: Allocator> {
    places: StagedMap<u64, PackedU64, A>,
    texts: Vec<ShortText<A>, A>,
    /// How many texts at the front of the list have committed indexes.
    committed: usize,
}

impl<A: Allocator> Model for KeptTexts<A> {
    ghost use Rattle.covstore.specs.KeptTexts.{ArePlaced, KeptTextsData, kept_texts};

    ghost Value = { KeptTextsData };

    ghost view = { λ kept. kept_texts kept.places kept.texts.items };

    ghost invariant = { λ kept. ArePlaced kept.places kept.texts.items kept.committed };
}

impl<A: Allocator + Copy> KeptTexts<A> {
    /// Returns an empty list of texts. Never allocates.
    pub(crate) fn new(alloc: A) -> KeptTexts<A>
        ensures committed { result.committed ≡ [] }
        ensures staged { result.staged ≡ [] }
    {
        KeptTexts {
            places: StagedMap::new(alloc),
            texts: Vec::new(alloc),
            committed: 0,
        }
    }

    /// Stores `text` as the text of `line`. Replacing an older text of the line never allocates. By the clause `among`, the
    /// committed texts are among all texts.
    ///
    /// # Errors
    ///
    /// `AllocError` if an allocation failed. After that, only the texts at committed indexes remain.
    pub(crate) fn set(&mut self, alloc: A, line: u64, text: ShortText<A>) -> Result<(), AllocError>
        ensures committed { StillHave self.old.committed self.new.committed }
        ensures ok { OnOk result (self.new.staged ≡ put nat_cmp line text self.old.staged) }
        ensures err { OnErr result (self.new.staged ≡ self.old.committed) }
        ensures among { AreCommitted self.old }
    {
        match self.places.lookup_staged(line) {
            Some(place) => {
                self.texts[place.get() as usize] = text;
                Ok(())
            }
            None => self.add(alloc, line, text),
        }
    }

    /// Adds `text` as the text of `line`, which must have no text. If an allocation fails, only the texts at committed indexes
    /// remain.
    fn add(&mut self, alloc: A, line: u64, text: ShortText<A>) -> Result<(), AllocError>
        requires { value_of nat_cmp line self.old.staged ≡ None }
        ensures committed { self.new.committed ≡ self.old.committed }
        ensures ok { OnOk result (self.new.staged ≡ put nat_cmp line text self.old.staged) }
        ensures err { OnErr result (self.new.staged ≡ self.old.committed) }
    {
        if let Err(refused) = push(&mut self.places, &mut self.texts, alloc, line, text) {
            // The rollback discards the indexes of new texts, so no look-up would find these texts. If the texts stayed in the
            // list, each failed allocation would leave more of them.
            self.places.rollback();
            self.texts.truncate(self.committed);
            return Err(refused);
        }
        Ok(())
    }

    /// Commits the indexes of all texts. Never allocates.
    pub(crate) fn commit(&mut self)
        ensures committed { self.new.committed ≡ self.old.staged }
        ensures staged { self.new.staged ≡ self.old.staged }
    {
        self.places.commit();
        self.committed = self.texts.len();
    }
}

impl<A: Allocator> KeptTexts<A> {
    /// Returns the text of a line, and the guess for the next line's slot. `guess` is the slot that is tried first.
    pub(crate) fn text_at(&self, line: u64, guess: SlotIndex) -> (Option<&[u8]>, SlotIndex)
        ensures { option_map (λ text. text.now) result.0 ≡ value_of nat_cmp line self.now.staged }
    {
        let (place, next) = self.places.staged_at(line, guess);
        match place {
            Some(place) => (Some(self.texts[place.get() as usize].get()), next),
            None => (None, next),
        }
    }
}

/// Appends `text` to `texts`, and stages the text's index as the index of `line`. If only the staging fails, the text stays in the
/// list.
fn push<A: Allocator + Copy>(
    places: &mut StagedMap<u64, PackedU64, A>,
    texts: &mut Vec<ShortText<A>, A>,
    alloc: A,
    line: u64,
    text: ShortText<A>,
) -> Result<(), AllocError>
    ensures committed { places.new.committed ≡ places.old.committed }
    ensures places { OnOk result (places.new.staged ≡ put nat_cmp line (length texts.old.items) places.old.staged) }
    ensures texts { OnOk result (texts.new.items ≡ texts.old.items ++ text ∷ []) }
    ensures before { (count : ℕ) → count ≤ length texts.old.items → take count texts.new.items ≡ take count texts.old.items }
{
    let place = texts.len();
    texts.push(text)?;
    places.stage(alloc, line, PackedU64::of(place as u64))
}
