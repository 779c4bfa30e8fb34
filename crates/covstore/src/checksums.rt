//! The checksums of a file's lines. A line has at most one checksum, however many tests hold this checksum.

ghost use Rattle.std.specs.Prelude.{◌≡◌, ◌≤◌, ◌^◌, [], true, Some, None, is_some, option_map, IfErr, IfSome, OnOk};
ghost use Rattle.covstore.specs.Checksums.{IsReportedClash, IsHeldToo, KeepsTexts, StayTexts, held_more};
ghost use Rattle.covstore.specs.PointIndexDrops.{held_less, one_less};
ghost use Rattle.covmap.specs.Puts.{put, value_of};
ghost use Rattle.covstore.specs.declared.stage.fault.StageFault.TheVariants as stops;
ghost use Rattle.std.specs.Ordering.{nat_cmp};

use crate::kept_texts::KeptTexts;
use crate::packed_u64::PackedU64;
use crate::short_text::ShortText;
use crate::stage::fault::StageFault;
use covdata::{Bytes, Memory};
use covmap::{SlotIndex, StagedMap};
use std::alloc::Allocator;
use std::marker::Model;

/// The checksum of each line, and the committed and staged numbers of tests that hold the checksum. A checksum without holders may
/// stay stored until another one replaces it. Contracts see the numbers of tests and the checksums.
#[derive(Drop)]
pub(crate) struct Checksums<A: Allocator> {
    holders: StagedMap<u64, PackedU64, A>,
    texts: KeptTexts<A>,
}

impl<A: Allocator> Model for Checksums<A> {
    ghost use Rattle.covstore.specs.Checksums.{AreTexts, ChecksumsData};

    ghost Value = { ChecksumsData };

    ghost view = { λ c. record { committed = c.holders.committed; staged = c.holders.staged; texts = c.texts.staged } };

    ghost invariant = { λ c. AreTexts c.holders c.texts };
}

impl<A: Allocator + Copy> Checksums<A> {
    /// Returns an empty set of checksums.
    pub(crate) fn new(alloc: A) -> Checksums<A>
        ensures committed { result.committed ≡ [] }
        ensures staged { result.staged ≡ [] }
        ensures texts { result.texts ≡ [] }
    {
        Checksums {
            holders: StagedMap::new(alloc),
            texts: KeptTexts::new(alloc),
        }
    }

    /// Stages `text` as the checksum of `line`, held by one more test. If `is_held`, the test holds the line's checksum already and
    /// isn't counted again.
    ///
    /// # Errors
    ///
    /// `Clash` if the line's held checksum differs, `Memory` if an allocation failed. A failed allocation may discard the staged
    /// values.
    pub(crate) fn hold(
        &mut self,
        alloc: A,
        line: u64,
        text: &[u8],
        is_held: bool,
    ) -> Result<(), StageFault<A>>
        requires holds { is_held ≡ true → is_some (value_of nat_cmp line self.old.staged) ≡ true }
        requires room { IfSome (value_of nat_cmp line self.old.staged) (λ tests. tests ≤ 2 ^ 63) }
        ensures committed { self.new.committed ≡ self.old.committed }
        ensures ok { OnOk result (self.new.staged ≡ held_more line is_held self.old.staged) }
        ensures text { OnOk result (IsHeldToo line text.now self.old self.new) }
        ensures others { OnOk result (KeepsTexts self.old.staged self.old.texts self.new.staged self.new.texts) }
        ensures stay { StayTexts self.old.committed self.old.texts self.new.texts }
        ensures clash { IfErr result (IsReportedClash self.old line text.now) }
    {
        let Some(tests) = self.holders.lookup_staged(line) else {
            return self.hold_first(alloc, line, text);
        };
        self.refuse_clash(alloc, line, text)?;
        if is_held {
            return Ok(());
        }
        self.set_holders(alloc, line, tests.get() + 1)
    }

    /// Stages the checksum of `line`, which must have a holder, as held by one more test. If `is_held`, the test holds the checksum
    /// already and isn't counted again. A failed allocation discards the staged values.
    pub(crate) fn hold_again(&mut self, alloc: A, line: u64, is_held: bool) -> Result<(), Memory>
        requires held { is_some (value_of nat_cmp line self.old.staged) ≡ true }
        requires room { IfSome (value_of nat_cmp line self.old.staged) (λ tests. tests ≤ 2 ^ 63) }
        ensures committed { self.new.committed ≡ self.old.committed }
        ensures texts { self.new.texts ≡ self.old.texts }
        ensures ok { OnOk result (self.new.staged ≡ held_more line is_held self.old.staged) }
    {
        if is_held {
            return Ok(());
        }
        let Some(tests) = self.holders.lookup_staged(line) else {
            unreachable!();
        };
        match self.set_holders(alloc, line, tests.get() + 1) {
            Ok(()) => Ok(()),
            Err(_refused) => Err(Memory),
        }
    }

    /// Stages `text` as the checksum of `line`, held by a first test. A failed allocation may discard the staged values.
    fn hold_first(&mut self, alloc: A, line: u64, text: &[u8]) -> Result<(), StageFault<A>>
        requires { value_of nat_cmp line self.old.staged ≡ None }
        ensures committed { self.new.committed ≡ self.old.committed }
        ensures ok { OnOk result (self.new.staged ≡ put nat_cmp line 1 self.old.staged) }
        ensures text { OnOk result (self.new.texts ≡ put nat_cmp line text.now self.old.texts) }
        ensures stay { StayTexts self.old.committed self.old.texts self.new.texts }
        ensures err { IfErr result (λ stop. stop ≡ stops.Memory) }
    {
        let kept = ShortText::of(alloc, text)?;
        if self.texts.set(alloc, line, kept).is_err() {
            self.holders.rollback();
            return Err(StageFault::Memory);
        }
        self.set_holders(alloc, line, 1)
    }

    /// Stages `tests` as the number of tests that hold the checksum of `line`. The line must have a checksum. A failed allocation
    /// discards the staged values.
    fn set_holders(&mut self, alloc: A, line: u64, tests: u64) -> Result<(), StageFault<A>>
        requires { is_some (value_of nat_cmp line self.old.texts) ≡ true }
        ensures committed { self.new.committed ≡ self.old.committed }
        ensures texts { self.new.texts ≡ self.old.texts }
        ensures ok { OnOk result (self.new.staged ≡ put nat_cmp line tests self.old.staged) }
        ensures err { IfErr result (λ stop. stop ≡ stops.Memory) }
    {
        if self
            .holders
            .stage(alloc, line, PackedU64::of(tests))
            .is_err()
        {
            self.holders.rollback();
            return Err(StageFault::Memory);
        }
        Ok(())
    }

    /// Returns `Clash` if `text` differs from the held checksum of `line`. The line must have a held checksum.
    fn refuse_clash(&self, alloc: A, line: u64, text: &[u8]) -> Result<(), StageFault<A>>
        requires held { is_some (value_of nat_cmp line self.now.staged) ≡ true }
        requires kept { is_some (value_of nat_cmp line self.now.texts) ≡ true }
        ensures ok { OnOk result (value_of nat_cmp line self.now.texts ≡ Some text.now) }
        ensures clash { IfErr result (IsReportedClash self.now line text.now) }
    {
        let Some(held) = self.text(line) else {
            unreachable!();
        };
        if held != text {
            return Err(StageFault::Clash {
                line,
                held: Bytes::of(alloc, held)?,
                given: Bytes::of(alloc, text)?,
            });
        }
        Ok(())
    }

    /// Commits the staged values. Never allocates.
    pub(crate) fn commit(&mut self)
        ensures committed { self.new.committed ≡ self.old.staged }
        ensures staged { self.new.staged ≡ self.old.staged }
        ensures texts { self.new.texts ≡ self.old.texts }
    {
        self.holders.commit();
        self.texts.commit();
    }

    /// Discards the staged numbers of tests, but keeps all checksums. A checksum without holders may be replaced later. Never
    /// allocates.
    pub(crate) fn rollback(&mut self)
        ensures committed { self.new.committed ≡ self.old.committed }
        ensures staged { self.new.staged ≡ self.old.committed }
        ensures texts { self.new.texts ≡ self.old.texts }
    {
        self.holders.rollback();
    }
}

impl<A: Allocator> Checksums<A> {
    /// Removes one of the holders of a line's checksum, and discards the staged values. The checksum must have a holder. Never
    /// allocates.
    pub(crate) fn release(&mut self, line: u64)
        requires { is_some (value_of nat_cmp line self.old.committed) ≡ true }
        ensures committed { self.new.committed ≡ held_less line self.old.committed }
        ensures staged { self.new.staged ≡ self.new.committed }
        ensures texts { self.new.texts ≡ self.old.texts }
    {
        if let Some(tests) = self.holders.lookup(line) {
            self.holders.replace(line, one_less(tests.get()));
        }
    }

    /// The stored checksum of a line.
    pub(crate) fn text(&self, line: u64) -> Option<&[u8]>
        ensures { option_map (λ text. text.now) result ≡ value_of nat_cmp line self.now.texts }
    {
        // `holders` and `texts` get their lines together, so a line usually has the same slot in both. The slot last found in
        // `holders` is a good guess for the slot in `texts`.
        self.text_at(line, self.holders.cursor()).0
    }

    /// Returns the stored checksum of a line, and the guess for the next line's slot. `guess` is the slot that is tried first.
    pub(crate) fn text_at(&self, line: u64, guess: SlotIndex) -> (Option<&[u8]>, SlotIndex)
        ensures { option_map (λ text. text.now) result.0 ≡ value_of nat_cmp line self.now.texts }
    {
        self.texts.text_at(line, guess)
    }
}

/// Returns `tests` minus one, or `None` if no test is left.
fn one_less(tests: u64) -> Option<PackedU64>
    ensures { result ≡ one_less tests }
{
    if tests > 1 {
        Some(PackedU64::of(tests - 1))
    } else {
        None
    }
}
