//! The checksums of a file, without an allocation before the first checksum.

ghost use Rattle.std.specs.Prelude.{◌≡◌, ◌≤◌, ◌^◌, [], true, is_some, option_map, IfErr, IfSome, OnOk};
ghost use Rattle.covmap.specs.Puts.{value_of};
ghost use Rattle.covstore.specs.Checksums.{IsReportedClash, IsHeldToo, KeepsTexts, StayTexts, held_more};
ghost use Rattle.covstore.specs.PointIndexDrops.{held_less};
ghost use Rattle.std.specs.Ordering.{nat_cmp};

use crate::boxed::Boxed;
use crate::checksums::Checksums;
use crate::stage::fault::StageFault;
use covdata::Memory;
use covmap::SlotIndex;
use std::alloc::Allocator;
use std::marker::Model;

/// The checksums of a file's lines. Most files have no checksums, so a box for them is allocated with the first checksum, and then
/// stays. Contracts see the same as of `Checksums`.
#[derive(Drop)]
pub(crate) struct FileChecksums<A: Allocator> {
    held: Option<Boxed<Checksums<A>, A>>,
}

impl<A: Allocator> Model for FileChecksums<A> {
    ghost use Rattle.covstore.specs.Checksums.{ChecksumsData};
    ghost use Rattle.covstore.specs.FileChecksums.{checksums_or_none};

    ghost Value = { ChecksumsData };

    ghost view = { λ c. checksums_or_none c.held };
}

impl<A: Allocator + Copy> FileChecksums<A> {
    /// Returns an empty set of checksums. Never allocates.
    pub(crate) fn new() -> FileChecksums<A>
        ensures committed { result.committed ≡ [] }
        ensures staged { result.staged ≡ [] }
        ensures texts { result.texts ≡ [] }
    {
        FileChecksums { held: None }
    }

    /// Like `Checksums::hold`. Also fails with `Memory` if the box can't be allocated.
    pub(crate) fn hold(
        &mut self,
        alloc: A,
        line: u64,
        text: &[u8],
        is_held: bool,
    ) -> Result<(), StageFault<A>>
        requires holds { is_held ≡ true → is_some (value_of nat_cmp line self.old.staged) ≡ true }
        requires room { IfSome (value_of nat_cmp line self.old.staged) (λ tests. tests ≤ 2 ^ 63) }
        ensures committed { self.new.committed ≡ self.old.committed }
        ensures ok { OnOk result (self.new.staged ≡ held_more line is_held self.old.staged) }
        ensures text { OnOk result (IsHeldToo line text.now self.old self.new) }
        ensures others { OnOk result (KeepsTexts self.old.staged self.old.texts self.new.staged self.new.texts) }
        ensures stay { StayTexts self.old.committed self.old.texts self.new.texts }
        ensures clash { IfErr result (IsReportedClash self.old line text.now) }
    {
        if let Some(held) = &mut self.held {
            return held.get_mut().hold(alloc, line, text, is_held);
        }
        let mut first = Boxed::new(alloc, Checksums::new(alloc))?;
        first.get_mut().hold(alloc, line, text, is_held)?;
        self.held = Some(first);
        Ok(())
    }

    /// Like `Checksums::hold_again`.
    pub(crate) fn hold_again(&mut self, alloc: A, line: u64, is_held: bool) -> Result<(), Memory>
        requires held { is_some (value_of nat_cmp line self.old.staged) ≡ true }
        requires room { IfSome (value_of nat_cmp line self.old.staged) (λ tests. tests ≤ 2 ^ 63) }
        ensures committed { self.new.committed ≡ self.old.committed }
        ensures texts { self.new.texts ≡ self.old.texts }
        ensures ok { OnOk result (self.new.staged ≡ held_more line is_held self.old.staged) }
    {
        match &mut self.held {
            Some(held) => held.get_mut().hold_again(alloc, line, is_held),
            None => unreachable!(),
        }
    }

    /// Commits the staged values. Never allocates.
    pub(crate) fn commit(&mut self)
        ensures committed { self.new.committed ≡ self.old.staged }
        ensures staged { self.new.staged ≡ self.old.staged }
        ensures texts { self.new.texts ≡ self.old.texts }
    {
        if let Some(held) = &mut self.held {
            held.get_mut().commit();
        }
    }

    /// Like `Checksums::rollback`. Never allocates.
    pub(crate) fn rollback(&mut self)
        ensures committed { self.new.committed ≡ self.old.committed }
        ensures staged { self.new.staged ≡ self.old.committed }
        ensures texts { self.new.texts ≡ self.old.texts }
    {
        if let Some(held) = &mut self.held {
            held.get_mut().rollback();
        }
    }
}

impl<A: Allocator> FileChecksums<A> {
    /// Like `Checksums::release`. Never allocates.
    pub(crate) fn release(&mut self, line: u64)
        requires { is_some (value_of nat_cmp line self.old.committed) ≡ true }
        ensures committed { self.new.committed ≡ held_less line self.old.committed }
        ensures staged { self.new.staged ≡ self.new.committed }
        ensures texts { self.new.texts ≡ self.old.texts }
    {
        if let Some(held) = &mut self.held {
            held.get_mut().release(line);
        }
    }

    /// The stored checksum of a line.
    pub(crate) fn text(&self, line: u64) -> Option<&[u8]>
        ensures { option_map (λ text. text.now) result ≡ value_of nat_cmp line self.now.texts }
    {
        match &self.held {
            Some(held) => held.get().text(line),
            None => None,
        }
    }

    /// Like `Checksums::text_at`.
    pub(crate) fn text_at(&self, line: u64, guess: SlotIndex) -> (Option<&[u8]>, SlotIndex)
        ensures { option_map (λ text. text.now) result.0 ≡ value_of nat_cmp line self.now.texts }
    {
        match &self.held {
            Some(held) => held.get().text_at(line, guess),
            None => (None, guess),
        }
    }
}
