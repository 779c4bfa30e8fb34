//! Sections and lists of sections.

use crate::bytes::Bytes;
use crate::item::Items;
use crate::memory::Memory;
use std::alloc::{Allocator, Global};
use std::marker::Model;

/// The counts of one test for one source file.
#[derive(Drop)]
pub struct Sect<A: Allocator = Global> {
    /// The test's name, which may be empty (`TN:`).
    pub test: Bytes<A>,
    /// The source file's path (`SF:`).
    pub file: Bytes<A>,
    /// The items, in the order of the input.
    pub items: Items<A>,
}

impl<A: Allocator + Copy> Sect<A> {
    ghost use Rattle.std.specs.Prelude.{◌≡◌, IfOk};
    ghost use Rattle.covdata.specs.SectView.{sect_data};

    /// Copies the section.
    pub(crate) fn copy(&self, alloc: A) -> Result<Sect<A>, Memory>
        ensures { IfOk result (λ s. sect_data s ≡ sect_data self.now) }
    {
        Ok(Sect {
            test: self.test.copy(alloc)?,
            file: self.file.copy(alloc)?,
            items: self.items.copy(alloc)?,
        })
    }
}

impl<A: Allocator> Sect<A> {
    ghost use Rattle.std.specs.Prelude.{◌≡◌, ◌↔◌, IsTrue};
    ghost use Rattle.covdata.specs.SectView.{sect_data};

    /// Whether the sections are equal. Never allocates.
    pub fn is_same(&self, other: &Sect<A>) -> bool
        ensures { IsTrue result ↔ (sect_data self.now ≡ sect_data other.now) }
    {
        self.test.is_same(&other.test)
            && self.file.is_same(&other.file)
            && self.items.is_same(&other.items)
    }
}

/// A list of sections. Contracts see the sections as plain data.
#[derive(Drop)]
pub struct Sects<A: Allocator = Global> {
    sects: Vec<Sect<A>, A>,
}

impl<A: Allocator> Model for Sects<A> {
    ghost use Rattle.std.specs.Prelude.{List, map};
    ghost use Rattle.covdata.specs.Row.{SectData};
    ghost use Rattle.covdata.specs.SectView.{sect_data};

    ghost Value = { List SectData };

    ghost view = { λ a. map sect_data a.sects.items };
}

impl<A: Allocator + Copy> Sects<A> {
    ghost use Rattle.std.specs.Prelude.{◌≡◌, ◌++◌, [], ◌∷◌, IfOk, OnOk};
    ghost use Rattle.covdata.specs.SectView.{sect_data};

    /// Copies the list.
    pub fn copy(&self, alloc: A) -> Result<Sects<A>, Memory>
        ensures { IfOk result (λ s. s ≡ self.now) }
    {
        let mut copy = Sects {
            sects: Vec::with_capacity(alloc, self.sects.len())?,
        };
        for sect in self.get() {
            copy.push_copy(sect, alloc)?;
        }
        Ok(copy)
    }

    /// Appends a copy of the section.
    fn push_copy(&mut self, sect: &Sect<A>, alloc: A) -> Result<(), Memory>
        ensures { OnOk result (self.new ≡ self.old ++ sect_data sect.now ∷ []) }
    {
        self.push(sect.copy(alloc)?)
    }
}

impl<A: Allocator> Sects<A> {
    ghost use Rattle.std.specs.Prelude.{◌≡◌, ◌↔◌, ◌++◌, [], ◌∷◌, IsTrue, OnOk, OnErr, map};
    ghost use Rattle.covdata.specs.SectView.{sect_data};

    /// The empty list.
    pub fn new(alloc: A) -> Sects<A>
        ensures { result ≡ [] }
    {
        Sects {
            sects: Vec::new(alloc),
        }
    }

    /// Appends a section. On `Memory`, drops the section and leaves the list unchanged.
    pub fn push(&mut self, sect: Sect<A>) -> Result<(), Memory>
        ensures ok { OnOk result (self.new ≡ self.old ++ sect_data sect ∷ []) }
        ensures err { OnErr result (self.new ≡ self.old) }
    {
        self.sects.push(sect)?;
        Ok(())
    }

    /// Whether the lists have equal sections in the same order. Never allocates.
    pub fn is_same(&self, other: &Sects<A>) -> bool
        ensures { IsTrue result ↔ (self.now ≡ other.now) }
    {
        let sects = self.get();
        let others = other.get();
        if sects.len() != others.len() {
            return false;
        }
        for (index, sect) in sects.iter().enumerate() {
            if !sect.is_same(&others[index]) {
                return false;
            }
        }
        true
    }

    /// Frees the list's own unused capacity, but none inside its sections. Meant for a finished list.
    pub fn shrink(&mut self)
        ensures { self.new ≡ self.old }
    {
        self.sects.shrink_to_fit();
    }

    /// The sections in order.
    pub fn get(&self) -> &[Sect<A>]
        ensures { map sect_data result.now ≡ self.now }
    {
        self.sects.as_slice()
    }
}
