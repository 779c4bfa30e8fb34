//! Lists of patterns.

use crate::pattern::matches;
use covdata::{Bytes, Memory};
use std::alloc::{Allocator, Global};
use std::marker::Model;
use thiserror::Error;

/// The maximum number of patterns in one list.
pub const MAX_PATTERNS: usize = 64;

/// The maximum number of bytes in one pattern.
pub const MAX_PATTERN_BYTES: usize = 1_024;

/// Why a pattern couldn't be added to a list.
#[derive(Clone, Copy, Debug, PartialEq, Eq, Error)]
pub enum PatternFault {
    /// The list has 64 patterns already. `add` checks this first.
    #[error("TooMany")]
    TooMany = 1,
    /// The pattern has more than 1,024 bytes.
    #[error("TooLong")]
    TooLong = 2,
    /// An allocation failed.
    #[error("out of memory")]
    Memory = 3,
}

impl PatternFault {
    ghost use Rattle.std.specs.Prelude.{◌≡◌};
    ghost use Rattle.covreport.specs.PatternFault.{fault_number};

    /// The number of the error, from 1.
    pub fn number(self) -> u32
        ensures { result ≡ fault_number self }
    {
        self as u32
    }
}

impl From<Memory> for PatternFault {
    ghost use Rattle.std.specs.Prelude.{◌≡◌};
    ghost use Rattle.covreport.specs.declared.patterns.PatternFault.TheVariants as faults;

    ghost from_gives = { λ _ e. e ≡ faults.Memory };

    fn from(_refused: Memory) -> PatternFault {
        PatternFault::Memory
    }
}

/// A list of at most 64 patterns of at most 1,024 bytes each. Contracts see the patterns.
#[derive(Drop)]
pub struct Patterns<A: Allocator = Global> {
    patterns: Vec<Bytes<A>, A>,
}

impl<A: Allocator> Model for Patterns<A> {
    ghost use Rattle.std.specs.Prelude.{List, ℕ, ◌≤◌, length};
    ghost use Rattle.std.specs.List.{AllByRecursion};
    ghost use Rattle.covreport.specs.Choice.{max_patterns, max_pattern_bytes};

    ghost Value = { List (List ℕ) };

    ghost view = { λ a. a.patterns.items };

    ghost invariant = { λ a. (length a.patterns.items ≤ max_patterns) × AllByRecursion (λ p. length p ≤ max_pattern_bytes) a.patterns.items };
}

impl<A: Allocator + Copy> Patterns<A> {
    ghost use Rattle.std.specs.Prelude.{◌≡◌, ◌≢◌, ◌↔◌, ◌<◌, ◌≤◌, ◌++◌, [], ◌∷◌, length, IfOk, OnOk, OnErr, Err};
    ghost use Rattle.covreport.specs.declared.patterns.PatternFault.TheVariants as faults;
    ghost use Rattle.covreport.specs.Choice.{any_matches, max_patterns, max_pattern_bytes};

    /// The empty list. Never allocates.
    pub fn new(alloc: A) -> Patterns<A>
        ensures { result ≡ [] }
    {
        Patterns {
            patterns: Vec::new(alloc),
        }
    }

    /// Appends a pattern. An error leaves the list unchanged.
    pub fn add(&mut self, alloc: A, pattern: &[u8]) -> Result<(), PatternFault>
        ensures ok { OnOk result (self.new ≡ self.old ++ pattern.now ∷ []) }
        ensures err { OnErr result (self.new ≡ self.old) }
        ensures too_many { (result ≡ Err faults.TooMany) ↔ (length self.old ≡ max_patterns) }
        ensures too_long { (result ≡ Err faults.TooLong) ↔ ((length self.old < max_patterns) × (max_pattern_bytes < length pattern.now)) }
    {
        if self.patterns.len() == MAX_PATTERNS {
            return Err(PatternFault::TooMany);
        }
        if pattern.len() > MAX_PATTERN_BYTES {
            return Err(PatternFault::TooLong);
        }
        self.push(Bytes::of(alloc, pattern)?)?;
        Ok(())
    }

    /// Appends a pattern, which must not be too long, to a list that must not be full.
    fn push(&mut self, pattern: Bytes<A>) -> Result<(), Memory>
        requires few { length self.old < max_patterns }
        requires short { length pattern ≤ max_pattern_bytes }
        ensures ok { OnOk result (self.new ≡ self.old ++ pattern ∷ []) }
        ensures err { OnErr result (self.new ≡ self.old) }
    {
        self.patterns.push(pattern)?;
        Ok(())
    }

    /// Copies the list. Allocates nothing if the list is empty.
    pub fn copy(&self, alloc: A) -> Result<Patterns<A>, Memory>
        ensures copied { IfOk result (λ p. p ≡ self.now) }
        ensures refused { OnErr result (self.now ≢ []) }
    {
        let mut copy = Patterns::new(alloc);
        for pattern in &self.patterns {
            copy.push(pattern.copy(alloc)?)?;
        }
        Ok(copy)
    }
}

impl<A: Allocator> Patterns<A> {
    ghost use Rattle.std.specs.Prelude.{◌≡◌, ◌↔◌, IsTrue};
    ghost use Rattle.covreport.specs.Choice.{any_matches};

    /// The patterns in order. Never allocates.
    pub fn get(&self) -> &[Bytes<A>]
        ensures { result.now ≡ self.now }
    {
        self.patterns.as_slice()
    }

    /// Whether the two lists have equal patterns in the same order. Never allocates.
    pub fn is_same(&self, other: &Patterns<A>) -> bool
        ensures { IsTrue result ↔ (self.now ≡ other.now) }
    {
        let patterns = self.patterns.as_slice();
        let others = other.patterns.as_slice();
        if patterns.len() != others.len() {
            return false;
        }
        for (index, pattern) in patterns.iter().enumerate() {
            if !pattern.is_same(&others[index]) {
                return false;
            }
        }
        true
    }

    /// Whether at least one of the patterns matches the whole path. Never allocates.
    pub fn any_matches(&self, path: &[u8]) -> bool
        ensures { result ≡ any_matches self.now path.now }
    {
        self.patterns
            .as_slice()
            .iter()
            .any(|pattern| matches(pattern.get(), path))
    }
}
