//! Settles a section when it ends: completes its items, and counts its inconsistent lines.

ghost use Rattle.std.specs.Prelude.{◌≡◌, ℕ, ◌+◌, ◌<◌, ◌^◌, List, Option, [], ◌∷◌, false, IfOk, MatchOption, count_by, length, map};
ghost use Rattle.covdata.specs.Records.{LineData};
ghost use Rattle.covread.specs.Reads.{items_of, is_odd};
ghost use Rattle.covread.specs.TraceFunctions.{AreFunctions};
ghost use Rattle.covread.specs.TraceSection.{IsBuiltOf, mark};
ghost use Rattle.covread.specs.TraceSettle.{HavePlaces, IsSettled, names_in};

use crate::trace::functions::{Functions, count_function};
use crate::trace::section::{PendingCount, SectionBuilder};
use crate::trace::tally::{FunctionTotals, SectionPoints, odd_totals};
use covdata::Memory;
use covpacked::PackedSects;
use std::alloc::Allocator;

/// The result of settling counts of functions.
#[derive(Drop)]
pub struct SettledCounts<A: Allocator> {
    /// How many functions have both a start line and a count above 0.
    pub hit: u64,
    /// The indices, in ascending order, of the items that count a function without a start line.
    pub unstarted: Vec<usize, A>,
}

/// Settles the open section, and returns the number of its inconsistent lines: counts of functions without a start line, and totals
/// that differ from the section's own. Each count of a function gets the function's least start line, or is removed if the function
/// has none. Takes O(n log n) time for n lines.
pub fn settle<'a, A: Allocator + Copy>(
    alloc: A,
    sects: &mut PackedSects<A>,
    builder: SectionBuilder<'a, A>,
) -> Result<u64, Memory>
    requires { (inside : List LineData) × IsBuiltOf builder sects.old.items inside × length inside + 1 < 2 ^ 64 }
    ensures sects { sects.new.sects ≡ sects.old.sects }
    ensures items { IfOk result (λ odd. (inside : List LineData) → IsBuiltOf builder.entry sects.old.items inside → sects.new.items ≡ items_of inside) }
    ensures odd { IfOk result (λ odd. (inside : List LineData) → IsBuiltOf builder.entry sects.old.items inside → odd ≡ count_by (is_odd inside) inside) }
{
    let SectionBuilder {
        mut functions,
        waiting,
        lines,
        branches,
        totals,
    } = builder;
    let SettledCounts { hit, unstarted } = settle_counts(
        alloc,
        waiting.as_slice(),
        &mut functions,
        sects,
    )?;
    sects.remove(unstarted.as_slice());
    let found = functions.len() as u64;
    let has = SectionPoints {
        functions: FunctionTotals { found, hit },
        branches,
        lines,
    };
    let others = odd_totals(alloc, totals.as_slice(), has, &sects.items())?;
    Ok(unstarted.len() as u64 + others)
}

/// Sets the start line of each count in `waiting` to its function's least start line, and lists the counts whose function has none.
fn settle_counts<'a, A: Allocator + Copy>(
    alloc: A,
    waiting: &[PendingCount<'a>],
    functions: &mut Functions<'a, A>,
    sects: &mut PackedSects<A>,
) -> Result<SettledCounts<A>, Memory>
    requires { HavePlaces (length sects.old.items) (map mark waiting.now) }
    ensures sects { sects.new.sects ≡ sects.old.sects }
    ensures counts { IfOk result (λ c. (starts : List ℕ → Option ℕ) → AreFunctions functions.old starts [] → IsSettled starts (map mark waiting.now) c.hit c.unstarted.items sects.old.items sects.new.items) }
    ensures functions { IfOk result (λ c. (starts : List ℕ → Option ℕ) → AreFunctions functions.old starts [] → AreFunctions functions.new starts (names_in starts (map mark waiting.now))) }
{
    let mut counts = SettledCounts {
        hit: 0,
        unstarted: Vec::new(alloc),
    };
    for count in waiting {
        counts.take(functions, sects, count)?;
    }
    Ok(counts)
}

impl<A: Allocator + Copy> SettledCounts<A> {
    ghost use Rattle.std.specs.Prelude.{◌≡◌, ◌+◌, ◌<◌, ◌≤◌, ◌^◌, ◌++◌, ◌∷◌, [], ℕ, List, Option, OnOk, length};
    ghost use Rattle.covdata.specs.Row.{ItemData};
    ghost use Rattle.covread.specs.TraceFunctions.{AreFunctions};
    ghost use Rattle.covread.specs.TraceSection.{Mark, mark};
    ghost use Rattle.covread.specs.TraceSettle.{IsSettled, names_in};

    /// Processes the next count of a function.
    fn take<'a>(
        &mut self,
        functions: &mut Functions<'a, A>,
        sects: &mut PackedSects<A>,
        count: &PendingCount<'a>,
    ) -> Result<(), Memory>
        requires place { count.now.at < length sects.old.items }
        requires fits { self.old.hit + 1 < 2 ^ 64 }
        ensures settled { OnOk result ((starts : List ℕ → Option ℕ) (marks : List Mark) (before : List ItemData) → AreFunctions functions.old starts (names_in starts marks)
            → IsSettled starts marks self.old.hit self.old.unstarted.items before sects.old.items → IsSettled starts (marks ++ mark count.now ∷ []) self.new.hit self.new.unstarted.items before sects.new.items) }
        ensures functions { OnOk result ((starts : List ℕ → Option ℕ) (marks : List Mark) → AreFunctions functions.old starts (names_in starts marks) → AreFunctions functions.new starts (names_in starts (marks ++ mark count.now ∷ []))) }
        ensures length { OnOk result (length sects.new.items ≡ length sects.old.items) }
        ensures sects { sects.new.sects ≡ sects.old.sects }
        ensures few { OnOk result (self.new.hit ≤ self.old.hit + 1) }
    {
        let found = match count_function(functions, count.name, count.is_hit) {
            Some(found) => found,
            None => {
                self.unstarted.push(count.at)?;
                return Ok(());
            }
        };
        sects.set_start(count.at, found.start);
        let more = u64::from(found.is_first_hit);
        self.hit += more;
        Ok(())
    }
}
