//! Stages the checksums of a section's items as held by the test, before the items' sums are staged.

ghost use Rattle.std.specs.Prelude.{◌≡◌, List, ◌++◌, ◌∷◌, IfErr, IfSome, IsTrue, OnOk, ℕ};
ghost use Rattle.std.specs.List.Sorted.{IsStrictlySortedBy};
ghost use Rattle.std.specs.Ordering.{nat_cmp};
ghost use Rattle.covpacked.specs.ItemRefs.{item_ref_data};
ghost use Rattle.covstore.specs.Follows.{Follows, StillFollows};
ghost use Rattle.covstore.specs.FileIndexView.{KeepsCommitted, index_staged};
ghost use Rattle.covstore.specs.Items.{HasRoom, IsClashOf};
ghost use Rattle.covstore.specs.Section.{Clashes};
ghost use Rattle.covstore.specs.TestView.{test_staged};
ghost use Rattle.covstore.specs.HeldChecksums.{AscendFrom, HasRoomToHold, HoldsText, HoldsTexts, checked_line, checked_lines};

use crate::index::FileIndex;
use crate::stage::fault::StageFault;
use crate::sums::LineSum;
use crate::test::Test;
use covpacked::{ItemRef, PackedItems};
use std::alloc::Allocator;

/// Whether the lines of the items with a checksum strictly ascend, and all these lines are below the greatest `u64`.
pub(crate) fn checked_lines_ascend(items: &PackedItems<'_>) -> bool
    ensures { IsTrue result → IsStrictlySortedBy nat_cmp (checked_lines items.now) }
{
    let mut least = 0;
    for item in items.copy() {
        let Some(next) = least_after(&item, least) else {
            return false;
        };
        least = next;
    }
    true
}

/// Returns the least line that the next item with a checksum may have. Returns `None` if `item` has a checksum of a line that is
/// below `least` or is the greatest `u64`.
fn least_after(item: &ItemRef<'_>, least: u64) -> Option<u64>
    ensures { IfSome result (λ next. (lines : List ℕ) → AscendFrom next lines → AscendFrom least (checked_line (item_ref_data item.now) ++ lines)) }
{
    match item {
        ItemRef::Line {
            line,
            checksum: Some(_),
            ..
        } => line_after(*line, least),
        ItemRef::Line { checksum: None, .. } | ItemRef::Func { .. } | ItemRef::Branch { .. } => {
            Some(least)
        }
    }
}

/// Returns the number after `line`, or `None` if `line` is below `least` or is the greatest `u64`.
fn line_after(line: u64, least: u64) -> Option<u64>
    ensures { IfSome result (λ next. (lines : List ℕ) → AscendFrom next lines → AscendFrom least (line ∷ lines)) }
{
    if line < least || line == u64::MAX {
        return None;
    }
    Some(line + 1)
}

/// Stages the items' checksums as held by the test, up to the first item that clashes. The lines of the items with a checksum must
/// strictly ascend, so that no line comes twice. Then no item changes whether the test already holds the checksum of a later item's
/// line.
pub(crate) fn hold_checksums<A: Allocator + Copy>(
    test: &mut Test<A>,
    index: &mut FileIndex<A>,
    alloc: A,
    items: &PackedItems<'_>,
) -> Result<(), StageFault<A>>
    requires follows { Follows test.old index.old }
    requires room { HasRoom (test_staged test.old) (index_staged index.old) }
    requires ascend { IsStrictlySortedBy nat_cmp (checked_lines items.now) }
    ensures test { test.new ≡ test.old }
    ensures index_committed { KeepsCommitted index.old index.new }
    ensures follows { StillFollows index.old test.new index.new }
    ensures ok { OnOk result (HoldsTexts items.now (test_staged test.old) (index_staged index.old) (index_staged index.new)) }
    ensures clash { IfErr result (Clashes items.now (test_staged test.old) (index_staged index.old)) }
{
    for item in items.copy() {
        hold_checksum(test, index, alloc, &item)?;
    }
    Ok(())
}

/// Stages an item's checksum, if it has one, as held by the test.
fn hold_checksum<A: Allocator + Copy>(
    test: &mut Test<A>,
    index: &mut FileIndex<A>,
    alloc: A,
    item: &ItemRef<'_>,
) -> Result<(), StageFault<A>>
    requires follows { Follows test.old index.old }
    requires room { HasRoomToHold (item_ref_data item.now) (test_staged test.old) (index_staged index.old) }
    ensures test { test.new ≡ test.old }
    ensures index_committed { KeepsCommitted index.old index.new }
    ensures follows { StillFollows index.old test.new index.new }
    ensures ok { OnOk result (HoldsText (item_ref_data item.now) (test_staged test.old) (index_staged index.old) (index_staged index.new)) }
    ensures clash { IfErr result (IsClashOf (item_ref_data item.now) (index_staged index.old)) }
{
    if let ItemRef::Line {
        line,
        checksum: Some(text),
        ..
    } = item
    {
        let before = test.lines.lookup_staged(*line);
        let is_held = LineSum::is_checked(&before);
        index.checksums.hold(alloc, *line, text, is_held)?;
    }
    Ok(())
}
