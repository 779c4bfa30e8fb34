//! Stages the items of a section, in their test and in the file's index.

ghost use Rattle.std.specs.Prelude.{◌≡◌, IfErr, OnOk};
ghost use Rattle.std.specs.List.Sorted.{IsStrictlySortedBy};
ghost use Rattle.std.specs.Ordering.{nat_cmp};
ghost use Rattle.covstore.specs.Section.{Adds, Clashes, HasRoomFor};
ghost use Rattle.covstore.specs.Follows.{Follows, StillFollows};
ghost use Rattle.covstore.specs.FileIndexView.{KeepsCommitted, index_staged};
ghost use Rattle.covstore.specs.TestView.{test_staged, test_committed};
ghost use Rattle.covstore.specs.HeldChecksums.{checked_lines};

use crate::held_checksums::{checked_lines_ascend, hold_checksums};
use crate::index::FileIndex;
use crate::runs::{MAX_STAGED_AT_ONCE, runs_in, stage_runs};
use crate::stage::by_line::{have_no_checksum, stage_without_checksums};
use crate::stage::fault::StageFault;
use crate::stage::one_item::stage_item;
use crate::test::Test;
use covpacked::PackedItems;
use std::alloc::Allocator;

/// Stages the items of a section, up to the first that clashes, in batches of at most `MAX_STAGED_AT_ONCE` items. Sorts a long
/// section by line first if no item has a checksum and the line numbers often fall.
pub(crate) fn stage_items<A: Allocator + Copy>(
    test: &mut Test<A>,
    index: &mut FileIndex<A>,
    alloc: A,
    items: &PackedItems<'_>,
) -> Result<(), StageFault<A>>
    requires follows { Follows test.old index.old }
    requires room { HasRoomFor items.now (test_staged test.old) (index_staged index.old) }
    ensures test_committed { test_committed test.new ≡ test_committed test.old }
    ensures index_committed { KeepsCommitted index.old index.new }
    ensures follows { StillFollows index.old test.new index.new }
    ensures ok { OnOk result (Adds items.now (test_staged test.old) (index_staged index.old) (test_staged test.new) (index_staged index.new)) }
    ensures clash { IfErr result (Clashes items.now (test_staged test.old) (index_staged index.old)) }
{
    if have_no_checksum(items) {
        stage_without_checksums(test, index, alloc, items)?;
        return Ok(());
    }
    let mut rest = items.copy();
    while !rest.is_empty() {
        let (some, others) = rest.split_at(rest.len().min(MAX_STAGED_AT_ONCE));
        stage_some(test, index, alloc, &some)?;
        rest = others;
    }
    Ok(())
}

/// Stages a batch of a section's items. Fails with the first clash. Stages the whole batch at once if the lines of its items with a
/// checksum ascend, as in the tracefiles of geninfo. Otherwise, stages the items one by one.
fn stage_some<A: Allocator + Copy>(
    test: &mut Test<A>,
    index: &mut FileIndex<A>,
    alloc: A,
    items: &PackedItems<'_>,
) -> Result<(), StageFault<A>>
    requires follows { Follows test.old index.old }
    requires room { HasRoomFor items.now (test_staged test.old) (index_staged index.old) }
    ensures test_committed { test_committed test.new ≡ test_committed test.old }
    ensures index_committed { KeepsCommitted index.old index.new }
    ensures follows { StillFollows index.old test.new index.new }
    ensures ok { OnOk result (Adds items.now (test_staged test.old) (index_staged index.old) (test_staged test.new) (index_staged index.new)) }
    ensures clash { IfErr result (Clashes items.now (test_staged test.old) (index_staged index.old)) }
{
    if checked_lines_ascend(items) {
        return stage_at_once(test, index, alloc, items);
    }
    stage_each(test, index, alloc, items)
}

/// Stages the items' checksums, and then the items as runs. Returns the first clash without staging runs. The lines of the items
/// with a checksum must strictly ascend.
fn stage_at_once<A: Allocator + Copy>(
    test: &mut Test<A>,
    index: &mut FileIndex<A>,
    alloc: A,
    items: &PackedItems<'_>,
) -> Result<(), StageFault<A>>
    requires follows { Follows test.old index.old }
    requires room { HasRoomFor items.now (test_staged test.old) (index_staged index.old) }
    requires ascend { IsStrictlySortedBy nat_cmp (checked_lines items.now) }
    ensures test_committed { test_committed test.new ≡ test_committed test.old }
    ensures index_committed { KeepsCommitted index.old index.new }
    ensures follows { StillFollows index.old test.new index.new }
    ensures ok { OnOk result (Adds items.now (test_staged test.old) (index_staged index.old) (test_staged test.new) (index_staged index.new)) }
    ensures clash { IfErr result (Clashes items.now (test_staged test.old) (index_staged index.old)) }
{
    hold_checksums(test, index, alloc, items)?;
    let runs = runs_in(alloc, items)?;
    stage_runs(test, index, alloc, &runs)?;
    Ok(())
}

/// Stages items one by one, up to the first item that clashes.
fn stage_each<A: Allocator + Copy>(
    test: &mut Test<A>,
    index: &mut FileIndex<A>,
    alloc: A,
    items: &PackedItems<'_>,
) -> Result<(), StageFault<A>>
    requires follows { Follows test.old index.old }
    requires room { HasRoomFor items.now (test_staged test.old) (index_staged index.old) }
    ensures test_committed { test_committed test.new ≡ test_committed test.old }
    ensures index_committed { KeepsCommitted index.old index.new }
    ensures follows { StillFollows index.old test.new index.new }
    ensures ok { OnOk result (Adds items.now (test_staged test.old) (index_staged index.old) (test_staged test.new) (index_staged index.new)) }
    ensures clash { IfErr result (Clashes items.now (test_staged test.old) (index_staged index.old)) }
{
    for item in items.copy() {
        stage_item(test, index, alloc, item)?;
    }
    Ok(())
}
