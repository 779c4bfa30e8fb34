//! Stages one item, in its test and in the file's index.

ghost use Rattle.std.specs.Prelude.{◌≡◌, ◌+◌, ◌≤◌, None, length, option_map, IfErr, IfOk, IfSome, OnOk};
ghost use Rattle.covmap.specs.Puts.{put, value_of};
ghost use Rattle.covdata.specs.Row.{LineItem, FuncItem, BranchItem};
ghost use Rattle.covpacked.specs.ItemRefs.{item_ref_data};
ghost use Rattle.covstore.specs.FileIndexView.{index_staged, index_committed};
ghost use Rattle.covstore.specs.TestView.{test_staged, test_committed};
ghost use Rattle.covstore.specs.Sums.{with_item};
ghost use Rattle.covstore.specs.Items.{HasRoom, HasRoomOfKind, IsClashOf, IsTextOf, KeepsCounts, KeepsCountsOfKind, KeepsTextsOf};
ghost use Rattle.covstore.specs.FileIndexView.{KeepsCommitted};
ghost use Rattle.covstore.specs.Follows.{Follows, StillFollows};
ghost use Rattle.covstore.specs.declared.stage.fault.StageFault.TheVariants as stops;

use crate::index::FileIndex;
use crate::kind_index::{Counts, KindIndex};
use crate::stage::counted::stage_counted_addend;
use crate::stage::fault::StageFault;
use crate::stage::sole::stage_sole_addend;
use crate::sums::{BranchAddend, FunctionAddend, LineAddend, LineSum, PointAddend, PointSum};
use crate::test::Test;
use covdata::BranchPoint;
use covmap::{Key, Query, StagedMap};
use covpacked::ItemRef;
use std::alloc::{AllocError, Allocator};

/// Stages an item of any kind.
#[inline(always)]
pub(crate) fn stage_item<A: Allocator + Copy>(
    test: &mut Test<A>,
    index: &mut FileIndex<A>,
    alloc: A,
    item: ItemRef<'_>,
) -> Result<(), StageFault<A>>
    requires follows { Follows test.old index.old }
    requires room { HasRoom (test_staged test.old) (index_staged index.old) }
    ensures test_committed { test_committed test.new ≡ test_committed test.old }
    ensures index_committed { KeepsCommitted index.old index.new }
    ensures follows { StillFollows index.old test.new index.new }
    ensures test { OnOk result (test_staged test.new ≡ with_item (item_ref_data item.entry) (test_staged test.old)) }
    ensures counts { OnOk result (KeepsCounts (test_staged test.old) (test_staged test.new) (index_staged index.old) (index_staged index.new)) }
    ensures text { OnOk result (IsTextOf (item_ref_data item.entry) (index_staged index.new)) }
    ensures others { OnOk result (KeepsTextsOf (index_staged index.old) (index_staged index.new)) }
    ensures clash { IfErr result (IsClashOf (item_ref_data item.entry) (index_staged index.old)) }
{
    match item {
        ItemRef::Line {
            line,
            count,
            checksum,
        } => stage_line(test, index, alloc, line, count, checksum),
        ItemRef::Func { name, line, count } => {
            stage_function(test, index, alloc, name, line, count)
        }
        ItemRef::Branch {
            line,
            block,
            branch,
            taken,
        } => {
            let point = BranchPoint {
                line,
                block,
                branch,
            };
            stage_branch(test, index, alloc, point, taken)
        }
    }
}

/// Stages a line's item.
fn stage_line<A: Allocator + Copy>(
    test: &mut Test<A>,
    index: &mut FileIndex<A>,
    alloc: A,
    line: u64,
    count: u128,
    checksum: Option<&[u8]>,
) -> Result<(), StageFault<A>>
    requires follows { Follows test.old index.old }
    requires room { HasRoom (test_staged test.old) (index_staged index.old) }
    ensures test_committed { test_committed test.new ≡ test_committed test.old }
    ensures index_committed { KeepsCommitted index.old index.new }
    ensures follows { StillFollows index.old test.new index.new }
    ensures test { OnOk result (test_staged test.new ≡ with_item (LineItem line count (option_map (λ c. c.now) checksum.entry)) (test_staged test.old)) }
    ensures counts { OnOk result (KeepsCounts (test_staged test.old) (test_staged test.new) (index_staged index.old) (index_staged index.new)) }
    ensures text { OnOk result (IsTextOf (LineItem line count (option_map (λ c. c.now) checksum.entry)) (index_staged index.new)) }
    ensures others { OnOk result (KeepsTextsOf (index_staged index.old) (index_staged index.new)) }
    ensures clash { IfErr result (IsClashOf (LineItem line count (option_map (λ c. c.now) checksum.entry)) (index_staged index.old)) }
{
    let addend = LineAddend {
        count,
        has_checksum: checksum.is_some(),
    };
    let before = stage_addend(&mut test.lines, &mut index.lines, alloc, line, addend)?;
    if let Some(text) = checksum {
        let is_held = LineSum::is_checked(&before);
        index.checksums.hold(alloc, line, text, is_held)?;
    }
    Ok(())
}

/// Stages a function's item.
fn stage_function<A: Allocator + Copy>(
    test: &mut Test<A>,
    index: &mut FileIndex<A>,
    alloc: A,
    name: &[u8],
    line: u64,
    count: u128,
) -> Result<(), StageFault<A>>
    requires follows { Follows test.old index.old }
    requires room { HasRoom (test_staged test.old) (index_staged index.old) }
    ensures test_committed { test_committed test.new ≡ test_committed test.old }
    ensures index_committed { KeepsCommitted index.old index.new }
    ensures follows { StillFollows index.old test.new index.new }
    ensures test { OnOk result (test_staged test.new ≡ with_item (FuncItem name.now line count) (test_staged test.old)) }
    ensures counts { OnOk result (KeepsCounts (test_staged test.old) (test_staged test.new) (index_staged index.old) (index_staged index.new)) }
    ensures others { OnOk result (KeepsTextsOf (index_staged index.old) (index_staged index.new)) }
    ensures clash { IfErr result (λ stop. stop ≡ stops.Memory) }
{
    let addend = FunctionAddend { line, count };
    stage_addend(
        &mut test.functions,
        &mut index.functions,
        alloc,
        name,
        addend,
    )?;
    Ok(())
}

/// Stages a branch's item.
fn stage_branch<A: Allocator + Copy>(
    test: &mut Test<A>,
    index: &mut FileIndex<A>,
    alloc: A,
    point: BranchPoint,
    taken: Option<u128>,
) -> Result<(), StageFault<A>>
    requires follows { Follows test.old index.old }
    requires room { HasRoom (test_staged test.old) (index_staged index.old) }
    ensures test_committed { test_committed test.new ≡ test_committed test.old }
    ensures index_committed { KeepsCommitted index.old index.new }
    ensures follows { StillFollows index.old test.new index.new }
    ensures test { OnOk result (test_staged test.new ≡ with_item (BranchItem point.line point.block point.branch taken) (test_staged test.old)) }
    ensures counts { OnOk result (KeepsCounts (test_staged test.old) (test_staged test.new) (index_staged index.old) (index_staged index.new)) }
    ensures others { OnOk result (KeepsTextsOf (index_staged index.old) (index_staged index.new)) }
    ensures clash { IfErr result (λ stop. stop ≡ stops.Memory) }
{
    let addend = BranchAddend { times: taken };
    stage_addend(
        &mut test.branches,
        &mut index.branches,
        alloc,
        point,
        addend,
    )?;
    Ok(())
}

/// Adds `addend` to the test's staged sum at a point, and stages the change in the file's index. Returns the test's earlier sum at
/// the point, or `None` if the test didn't have the point.
pub(crate) fn stage_addend<
    K: Key + Drop,
    S: PointSum,
    A: Allocator + Copy,
    Q: Query<K, A>,
    M: PointAddend<S>,
>(
    points: &mut StagedMap<K, S, A>,
    kept: &mut KindIndex<K, S, A>,
    alloc: A,
    query: Q,
    addend: M,
) -> Result<Option<S>, AllocError>
    requires follows { IfSome kept.old.follows (λ seen. seen ≡ points.old) }
    requires room { HasRoomOfKind K.cmp S.above points.old.staged kept.old.staged }
    ensures test_committed { points.new.committed ≡ points.old.committed }
    ensures index_committed { kept.new.committed ≡ kept.old.committed }
    ensures follows { IfSome kept.new.follows (λ seen. seen ≡ points.new) }
    ensures counted { kept.old.follows ≡ None → kept.new.follows ≡ None }
    ensures before { IfOk result (λ before. before ≡ value_of K.cmp (Q.named query) points.old.staged) }
    ensures test { OnOk result (points.new.staged ≡ put K.cmp (Q.named query) (M.sum addend (value_of K.cmp (Q.named query) points.old.staged)) points.old.staged) }
    ensures counts { OnOk result (KeepsCountsOfKind K.cmp S.above points.old.staged points.new.staged kept.old.staged kept.new.staged) }
    ensures few { OnOk result (length kept.new.staged ≤ length kept.old.staged + 1) }
{
    match &mut kept.counts {
        Counts::OfOneTest(sole) => stage_sole_addend(points, sole, alloc, query, addend),
        Counts::OfTests(counts) => stage_counted_addend(
            points,
            counts.get_mut(),
            alloc,
            query,
            addend,
        ),
    }
}
