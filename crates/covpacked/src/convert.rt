//! Packs and unpacks submissions.

ghost use Rattle.std.specs.Prelude.{◌≡◌, ◌≢◌, ◌++◌, [], ◌∷◌, IfOk, OnErr, OnOk, map, option_map};
ghost use Rattle.covdata.specs.Row.{item_data};
ghost use Rattle.covdata.specs.SectView.{sect_data};
ghost use Rattle.covpacked.specs.ItemRefs.{item_ref_data};
ghost use Rattle.covpacked.specs.PackedSects.{packed_sect_data};

use crate::item_ref::ItemRef;
use crate::packed_items::PackedItems;
use crate::packed_sects::PackedSects;
use crate::packed_submission::PackedSubmission;
use crate::sect_iter::PackedSect;
use covdata::{Bytes, Item, Items, Memory, Sect, Sects, Submission};
use std::alloc::Allocator;

/// Packs a submission.
pub fn pack<A: Allocator + Copy>(
    alloc: A,
    submission: &Submission<A>,
) -> Result<PackedSubmission<A>, Memory>
    ensures { IfOk result (λ packed. packed ≡ submission.now) }
{
    let mut sects = PackedSects::new(alloc);
    for sect in submission.sects() {
        pack_sect(&mut sects, sect)?;
    }
    Ok(PackedSubmission::of_lawful(sects, submission.odd()))
}

/// Packs a section into `sects`, whose open section must be empty.
fn pack_sect<A: Allocator + Copy>(sects: &mut PackedSects<A>, sect: &Sect<A>) -> Result<(), Memory>
    requires { sects.old.items ≡ [] }
    ensures sects { OnOk result (sects.new.sects ≡ sects.old.sects ++ sect_data sect.now ∷ []) }
    ensures items { OnOk result (sects.new.items ≡ []) }
{
    pack_items(sects, sect.items.get())?;
    sects.close(sect.test.get(), sect.file.get())
}

/// Appends the items to the open section.
fn pack_items<A: Allocator + Copy>(
    sects: &mut PackedSects<A>,
    items: &[Item<A>],
) -> Result<(), Memory>
    ensures sects { OnOk result (sects.new.sects ≡ sects.old.sects) }
    ensures items { OnOk result (sects.new.items ≡ sects.old.items ++ map item_data items.now) }
{
    for item in items {
        sects.push_item(borrowed(item))?;
    }
    Ok(())
}

/// Borrows the item as an `ItemRef`.
pub(crate) fn borrowed<A: Allocator>(item: &Item<A>) -> ItemRef<'_>
    ensures { item_ref_data result ≡ item_data item.now }
{
    match item {
        Item::Line {
            line,
            count,
            checksum: Some(text),
        } => ItemRef::Line {
            line: *line,
            count: *count,
            checksum: Some(text.get()),
        },
        Item::Line {
            line,
            count,
            checksum: None,
        } => ItemRef::Line {
            line: *line,
            count: *count,
            checksum: None,
        },
        Item::Func { name, line, count } => ItemRef::Func {
            name: name.get(),
            line: *line,
            count: *count,
        },
        Item::Branch {
            line,
            block,
            branch,
            taken,
        } => ItemRef::Branch {
            line: *line,
            block: *block,
            branch: *branch,
            taken: *taken,
        },
    }
}

/// Unpacks a submission. Never allocates if it has no section.
pub fn unpack<A: Allocator + Copy>(
    alloc: A,
    packed: &PackedSubmission<A>,
) -> Result<Submission<A>, Memory>
    ensures ok { IfOk result (λ submission. submission ≡ packed.now) }
    ensures err { OnErr result (packed.now.sects ≢ []) }
{
    let mut sects = Sects::new(alloc);
    for sect in packed.sects() {
        sects.push(unpacked_sect(alloc, sect)?)?;
    }
    sects.shrink();
    Ok(Submission::of_lawful(sects, packed.odd()))
}

/// Unpacks a section.
fn unpacked_sect<A: Allocator + Copy>(alloc: A, sect: PackedSect<'_>) -> Result<Sect<A>, Memory>
    ensures { IfOk result (λ own. sect_data own ≡ packed_sect_data sect.entry) }
{
    Ok(Sect {
        test: Bytes::of(alloc, sect.test)?,
        file: Bytes::of(alloc, sect.file)?,
        items: unpacked_items(alloc, sect.items)?,
    })
}

/// Unpacks a list of items.
fn unpacked_items<A: Allocator + Copy>(
    alloc: A,
    packed: PackedItems<'_>,
) -> Result<Items<A>, Memory>
    ensures { IfOk result (λ items. items ≡ packed.entry) }
{
    let mut items = Items::new(alloc);
    for item in packed {
        items.push(owned(alloc, item)?)?;
    }
    items.shrink();
    Ok(items)
}

/// Unpacks an item.
fn owned<A: Allocator + Copy>(alloc: A, item: ItemRef<'_>) -> Result<Item<A>, Memory>
    ensures { IfOk result (λ own. item_data own ≡ item_ref_data item.entry) }
{
    match item {
        ItemRef::Line {
            line,
            count,
            checksum,
        } => Ok(Item::Line {
            line,
            count,
            checksum: owned_text(alloc, checksum)?,
        }),
        ItemRef::Func { name, line, count } => Ok(Item::Func {
            name: Bytes::of(alloc, name)?,
            line,
            count,
        }),
        ItemRef::Branch {
            line,
            block,
            branch,
            taken,
        } => Ok(Item::Branch {
            line,
            block,
            branch,
            taken,
        }),
    }
}

/// Copies an optional checksum.
fn owned_text<A: Allocator + Copy>(
    alloc: A,
    checksum: Option<&[u8]>,
) -> Result<Option<Bytes<A>>, Memory>
    ensures { IfOk result (λ own. own ≡ option_map (λ text. text.now) checksum.entry) }
{
    match checksum {
        Some(text) => Ok(Some(Bytes::of(alloc, text)?)),
        None => Ok(None),
    }
}
