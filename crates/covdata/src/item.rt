//! Items and lists of items.

ghost use Rattle.std.specs.Prelude.{◌≡◌, ◌↔◌, IsTrue};

use crate::bytes::Bytes;
use crate::memory::Memory;
use crate::point::BranchPoint;
use std::alloc::{Allocator, Global};
use std::marker::Model;

/// One count of a source file (geninfo(1), section FILES).
#[derive(Drop)]
pub enum Item<A: Allocator = Global> {
    /// The execution count of an instrumented line, with the checksum of the line's text if the record has one (`DA:`). A lawful
    /// checksum is one or more bytes without comma, space, tab, carriage return and line feed.
    Line {
        line: u64,
        count: u128,
        checksum: Option<Bytes<A>>,
    },
    /// A function's execution count and start line (`FNDA:`, `FN:`). A lawful name isn't empty, has no line feed and doesn't end in
    /// a carriage return.
    Func {
        name: Bytes<A>,
        line: u64,
        count: u128,
    },
    /// How often a branch was taken (`BRDA:`). `taken` is `None` if the branch's block was never executed.
    Branch {
        line: u64,
        block: u64,
        branch: u64,
        taken: Option<u128>,
    },
}

impl<A: Allocator> Item<A> {
    ghost use Rattle.std.specs.Prelude.{◌≡◌, option_map, option_to_list};
    ghost use Rattle.covdata.specs.Row.{item_data};
    ghost use Rattle.covdata.specs.Points.{line_point, branch_point, is_hit};
    ghost use Rattle.covdata.specs.PointView.{branch_point_data};

    /// The line of a `Line` item. Returns `None` for an item of another kind.
    pub fn line_point(&self) -> Option<u64>
        ensures { option_to_list result ≡ line_point (item_data self.now) }
    {
        match self {
            Item::Line { line, .. } => Some(*line),
            Item::Func { .. } | Item::Branch { .. } => None,
        }
    }

    /// The branch of a `Branch` item. Returns `None` for an item of another kind.
    pub fn branch_point(&self) -> Option<BranchPoint>
        ensures { option_to_list (option_map branch_point_data result) ≡ branch_point (item_data self.now) }
    {
        match self {
            Item::Branch {
                line,
                block,
                branch,
                ..
            } => Some(BranchPoint {
                line: *line,
                block: *block,
                branch: *branch,
            }),
            Item::Line { .. } | Item::Func { .. } => None,
        }
    }

    /// Whether the item's count is above 0; false for a branch whose block was never executed.
    pub fn is_hit(&self) -> bool
        ensures { result ≡ is_hit (item_data self.now) }
    {
        match *self {
            Item::Line { count, .. } | Item::Func { count, .. } => count > 0,
            Item::Branch { taken, .. } => taken.is_some_and(|times| times > 0),
        }
    }
}

impl<A: Allocator> Item<A> {
    ghost use Rattle.std.specs.Prelude.{◌≡◌, ◌↔◌, IsTrue};
    ghost use Rattle.covdata.specs.Row.{LineItem, FuncItem, BranchItem, item_data};

    /// Whether the items are equal. Never allocates.
    pub fn is_same(&self, other: &Item<A>) -> bool
        ensures { IsTrue result ↔ (item_data self.now ≡ item_data other.now) }
    {
        match self {
            Item::Line {
                line,
                count,
                checksum,
            } => other.is_line(*line, *count, checksum),
            Item::Func { name, line, count } => other.is_function(name, *line, *count),
            Item::Branch {
                line,
                block,
                branch,
                taken,
            } => other.is_branch(*line, *block, *branch, *taken),
        }
    }

    /// Whether `self` is the item of the line `line`, with this count and checksum.
    fn is_line(&self, line: u64, count: u128, checksum: &Option<Bytes<A>>) -> bool
        ensures { IsTrue result ↔ (LineItem line count checksum.now ≡ item_data self.now) }
    {
        match self {
            Item::Line {
                line: own_line,
                count: own_count,
                checksum: own_checksum,
            } => {
                line == *own_line && count == *own_count && is_same_checksum(checksum, own_checksum)
            },
            Item::Func { .. } | Item::Branch { .. } => false,
        }
    }

    /// Whether `self` is the item of the function `name`, with this start line and count.
    fn is_function(&self, name: &Bytes<A>, line: u64, count: u128) -> bool
        ensures { IsTrue result ↔ (FuncItem name.now line count ≡ item_data self.now) }
    {
        match self {
            Item::Func {
                name: own_name,
                line: own_line,
                count: own_count,
            } => line == *own_line && count == *own_count && name.is_same(own_name),
            Item::Line { .. } | Item::Branch { .. } => false,
        }
    }

    /// Whether `self` is the item of the branch `branch` of this line and block, with this `taken`.
    fn is_branch(&self, line: u64, block: u64, branch: u64, taken: Option<u128>) -> bool
        ensures { IsTrue result ↔ (BranchItem line block branch taken ≡ item_data self.now) }
    {
        match self {
            Item::Branch {
                line: own_line,
                block: own_block,
                branch: own_branch,
                taken: own_taken,
            } => {
                line == *own_line
                    && block == *own_block
                    && branch == *own_branch
                    && taken == *own_taken
            },
            Item::Line { .. } | Item::Func { .. } => false,
        }
    }
}

/// Whether two checksums are equal, or both missing.
fn is_same_checksum<A: Allocator>(left: &Option<Bytes<A>>, right: &Option<Bytes<A>>) -> bool
    ensures { IsTrue result ↔ (left.now ≡ right.now) }
{
    match left {
        Some(text) => right.as_ref().is_some_and(|other| text.is_same(other)),
        None => right.is_none(),
    }
}

impl<A: Allocator + Copy> Item<A> {
    ghost use Rattle.std.specs.Prelude.{◌≡◌, IfOk};
    ghost use Rattle.covdata.specs.Row.{item_data};

    /// Copies the item.
    pub(crate) fn copy(&self, alloc: A) -> Result<Item<A>, Memory>
        ensures { IfOk result (λ i. item_data i ≡ item_data self.now) }
    {
        match self {
            Item::Line {
                line,
                count,
                checksum,
            } => Ok(Item::Line {
                line: *line,
                count: *count,
                checksum: Item::copy_checksum(checksum, alloc)?,
            }),
            Item::Func { name, line, count } => Ok(Item::Func {
                name: name.copy(alloc)?,
                line: *line,
                count: *count,
            }),
            Item::Branch {
                line,
                block,
                branch,
                taken,
            } => Ok(Item::Branch {
                line: *line,
                block: *block,
                branch: *branch,
                taken: *taken,
            }),
        }
    }

    /// Copies an optional checksum.
    fn copy_checksum(checksum: &Option<Bytes<A>>, alloc: A) -> Result<Option<Bytes<A>>, Memory>
        ensures { IfOk result (λ c. c ≡ checksum.now) }
    {
        match checksum {
            Some(text) => Ok(Some(text.copy(alloc)?)),
            None => Ok(None),
        }
    }
}

/// A list of items. Contracts see the items.
#[derive(Drop)]
pub struct Items<A: Allocator = Global> {
    items: Vec<Item<A>, A>,
}

impl<A: Allocator> Model for Items<A> {
    ghost use Rattle.std.specs.Prelude.{List, map};
    ghost use Rattle.covdata.specs.Row.{ItemData, item_data};
    ghost use Rattle.covdata.specs.Lawful.{AllFit};

    ghost Value = { List ItemData };

    ghost view = { λ a. map item_data a.items.items };

    ghost invariant = { λ a. AllFit (map item_data a.items.items) };
}

impl<A: Allocator + Copy> Items<A> {
    ghost use Rattle.std.specs.Prelude.{◌≡◌, ◌++◌, [], ◌∷◌, IfOk, OnOk};
    ghost use Rattle.covdata.specs.Row.{item_data};

    /// Copies the list.
    pub fn copy(&self, alloc: A) -> Result<Items<A>, Memory>
        ensures { IfOk result (λ s. s ≡ self.now) }
    {
        let mut copy = Items {
            items: Vec::with_capacity(alloc, self.items.len())?,
        };
        for item in self.get() {
            copy.push_copy(item, alloc)?;
        }
        Ok(copy)
    }

    /// Appends a copy of the item.
    fn push_copy(&mut self, item: &Item<A>, alloc: A) -> Result<(), Memory>
        ensures { OnOk result (self.new ≡ self.old ++ item_data item.now ∷ []) }
    {
        self.push(item.copy(alloc)?)
    }
}

impl<A: Allocator> Items<A> {
    ghost use Rattle.std.specs.Prelude.{◌≡◌, ◌↔◌, ◌<◌, ◌++◌, List, [], ◌∷◌, IsTrue, OnOk, OnErr, length, map};
    ghost use Rattle.covdata.specs.Row.{ItemData, item_data, with_start};
    ghost use Rattle.covdata.specs.Lawful.{AllFit};

    /// The empty list.
    pub fn new(alloc: A) -> Items<A>
        ensures { result ≡ [] }
    {
        Items {
            items: Vec::new(alloc),
        }
    }

    /// Appends an item. On `Memory`, drops the item and leaves the list unchanged.
    pub fn push(&mut self, item: Item<A>) -> Result<(), Memory>
        ensures ok { OnOk result (self.new ≡ self.old ++ item_data item ∷ []) }
        ensures err { OnErr result (self.new ≡ self.old) }
    {
        self.items.push(item)?;
        Ok(())
    }

    /// Sets the start line of the item at index `at` to `line`, if that item is a function's. `at` must be in range.
    pub fn set_start(&mut self, at: usize, line: u64)
        requires { at < length self.old }
        ensures { (before after : List ItemData) (item : ItemData) → self.old ≡ before ++ item ∷ after → at ≡ length before → self.new ≡ before ++ with_start line item ∷ after }
    {
        if let Item::Func { line: start, .. } = &mut self.items[at] {
            *start = line;
        }
    }

    /// The number of items.
    pub fn len(&self) -> usize
        ensures { result ≡ length self.now }
    {
        self.items.len()
    }

    /// Whether the lists have equal items in the same order. Never allocates.
    pub fn is_same(&self, other: &Items<A>) -> bool
        ensures { IsTrue result ↔ (self.now ≡ other.now) }
    {
        let items = self.get();
        let others = other.get();
        if items.len() != others.len() {
            return false;
        }
        for (index, item) in items.iter().enumerate() {
            if !item.is_same(&others[index]) {
                return false;
            }
        }
        true
    }

    /// Frees the list's unused capacity. Meant for a finished list.
    pub fn shrink(&mut self)
        ensures { self.new ≡ self.old }
    {
        self.items.shrink_to_fit();
    }

    /// Consumes the list and returns its items, in order.
    pub fn into_vec(self) -> Vec<Item<A>, A>
        ensures { map item_data result.items ≡ self }
    {
        self.items
    }

    /// The items in order.
    pub fn get(&self) -> &[Item<A>]
        ensures items { map item_data result.now ≡ self.now }
        ensures fit { AllFit self.now }
    {
        self.items.as_slice()
    }
}
