//! Items with borrowed names and checksums.

ghost use Rattle.std.specs.Prelude.{◌≡◌, option_map, option_to_list};
ghost use Rattle.covdata.specs.PointView.{branch_point_data};
ghost use Rattle.covdata.specs.Points.{branch_point, is_hit, line_point};
ghost use Rattle.covpacked.specs.ItemRefs.{item_ref_data};

use covdata::BranchPoint;

/// One count of a source file, like covdata's `Item`, but with a borrowed name or checksum (geninfo(1), section FILES).
#[derive(Clone, Copy)]
pub enum ItemRef<'a> {
    /// The execution count of an instrumented line, with the checksum of the line's text if the record has one (`DA:`).
    Line {
        line: u64,
        count: u128,
        checksum: Option<&'a [u8]>,
    },
    /// A function's execution count and start line (`FNDA:`, `FN:`).
    Func {
        name: &'a [u8],
        line: u64,
        count: u128,
    },
    /// How often a branch was taken (`BRDA:`). `taken` is `None` if the branch's block was never executed.
    Branch {
        line: u64,
        block: u64,
        branch: u64,
        taken: Option<u128>,
    },
}

impl<'a> ItemRef<'a> {
    /// The line of a `Line` item. Returns `None` for an item of another kind.
    pub fn line_point(&self) -> Option<u64>
        ensures { option_to_list result ≡ line_point (item_ref_data self.now) }
    {
        match self {
            ItemRef::Line { line, .. } => Some(*line),
            ItemRef::Func { .. } | ItemRef::Branch { .. } => None,
        }
    }

    /// The branch of a `Branch` item. Returns `None` for an item of another kind.
    pub fn branch_point(&self) -> Option<BranchPoint>
        ensures { option_to_list (option_map branch_point_data result) ≡ branch_point (item_ref_data self.now) }
    {
        match self {
            ItemRef::Branch {
                line,
                block,
                branch,
                ..
            } => Some(BranchPoint {
                line: *line,
                block: *block,
                branch: *branch,
            }),
            ItemRef::Line { .. } | ItemRef::Func { .. } => None,
        }
    }

    /// Whether the item's count is above 0; false for a branch whose block was never executed.
    pub fn is_hit(&self) -> bool
        ensures { result ≡ is_hit (item_ref_data self.now) }
    {
        match *self {
            ItemRef::Line { count, .. } | ItemRef::Func { count, .. } => count > 0,
            ItemRef::Branch { taken, .. } => taken.is_some_and(|times| times > 0),
        }
    }
}
