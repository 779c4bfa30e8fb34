//! Branches of a source file.

/// A branch of a source file: its line, its block and its number in the block (geninfo(1), section FILES: `BRDA:`). Branches are
/// ordered by line, then by block, then by number.
#[derive(Clone, Copy, Debug, PartialEq, Eq, PartialOrd, Ord, Drop)]
pub struct BranchPoint {
    pub line: u64,
    pub block: u64,
    pub branch: u64,
}
