//! The points of a section, each with its value. A value is the sum of the point's items in the section's file and test, and
//! saturates at 2^128 - 1.

/// A function with its least start line and the sum of its execution counts (geninfo(1): `FN:`, `FNDA:`).
#[derive(Clone, Copy)]
pub struct FunctionValue<'a> {
    pub line: u64,
    pub name: &'a [u8],
    pub count: u128,
}

/// A branch, and how often it was taken, or `None` if its block was never executed (geninfo(1): `BRDA:`).
#[derive(Clone, Copy)]
pub struct BranchValue {
    pub line: u64,
    pub block: u64,
    pub branch: u64,
    pub taken: Option<u128>,
}

/// A line with the sum of its execution counts, and the line's checksum if some item has one (geninfo(1): `DA:`).
#[derive(Clone, Copy)]
pub struct LineValue<'a> {
    pub line: u64,
    pub count: u128,
    pub checksum: Option<&'a [u8]>,
}
