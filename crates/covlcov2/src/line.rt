//! One line of a tracefile of LCOV 2.

use covdata::TraceLine;

/// The meaning of one line. Names are slices of the line.
#[derive(Clone, Copy)]
pub enum Lcov2Line<'a> {
    /// A record of version 1 other than a branch. `FN:<line>,<end>,<name>` is such a record too: its end line is dropped.
    Plain(TraceLine<'a>),
    /// `FNL:<index>,<line>` or `FNL:<index>,<line>,<end>`: the start line of the functions with this index.
    Leader {
        index: u64,
        line: u64,
    },
    /// `FNA:<index>,<count>,<name>`: the execution count of a function with this index. The name isn't empty.
    Alias {
        index: u64,
        count: u128,
        name: &'a [u8],
    },
    /// `BRDA:<line>,<marks><block>,<branch>,<taken>`: how often a branch was taken. `taken` is `None` for `-`, if the branch's
    /// block was never executed. `number` is `None` if the branch has an expression. `is_excluded` is true if `U` is among the
    /// marks, which excludes the branch from coverage.
    Edge {
        is_excluded: bool,
        line: u64,
        block: u64,
        number: Option<u64>,
        taken: Option<u128>,
    },
}
