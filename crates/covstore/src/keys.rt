//! Function names and branches, as keys of a map.

ghost use Rattle.std.specs.Prelude.{◌≡◌};
ghost use Rattle.std.specs.Cmp.Lexicographic.{slice_cmp};
ghost use Rattle.std.specs.Ordering.{nat_cmp};
ghost use Rattle.std.proofs.lemmas.Cmp.{nat_list_cmp_total};
ghost use Rattle.std.proofs.lemmas.Map.Lookups.{exact_bytes};
ghost use Rattle.covtable.specs.Keys.{branch_key_exact, branch_key_total};
ghost use Rattle.covtable.specs.Value.{branch_cmp};
ghost use Rattle.covdata.specs.PointView.{branch_point_data};

use crate::path::order_bytes;
use covdata::{BranchPoint, Bytes};
use covmap::{CopyKey, Key, Query};
use std::alloc::{AllocError, Allocator};
use std::cmp::Ordering;
use std::marker::Model;

/// A key of a map of points, such as the number of a line.
pub(crate) trait PointKey<'a, A: Allocator>: Key {
    /// The type of the queries that look up keys of this type.
    type Name: Query<Self, A>;

    /// Returns the query that looks up this key.
    fn name(&'a self) -> Self::Name
        ensures { Self.Name.named result ≡ self.now };
}

impl<'a, A: Allocator> PointKey<'a, A> for u64 {
    type Name = u64;

    fn name(&'a self) -> u64 {
        *self
    }
}

/// The name of a function. Names ascend by their bytes.
#[derive(Drop)]
pub(crate) struct FunctionName<A: Allocator> {
    name: Bytes<A>,
}

impl<A: Allocator> Model for FunctionName<A> {
    ghost use Rattle.std.specs.Prelude.{List, ℕ};

    ghost Value = { List ℕ };

    ghost view = { λ f. f.name };
}

impl<A: Allocator> FunctionName<A> {
    /// The bytes of the name.
    pub(crate) fn get(&self) -> &[u8]
        ensures { result.now ≡ self.now }
    {
        self.name.get()
    }
}

impl<A: Allocator> Key for FunctionName<A> {
    ghost cmp = { slice_cmp nat_cmp };

    ghost total = { nat_list_cmp_total };

    ghost exact = { exact_bytes };
}

impl<A: Allocator> CopyKey<A> for FunctionName<A> {
    fn copy_key(&self, alloc: A) -> Result<FunctionName<A>, AllocError> {
        self.get().key(alloc)
    }
}

impl<'a, A: Allocator> PointKey<'a, A> for FunctionName<A> {
    type Name = &'a [u8];

    fn name(&'a self) -> &'a [u8] {
        self.get()
    }
}

impl<A: Allocator> Query<FunctionName<A>, A> for &[u8] {
    ghost named = { λ query. query.now };

    fn compare(&self, key: &FunctionName<A>) -> Ordering {
        order_bytes(key.get(), *self)
    }

    fn key(self, alloc: A) -> Result<FunctionName<A>, AllocError> {
        match Bytes::of(alloc, self) {
            Ok(name) => Ok(FunctionName { name }),
            Err(_refused) => Err(AllocError),
        }
    }
}

/// A branch. Branches ascend by line, block and number.
#[derive(Drop)]
pub(crate) struct Branch {
    point: BranchPoint,
}

impl Model for Branch {
    ghost use Rattle.covdata.specs.PointView.{branch_point_data};
    ghost use Rattle.covdata.specs.Points.{BranchPoint};

    ghost Value = { BranchPoint };

    ghost view = { λ b. branch_point_data b.point };
}

impl Branch {
    /// The line, block and number of the branch.
    pub(crate) fn get(&self) -> BranchPoint
        ensures { branch_point_data result ≡ self.now }
    {
        self.point
    }
}

impl Key for Branch {
    ghost cmp = { branch_cmp };

    ghost total = { branch_key_total };

    ghost exact = { branch_key_exact };
}

impl<A: Allocator> CopyKey<A> for Branch {
    fn copy_key(&self, _alloc: A) -> Result<Branch, AllocError> {
        Ok(Branch { point: self.point })
    }
}

impl<'a, A: Allocator> PointKey<'a, A> for Branch {
    type Name = BranchPoint;

    fn name(&'a self) -> BranchPoint {
        self.get()
    }
}

impl<A: Allocator> Query<Branch, A> for BranchPoint {
    ghost named = { λ query. branch_point_data query };

    fn compare(&self, key: &Branch) -> Ordering {
        key.get().cmp(self)
    }

    fn key(self, _alloc: A) -> Result<Branch, AllocError> {
        Ok(Branch { point: self })
    }
}
