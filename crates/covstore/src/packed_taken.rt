//! How often a branch was taken, or `None`, in 17 bytes. An `Option<u128>` needs 32 bytes.

ghost use Rattle.std.specs.Prelude.{◌≡◌, None};
ghost use Rattle.covstore.specs.Sums.{sum_taken};
ghost use Rattle.covtable.specs.Value.{is_taken};

use crate::packed_u128::PackedU128;
use std::marker::Model;

/// A number below 2^128, or `None`. Contracts see an option.
#[derive(Drop)]
pub(crate) struct PackedTaken {
    count: PackedU128,
    is_known: bool,
}

impl Model for PackedTaken {
    ghost use Rattle.std.specs.Prelude.{ℕ, Option, Some, None, cond};

    ghost Value = { Option ℕ };

    ghost view = { λ times. cond times.is_known (Some times.count) None };
}

impl PackedTaken {
    /// Packs a number or `None`.
    pub(crate) fn of(times: Option<u128>) -> PackedTaken
        ensures { result ≡ times }
    {
        match times {
            Some(number) => PackedTaken {
                count: PackedU128::of(number),
                is_known: true,
            },
            None => PackedTaken {
                count: PackedU128::of(0),
                is_known: false,
            },
        }
    }

    /// Copies the number or `None`.
    pub(crate) fn copy(&self) -> PackedTaken
        ensures { result ≡ self.now }
    {
        PackedTaken {
            count: self.count.copy(),
            is_known: self.is_known,
        }
    }

    /// Returns the sum of this number and `times`. If one of the two is `None`, returns the other. Saturates at 2^128 - 1.
    pub(crate) fn plus(&self, times: Option<u128>) -> PackedTaken
        ensures { result ≡ sum_taken self.now times }
    {
        if !self.is_known {
            return PackedTaken::of(times);
        }
        match times {
            Some(number) => PackedTaken {
                count: self.count.plus(number),
                is_known: true,
            },
            None => self.copy(),
        }
    }

    /// Whether this is a number above 0, and not `None`.
    pub(crate) fn is_above(&self) -> bool
        ensures { result ≡ is_taken self.now }
    {
        if self.is_known {
            return self.count.is_above();
        }
        false
    }

    /// Unpacks the number or `None`.
    pub(crate) fn get(&self) -> Option<u128>
        ensures { result ≡ self.now }
    {
        if self.is_known {
            return Some(self.count.get());
        }
        None
    }
}
