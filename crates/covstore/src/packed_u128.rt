//! A number of 128 bits in sixteen bytes, without padding. A struct with a `u128` would be padded to a multiple of sixteen bytes.

ghost use Rattle.std.specs.Prelude.{◌≡◌, ◌+◌, nat_lt};
ghost use Rattle.covtable.specs.Value.{bounded};

use crate::packed_u64::PackedU64;
use covmap::Value;
use std::marker::Model;

/// A number below 2^128. Contracts see the number.
#[derive(Drop)]
pub(crate) struct PackedU128 {
    low: PackedU64,
    high: PackedU64,
}

impl Model for PackedU128 {
    ghost use Rattle.std.specs.Prelude.{ℕ, ◌+◌, ◌*◌};

    ghost Value = { ℕ };

    ghost view = { λ wide. wide.high * 18446744073709551616 + wide.low };
}

impl PackedU128 {
    /// Packs a number.
    pub(crate) fn of(number: u128) -> PackedU128
        ensures { result ≡ number }
    {
        PackedU128 {
            low: PackedU64::of((number % 18446744073709551616) as u64),
            high: PackedU64::of((number / 18446744073709551616) as u64),
        }
    }

    /// Copies the number.
    pub(crate) fn copy(&self) -> PackedU128
        ensures { result ≡ self.now }
    {
        PackedU128 {
            low: self.low.copy(),
            high: self.high.copy(),
        }
    }

    /// The sum of this number and another. Saturates at 2^128 - 1.
    pub(crate) fn plus(&self, number: u128) -> PackedU128
        ensures { result ≡ bounded (self.now + number) }
    {
        PackedU128::of(self.get().saturating_add(number))
    }

    /// Whether the number is above 0.
    pub(crate) fn is_above(&self) -> bool
        ensures { result ≡ nat_lt 0 self.now }
    {
        self.high.get() > 0 || self.low.get() > 0
    }

    /// Unpacks the number.
    pub(crate) fn get(&self) -> u128
        ensures { result ≡ self.now }
    {
        u128::from(self.high.get()) * 18446744073709551616 + u128::from(self.low.get())
    }
}
