//! A number of 64 bits in eight bytes, without alignment. So an option of such a number is only one byte longer than the number. An
//! option of a `u64` is eight bytes longer than the `u64`.

ghost use Rattle.std.specs.Prelude.{◌≡◌};

use covmap::Value;
use std::marker::Model;

/// A number below 2^64. Contracts see the number.
#[derive(Drop)]
pub(crate) struct PackedU64 {
    bytes: [u8; 8],
}

impl Model for PackedU64 {
    ghost use Rattle.std.specs.Prelude.{ℕ};
    ghost use Rattle.std.specs.Int.{from_le_bytes, w64};

    ghost Value = { ℕ };

    ghost view = { λ packed. from_le_bytes w64 packed.bytes };
}

impl PackedU64 {
    /// Packs a number.
    pub(crate) fn of(number: u64) -> PackedU64
        ensures { result ≡ number }
    {
        PackedU64 {
            bytes: number.to_le_bytes(),
        }
    }

    /// Unpacks the number.
    pub(crate) fn get(&self) -> u64
        ensures { result ≡ self.now }
    {
        u64::from_le_bytes(self.bytes)
    }
}

impl Value for PackedU64 {
    fn copy(&self) -> PackedU64 {
        PackedU64 { bytes: self.bytes }
    }
}
