//! The width of decimal numbers, and spaces in front of them.

ghost use Rattle.std.specs.Prelude.{◌≡◌, ◌≤◌, ◌++◌, OnOk, decimal, length, replicate};

use covdata::{Bytes, Memory};
use itoa::Buffer;
use std::alloc::Allocator;

/// How many digits a number has in decimal.
pub(crate) fn digits(number: u64) -> usize
    ensures value { result ≡ length (decimal number) }
    ensures few { result ≤ 20 }
{
    let mut digits = Buffer::new();
    digits.format(number).len()
}

/// Appends `count` spaces.
pub(crate) fn put_spaces<A: Allocator>(count: usize, text: &mut Bytes<A>) -> Result<(), Memory>
    ensures { OnOk result (text.new ≡ text.old ++ replicate count 32) }
{
    for _space in 0..count {
        text.append(b" ")?;
    }
    Ok(())
}
