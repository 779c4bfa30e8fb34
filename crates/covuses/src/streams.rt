//! A use of covstream.

ghost use Rattle.std.specs.Prelude.{◌≡◌, take, IfOk};

use covdata::Bytes;
use covstream::{BLOCK_BYTES, BlockFault, FromRead, read_at_most};
use std::alloc::Global;

/// The first 16 bytes of a text, or all of a shorter one.
pub fn first_bytes(alloc: Global, text: &[u8]) -> Result<Bytes, BlockFault>
    ensures { IfOk result (λ first. first ≡ take 16 text.now) }
{
    let mut source = FromRead::new(text);
    let mut block = vec![in alloc; 0; BLOCK_BYTES]?;
    read_at_most(Bytes::new(alloc), &mut source, block.as_mut_slice(), 16)
}
