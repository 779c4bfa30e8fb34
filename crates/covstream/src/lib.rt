//! Byte streams: the traits of a source and a sink, and a function that reads a source block by block.
//!
//! A `Source` counts its reads and failed reads, a `Sink` its failed calls. So contracts can say which call failed. `FromRead`
//! makes a source of a reader of std, and `FromWrite` a sink of a writer. `read_at_most` appends the bytes of a source to a text,
//! up to a limit.
//!
//! An example, proved and run in `covuses`: a function that reads the first 16 bytes of a text, or all of a shorter one.
//!
//! ```text
//! pub fn first_bytes(alloc: Global, text: &[u8]) -> Result<Bytes, BlockFault> {
//!     let mut source = FromRead::new(text);
//!     let mut block = vec![in alloc; 0; BLOCK_BYTES]?;
//!     read_at_most(Bytes::new(alloc), &mut source, block.as_mut_slice(), 16)
//! }
//! ```
#![tactic(auto)]

mod blocks;
mod fault;
mod stream;

pub use blocks::{BLOCK_BYTES, read_at_most};
pub use fault::BlockFault;
pub use stream::{Failed, FromRead, FromWrite, Sink, Source};
