//! Reads the bytes of a source, block by block.

ghost use Rattle.std.specs.Prelude.{◌≡◌, ◌<◌, ◌≤◌, ◌+◌, ◌^◌, length, IfOk, IfErr};
ghost use Rattle.covstream.specs.Blocks.{HasReadBlock, HasReadOn, IsReadFault};

use crate::fault::BlockFault;
use crate::stream::Source;
use covdata::Bytes;

/// The number of bytes that one read requests.
pub const BLOCK_BYTES: usize = 65_536;

/// Reads the rest of the source, at most `most` bytes, and appends them to `text`. Each read fills a part of `block`. `most` is a
/// parameter so that no proof has to count up to a caller's limit. Fails with `Unreadable` if a read failed, and otherwise with
/// `Memory`.
pub fn read_at_most<S: Source>(
    text: Bytes,
    source: &mut S,
    block: &mut [u8],
    most: usize,
) -> Result<Bytes, BlockFault>
    requires some { 0 < length block.old }
    requires most { most < 2 ^ 62 }
    requires reads { S.reads source.old < 2 ^ 62 }
    requires failed_reads { S.failed_reads source.old < 2 ^ 62 }
    ensures read { IfOk result (HasReadOn most (S.left source.old) (S.left source.new) text) }
    ensures few { IfOk result (λ all. length all ≤ length text + most) }
    ensures counted { IfOk result (λ all. S.reads source.new + length text ≤ S.reads source.old + length all + 1) }
    ensures good { IfOk result (λ _. S.failed_reads source.new ≡ S.failed_reads source.old) }
    ensures failed { IfErr result (IsReadFault (S.left source.old) (S.left source.new) (S.failed_reads source.old) (S.failed_reads source.new)) }
{
    let mut all = text;
    let mut room = most;
    while room > 0 {
        let got = read_some(source, block, room, &mut all)?;
        if got == 0 {
            return Ok(all);
        }
        room -= got;
    }
    Ok(all)
}

/// Reads at most `room` bytes into `block` in one read, appends them to `text`, and returns their number.
fn read_some<S: Source>(
    source: &mut S,
    block: &mut [u8],
    room: usize,
    text: &mut Bytes,
) -> Result<usize, BlockFault>
    requires some { 0 < length block.old }
    requires reads { S.reads source.old < 2 ^ 63 }
    requires failed_reads { S.failed_reads source.old < 2 ^ 63 }
    ensures read { IfOk result (HasReadBlock (S.left source.old) (S.left source.new) text.old text.new room) }
    ensures counted { IfOk result (λ _. S.reads source.new ≡ S.reads source.old + 1) }
    ensures good { IfOk result (λ _. S.failed_reads source.new ≡ S.failed_reads source.old) }
    ensures failed { IfErr result (IsReadFault (S.left source.old) (S.left source.new) (S.failed_reads source.old) (S.failed_reads source.new)) }
{
    let most = room.min(block.len());
    let got = read_block(source, &mut block[..most], text)?;
    Ok(got)
}

/// Reads bytes into `block` in one read, appends them to `text`, and returns their number.
fn read_block<S: Source>(
    source: &mut S,
    block: &mut [u8],
    text: &mut Bytes,
) -> Result<usize, BlockFault>
    requires reads { S.reads source.old < 2 ^ 63 }
    requires failed_reads { S.failed_reads source.old < 2 ^ 63 }
    ensures read { IfOk result (HasReadBlock (S.left source.old) (S.left source.new) text.old text.new (length block.old)) }
    ensures counted { IfOk result (λ _. S.reads source.new ≡ S.reads source.old + 1) }
    ensures good { IfOk result (λ _. S.failed_reads source.new ≡ S.failed_reads source.old) }
    ensures failed { IfErr result (IsReadFault (S.left source.old) (S.left source.new) (S.failed_reads source.old) (S.failed_reads source.new)) }
{
    let Ok(got) = source.read(block) else {
        return Err(BlockFault::Unreadable);
    };
    text.append(&block[..got])?;
    Ok(got)
}
