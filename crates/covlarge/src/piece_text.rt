//! The reader's input for one chunk: the chunk's prefix (`front`), then bytes of the tracefile.

ghost use Rattle.std.specs.Prelude.{◌≡◌, ◌<◌, ◌≤◌, ◌+◌, ◌-◌, ◌*◌, ◌^◌, ◌++◌, length, min, take, drop, None, IfOk, IfErr, IfSome};
ghost use Rattle.covlarge.specs.Found.{HasFound, HasReadUntil, IsFound};
ghost use Rattle.covlarge.specs.Large.{piece_bytes};
ghost use Rattle.covpieces.specs.Pieces.{front_text};
ghost use Rattle.covread.specs.Outcome.{max_bytes};
ghost use Rattle.covstream.specs.Blocks.{IsReadFault};

use covdata::{Bytes, MAX_BYTES, Memory};
use covpieces::{Carried, whole_sections};
use covstream::{BlockFault, Source, read_at_most};
use std::alloc::Global;
use std::marker::Model;

/// A chunk takes whole sections from at least 4 MiB after the prefix, or from less at the end of the file or at the size limit. So two
/// successive chunks have together more than 4 MiB.
const PIECE_BYTES: usize = 4_194_304;

/// What follows the prefix of a text.
#[derive(Clone, Copy)]
pub(crate) enum Found {
    /// The end of the tracefile.
    Last,
    /// Whole sections, in the first bytes after the prefix. The value is the number of these bytes.
    Sections(usize),
    /// A section that doesn't end within the size limit.
    TooLong,
}

/// The reader's input for one chunk: the chunk's prefix (`front`), then bytes of the tracefile. Contracts see these two.
#[derive(Drop)]
pub(crate) struct PieceText {
    text: Bytes,
    front: usize,
}

impl Model for PieceText {
    ghost use Rattle.std.specs.Prelude.{◌≤◌, length, take, drop};
    ghost use Rattle.covlarge.specs.PieceData.{PieceData};

    ghost Value = { PieceData };

    ghost view = { λ t. record { front = take t.front t.text; bytes = drop t.front t.text } };

    ghost invariant = { λ t. t.front ≤ length t.text };
}

impl PieceText {
    /// The prefix of the next chunk, followed by `bytes` of the tracefile.
    pub(crate) fn begun(alloc: Global, carried: &Carried, bytes: &[u8]) -> Result<PieceText, Memory>
        ensures front { IfOk result (λ t. t.front ≡ front_text carried.now) }
        ensures bytes { IfOk result (λ t. t.bytes ≡ bytes.now) }
    {
        let mut text = carried.front(alloc)?;
        let front = text.get().len();
        text.append(bytes)?;
        Ok(PieceText { text, front })
    }

    /// Reads until the text holds a complete section, the source ends, or the text exceeds the size limit.
    pub(crate) fn read_on<S: Source>(
        self,
        source: &mut S,
        block: &mut [u8],
    ) -> Result<(PieceText, Found), BlockFault>
        requires some { 0 < length block.old }
        requires reads { S.reads source.old < 2 ^ 61 }
        requires failed_reads { S.failed_reads source.old < 2 ^ 61 }
        ensures front { IfOk result (λ r. r.0.front ≡ self.front) }
        ensures found { IfOk result (λ r. HasFound (min (length self.front + piece_bytes) max_bytes) max_bytes self.front self.bytes r.0.bytes (S.left source.old) (S.left source.new) r.1) }
        ensures counted { IfOk result (λ _. S.reads source.new < S.reads source.old + 2 ^ 28) }
        ensures good { IfOk result (λ _. S.failed_reads source.new ≡ S.failed_reads source.old) }
        ensures failed { IfErr result (IsReadFault (S.left source.old) (S.left source.new) (S.failed_reads source.old) (S.failed_reads source.new)) }
    {
        let PieceText { text, front } = self;
        let least = front.saturating_add(PIECE_BYTES).min(MAX_BYTES);
        let (text, found) = read_on(text, front, source, block, least, MAX_BYTES)?;
        Ok((PieceText { text, front }, found))
    }

    /// The whole text.
    pub(crate) fn get(&self) -> &[u8]
        ensures { result.now ≡ self.now.front ++ self.now.bytes }
    {
        self.text.get()
    }

    /// The bytes after the prefix.
    pub(crate) fn bytes(&self) -> &[u8]
        ensures { result.now ≡ self.now.bytes }
    {
        &self.text.get()[self.front..]
    }

    /// The prefix and the first `len` bytes after it.
    pub(crate) fn with_front(&self, len: usize) -> &[u8]
        requires { len ≤ length self.now.bytes }
        ensures { result.now ≡ self.now.front ++ take len self.now.bytes }
    {
        &self.text.get()[..self.front + len]
    }
}

/// Reads until the first `most` bytes hold a complete section, the source ends, or the text is longer than `most` bytes. Looks for
/// sections first in `least` bytes, then in twice as many, and so on. `most` and `least` are parameters so that no proof has to
/// count up to them.
fn read_on<S: Source>(
    text: Bytes,
    front: usize,
    source: &mut S,
    block: &mut [u8],
    least: usize,
    most: usize,
) -> Result<(Bytes, Found), BlockFault>
    requires front { front ≤ length text }
    requires some { 0 < length block.old }
    requires least { 0 < least }
    requires few { least ≤ most }
    requires most { most < 2 ^ 60 }
    requires reads { S.reads source.old < 2 ^ 61 }
    requires failed_reads { S.failed_reads source.old < 2 ^ 61 }
    ensures found { IfOk result (λ r. HasReadUntil least most front text r.0 (S.left source.old) (S.left source.new) r.1) }
    ensures counted { IfOk result (λ _. S.reads source.new ≤ S.reads source.old + most + most + 3) }
    ensures good { IfOk result (λ _. S.failed_reads source.new ≡ S.failed_reads source.old) }
    ensures failed { IfErr result (IsReadFault (S.left source.old) (S.left source.new) (S.failed_reads source.old) (S.failed_reads source.new)) }
{
    let mut all = text;
    let mut wanted = least;
    loop {
        let room = wanted.saturating_sub(all.get().len());
        all = read_at_most(all, source, block, room)?;
        if let Some(found) = found_in(all.get(), front, wanted, most) {
            return Ok((all, found));
        }
        wanted = longer(wanted, most);
    }
}

/// Decides what follows the prefix of `text`. The source is at its end if `text` has less than `wanted` bytes. Returns `None` if
/// more bytes have to be read.
fn found_in(text: &[u8], front: usize, wanted: usize, most: usize) -> Option<Found>
    requires front { front ≤ length text.now }
    requires wanted { wanted ≤ most + 1 }
    requires most { most < 2 ^ 60 }
    ensures some { IfSome result (IsFound wanted most front (drop front text.now) (length text.now < wanted)) }
    ensures none { result ≡ None → (wanted ≤ length text.now) × (length text.now ≤ most) }
{
    if text.len() < wanted {
        return Some(Found::Last);
    }
    let sections = whole_sections(behind_front(text, front, most));
    if sections > 0 {
        return Some(Found::Sections(sections));
    }
    if text.len() > most {
        return Some(Found::TooLong);
    }
    None
}

/// The bytes after the prefix, up to the index `most` of the text.
fn behind_front(text: &[u8], front: usize, most: usize) -> &[u8]
    requires { front ≤ length text.now }
    ensures { result.now ≡ take (most - front) (drop front text.now) }
{
    let bytes = &text[front..];
    let len = bytes.len().min(most.saturating_sub(front));
    &bytes[..len]
}

/// Doubles `wanted`, up to `most + 1`.
fn longer(wanted: usize, most: usize) -> usize
    requires some { 0 < wanted }
    requires few { wanted ≤ most }
    requires most { most < 2 ^ 60 }
    ensures longer { wanted < result }
    ensures few { result ≤ most + 1 }
    // So a long section is searched once for each doubling of its length, and not for each of its bytes.
    ensures twice { min (2 * wanted) (most + 1) ≤ result }
{
    (2 * wanted).min(most + 1)
}
