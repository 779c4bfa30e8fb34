//! Prints to a sink, block by block.

ghost use Rattle.std.specs.Prelude.{◌≡◌, ◌<◌, ◌^◌, ◌++◌, [], true, not, OnOk, OnErr, IfErr, suc};
ghost use Rattle.std.specs.Io.KnownBytes.{Appends};
ghost use Rattle.covsession.specs.Fault.{HasBegun};
ghost use Rattle.covsession.specs.declared.session.fault.SessionFault.TheVariants as session_faults;
ghost use Rattle.covworld.specs.Printed.{HasPrinted, WritesOn, sink_data};

use crate::block::{BLOCK_BYTES, Block};
use crate::printed_text::PrintedText;
use covreport::{Noted, Printer};
use covsession::{SessionFault, put_bytes};
use covstream::Sink;
use std::alloc::Global;
use std::marker::{Brand, Model, PhantomData};

/// Names a printer's sink, and the sink's state before printing. The trait has no functions. The contract of a function that takes
/// any `Printer` can't name a sink, so the printer's type names the sink.
trait Place {
    ghost use Rattle.std.specs.Borrow.{GName};
    ghost use Rattle.covworld.specs.Printed.{SinkData};

    // Which sink is printed to.
    ghost sink: { GName };

    // The sink before the first byte.
    ghost start: { SinkData };
}

impl Place for Brand {
    ghost use Rattle.std.specs.Prelude.{None};

    ghost sink = { 0 };

    ghost start = { record { written = None; failed = 0 } };
}

/// A printer that writes to a sink, block by block, until a write fails. Contracts see the bytes that have left the block
/// (`printed`), those still in the block (`waiting`), and whether no write has failed.
#[derive(Drop)]
struct BlockPrinter<'s, O: Sink, L: Place> {
    sink: &'s mut O,
    block: Block,
    has_failed: bool,
    // Proof only: the bytes that have left the block.
    printed: Noted,
    place: PhantomData<L>,
}

impl<'s, O: Sink, L: Place> Model for BlockPrinter<'s, O, L> {
    ghost use Rattle.std.specs.Prelude.{◌≡◌, ◌<◌, ◌^◌, not};
    ghost use Rattle.covworld.specs.Printed.{PrinterData, HasPrinted, sink_data};

    ghost Value = { PrinterData };

    ghost view = { λ p. record {
      printed = p.printed.bytes;
      waiting = p.block;
      is_open = not p.has_failed;
    } };

    ghost invariant = { λ p. (p.sink.ghost_name ≡ L.sink) × (L.start.failed < 2 ^ 62)
        × HasPrinted (not p.has_failed) p.printed.bytes L.start (sink_data (O.written p.sink.now) (O.failed_writes p.sink.now)) };
}

impl<'s, O: Sink, L: Place> Printer for BlockPrinter<'s, O, L> {
    ghost use Rattle.std.specs.Prelude.{◌++◌};

    ghost text = { λ p. p.printed ++ p.waiting };

    ghost is_open = { λ p. p.is_open };

    #[inline]
    fn put(&mut self, piece: &[u8]) {
        if piece.len() <= self.block.room() {
            self.block.append(piece);
        } else {
            self.put_further(piece);
        }
    }

    fn is_open(&self) -> bool {
        !self.has_failed
    }
}

impl<'s, O: Sink, L: Place> BlockPrinter<'s, O, L> {
    /// Writes the block, and then `piece` in blocks, the last of which stays in the buffer. Not inlined, since few pieces exceed
    /// the space that is left in a block.
    #[cold]
    fn put_further(&mut self, piece: &[u8])
        ensures { self.new.printed ++ self.new.waiting ≡ self.old.printed ++ self.old.waiting ++ piece.now }
    {
        for part in piece.chunks(BLOCK_BYTES) {
            self.write_out();
            self.block.append(part);
        }
    }

    /// Writes and empties the block. Writes nothing after a failed write.
    fn write_out(&mut self)
        ensures printed { self.new.printed ≡ self.old.printed ++ self.old.waiting }
        ensures waiting { self.new.waiting ≡ [] }
        ensures stays { self.new.is_open ≡ true → self.old.is_open ≡ true }
    {
        self.has_failed = write_on(self.has_failed, self.block.get(), self.sink);
        self.printed = self.printed.and(self.block.get());
        self.block.clear();
    }

    /// Returns the sink, and whether a write failed. Drops bytes that are still in the block.
    fn into_printout(self) -> Printout<'s, O>
        ensures sink { result.sink.ghost_name ≡ L.sink }
        ensures is_open { self.entry.is_open ≡ not result.has_failed }
        ensures printed { HasPrinted (not result.has_failed) self.entry.printed L.start (sink_data (O.written result.sink.now) (O.failed_writes result.sink.now)) }
    {
        let BlockPrinter {
            sink,
            block,
            has_failed,
            printed,
            ..
        } = self;
        drop(block);
        drop(printed);
        Printout { sink, has_failed }
    }
}

/// Writes `bytes` to `sink`, unless `had_failed` says that an earlier write failed. Returns whether any write has failed.
fn write_on<O: Sink>(had_failed: bool, bytes: &[u8], sink: &mut O) -> bool
    requires { O.failed_writes sink.old < 2 ^ 63 }
    ensures written { WritesOn had_failed result bytes.now (sink_data (O.written sink.old) (O.failed_writes sink.old)) (sink_data (O.written sink.new) (O.failed_writes sink.new)) }
    ensures stays { had_failed ≡ true → result ≡ true }
{
    if had_failed {
        return true;
    }
    match put_bytes(bytes, sink) {
        Ok(()) => false,
        Err(_) => true,
    }
}

/// The result of printing: the sink, and whether a write failed.
struct Printout<'s, O> {
    sink: &'s mut O,
    has_failed: bool,
}

/// Prints `text` to the sink that `L` names.
fn printed_at<'s, T: PrintedText, O: Sink, L: Place>(
    text: T,
    block: Block,
    output: &'s mut O,
) -> Printout<'s, O>
    requires sink { output.ghost_name ≡ L.sink }
    requires start { L.start ≡ sink_data (O.written output.old) (O.failed_writes output.old) }
    requires few { O.failed_writes output.old < 2 ^ 62 }
    requires empty { block ≡ [] }
    ensures same { result.sink.ghost_name ≡ output.entry.ghost_name }
    ensures printed { HasPrinted (not result.has_failed) (T.text text) (sink_data (O.written output.old) (O.failed_writes output.old)) (sink_data (O.written result.sink.now) (O.failed_writes result.sink.now)) }
{
    let mut printer: BlockPrinter<'s, O, L> = BlockPrinter {
        sink: output,
        block,
        has_failed: false,
        printed: Noted::none(),
        place: PhantomData,
    };
    text.print_to(&mut printer);
    printer.write_out();
    printer.into_printout()
}

/// Prints `text` in blocks while the text is made, and flushes the output. Never allocates: the caller provides `block`, which is
/// empty.
pub(crate) fn print_text<T: PrintedText, O: Sink>(
    text: T,
    block: Block,
    output: &mut O,
) -> Result<(), SessionFault>
    requires few { O.failed_writes output.old < 2 ^ 62 }
    requires empty { block ≡ [] }
    ensures written { OnOk result (Appends (O.written output.old) (O.written output.new) (T.text text)) }
    ensures sent { OnOk result (O.held output.new ≡ 0) }
    ensures good { OnOk result (O.failed_writes output.new ≡ O.failed_writes output.old) }
    ensures failed { OnErr result (O.failed_writes output.new ≡ suc (O.failed_writes output.old)) }
    ensures begun { OnErr result (HasBegun (O.written output.old) (O.written output.new) (T.text text)) }
    ensures fault { IfErr result (λ fault. fault ≡ session_faults.Write) }
{
    let Printout { sink, has_failed } = printed_at::<T, O, Brand>(text, block, output);
    if has_failed {
        return Err(SessionFault::Write);
    }
    match sink.flush() {
        Ok(()) => Ok(()),
        Err(_) => Err(SessionFault::Write),
    }
}
